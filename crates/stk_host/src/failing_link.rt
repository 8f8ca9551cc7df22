//! A link that fails once, at a chosen call: for tests of code that uses links.
ghost use Rattle.std.specs.Prelude.{◌≡◌, ◌≢◌, ◌==◌, ◌<◌, ◌≤◌, ◌+◌, ◌-◌, length, min, Err, IfOk};
ghost use Rattle.stk_host.specs.Links.{failing_link_state, FailsAsPlanned};
ghost use Rattle.ghosts.specs.Failures.{OneFailureCounted};
ghost use Rattle.ghosts.specs.Preserves.{Preserves};
ghost use Rattle.stk_host.specs.Transcript.{Sends, Receives, FitsBuffer};

use crate::link::{Heard, Link, LinkFault};
use std::marker::Model;

/// Wraps a link, fails at one call, and cuts what passes into short pieces.
///
/// Calls of `send` and `recv` are counted together from 1. The chosen call returns [`LinkFault::Failed`], counts as a
/// failure and changes nothing else. All other calls go to the inner link: `send` with at most `cut` bytes, `recv` with
/// a buffer of at most `cut` bytes.
///
/// ```text
/// let tape = TapeLink::new(alloc, Vec::new(alloc), 281);
/// let mut link = FailingLink::new(tape, 1, 281);
/// let part = Parts::none().find("m328p")?;
/// assert_eq!(rt; Host::new(part).open(&mut link, false), Err(HostFault::SendFailed));
/// ```
#[derive(Debug, Drop)]
pub struct FailingLink<L> {
    inner: L,
    due: u64,
    cut: usize,
    failed: u64,
}

impl<L> Model for FailingLink<L> {
    ghost use Rattle.stk_host.specs.Links.{FailingState};
    ghost use Rattle.std.specs.Prelude.{◌<◌};

    ghost Value = { FailingState L };

    ghost view = { λ link. record {
      inner = link.inner;
      due = link.due;
      cut = link.cut;
      failed = link.failed;
    } };

    ghost invariant = { λ link. 0 < link.cut };
}

impl<L> FailingLink<L> {
    /// Wraps `inner`, in pieces of at most `cut` bytes, so that call `n` fails. Calls are counted from 1; if `n` is 0,
    /// none fails. `cut` must be at least 1.
    ///
    /// ```text
    /// let tape = TapeLink::new(alloc, Vec::new(alloc), 281);
    /// let mut link = FailingLink::new(tape, 2, 281);
    /// assert!(rt; link.send(b"\x1B").is_ok());
    /// assert!(rt; link.send(b"\x1B").is_err());
    /// ```
    pub fn new(inner: L, n: u64, cut: usize) -> Self
        requires { 0 < cut }
        ensures { result ≡ record { inner = inner; due = n; cut = cut; failed = 0 } }
    {
        FailingLink {
            inner,
            due: n,
            cut,
            failed: 0,
        }
    }

    /// Returns the inner link.
    ///
    /// ```text
    /// let tape = TapeLink::new(alloc, Vec::new(alloc), 281);
    /// let mut link = FailingLink::new(tape, 0, 281);
    /// link.send(b"\x1B")?;
    /// assert!(rt; link.inner().sent() == b"\x1B".as_slice());
    /// ```
    pub fn inner(&self) -> &L
        ensures { result.now ≡ self.now.inner }
    {
        &self.inner
    }

    /// Counts a call, and returns whether it is the one that fails.
    fn is_due(&mut self) -> bool
        ensures value { result ≡ (self.old.due == 1) }
        ensures due { self.new.due ≡ self.old.due - 1 }
        ensures inner { self.new.inner ≡ self.old.inner }
        ensures cut { self.new.cut ≡ self.old.cut }
        ensures failed { self.old.due ≡ 1 → OneFailureCounted self.old.failed self.new.failed }
        ensures sound { self.old.due ≢ 1 → self.new.failed ≡ self.old.failed }
        ensures counted { self.old.failed ≤ self.new.failed }
    {
        let is_due = self.due == 1;
        self.due = self.due.saturating_sub(1);
        if is_due {
            self.failed = self.failed.saturating_add(1);
        }
        is_due
    }
}

impl<L: Link + Drop> Link for FailingLink<L> {
    ghost view = { failing_link_state L.view };

    ghost Start = { L.Start };

    ghost started_as = { λ start link. L.started_as start link.inner };

    #[tactic(auto, using(crate::proofs::Transcripts::Sending::takes_none, crate::proofs::Transcripts::Sending::takes_first))]
    fn send(&mut self, bytes: &[u8]) -> Result<usize, LinkFault>
        ensures sends { Sends bytes.now (failing_link_state L.view self.old)
            (failing_link_state L.view self.new) result }
        ensures comes { Preserves L.started_as self.old.inner self.new.inner }
        ensures fails { FailsAsPlanned L.view self.old self.new result }
        ensures short { IfOk result (λ n. n ≤ self.old.cut) }
    {
        if self.is_due() {
            return Err(LinkFault::Failed);
        }
        let most = self.cut.min(bytes.len());
        let count = self.inner.send(&bytes[..most])?;
        Ok(count)
    }

    fn recv(&mut self, buffer: &mut [u8]) -> Result<Heard, LinkFault>
        requires { 0 < length buffer.old }
        ensures receives { Receives buffer.new (failing_link_state L.view self.old) (failing_link_state L.view self.new)
            result }
        ensures comes { Preserves L.started_as self.old.inner self.new.inner }
        ensures fails { FailsAsPlanned L.view self.old self.new result }
        ensures short { IfOk result (λ heard. FitsBuffer heard self.old.cut) }
    {
        if self.is_due() {
            return Err(LinkFault::Failed);
        }
        let most = self.cut.min(buffer.len());
        self.inner.recv(&mut buffer[..most])
    }
}
