//! A link that reports each call to a watcher, such as a window that draws a progress bar.
ghost use Rattle.std.specs.Prelude.{◌<◌, length};
ghost use Rattle.ghosts.specs.Preserves.{Preserves};
ghost use Rattle.stk_host.specs.Transcript.{Sends, Receives};
ghost use Rattle.stk_host.specs.Watching.{LinkCallReport, Sent, Received, link_call_report};

use crate::link::{Heard, Link, LinkFault};

/// A call of a link that has returned: its argument and its result.
#[derive(Clone, Copy, Debug)]
pub enum LinkCall<'a> {
    /// [`Link::send`] was called with these bytes and returned this.
    Sent(&'a [u8], Result<usize, LinkFault>),
    /// [`Link::recv`] returned this; the buffer begins with the bytes received.
    Received(&'a [u8], Result<Heard, LinkFault>),
}

/// Watches the calls of a link. It can't change the link or what a call returns.
///
/// Use `after` to prove what a watcher does with a call. Without such a proof set it to `λ call old new. Unit {0}`.
pub trait WatchLink {
    /// What a call does to the watcher.
    ghost after: { LinkCallReport → Self → Self → Type 0 };

    /// Called once for each call of the link, after it has returned.
    fn on_call(&mut self, call: &LinkCall<'_>)
        ensures { after (link_call_report call.now) self.old self.new };
}

/// Wraps a link and reports each call to a watcher. As a link it behaves as the inner one.
///
/// ```text
/// #[derive(Drop)]
/// struct Frames { sent: u32 }
/// impl WatchLink for Frames {
///     ghost after = { λ call old new. Unit {0} };
///     fn on_call(&mut self, call: &LinkCall<'_>) {
///         if let LinkCall::Sent(_, Ok(_)) = call {
///             self.sent = self.sent.saturating_add(1);
///         }
///     }
/// }
/// let tape = TapeLink::new(alloc, Vec::new(alloc), 281);
/// let mut link = WatchedLink { link: tape, watcher: Frames { sent: 0 } };
/// send_all(&mut link, b"\x1B\x01\x00\x01\x0E\x01\x14")?;
/// assert_eq!(rt; link.watcher.sent, 1);
/// ```
#[derive(Debug, Drop)]
pub struct WatchedLink<L, W> {
    /// The inner link.
    pub link: L,
    /// The watcher.
    pub watcher: W,
}

impl<L: Link, W: WatchLink> Link for WatchedLink<L, W> {
    ghost view = { λ watched. L.view watched.link };

    ghost Start = { L.Start };

    ghost started_as = { λ start watched. L.started_as start watched.link };

    fn send(&mut self, bytes: &[u8]) -> Result<usize, LinkFault>
        ensures sends { Sends bytes.now (L.view self.old.link) (L.view self.new.link) result }
        ensures comes { Preserves L.started_as self.old.link self.new.link }
        ensures notice { W.after (Sent bytes.now result) self.old.watcher self.new.watcher }
    {
        let outcome = self.link.send(bytes);
        self.watcher.on_call(&LinkCall::Sent(bytes, outcome));
        outcome
    }

    fn recv(&mut self, buffer: &mut [u8]) -> Result<Heard, LinkFault>
        requires { 0 < length buffer.old }
        ensures receives { Receives buffer.new (L.view self.old.link) (L.view self.new.link) result }
        ensures comes { Preserves L.started_as self.old.link self.new.link }
        ensures notice { W.after (Received buffer.new result) self.old.watcher self.new.watcher }
    {
        let outcome = self.link.recv(buffer);
        self.watcher.on_call(&LinkCall::Received(buffer, outcome));
        outcome
    }
}
