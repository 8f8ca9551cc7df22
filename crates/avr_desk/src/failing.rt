ghost use Rattle.std.specs.Prelude.{◌≡◌, ◌≤◌, ◌-◌, ◌==◌, length, IfErr, IfOk, is_err};
ghost use Rattle.avr_desk.specs.Failing.{FailsWhenDue, count_after, failing, of_inner};
ghost use Rattle.avr_io.specs.Record.{ChangesRecord, after_open, after_create, after_hold, after_read, Replaces, released, HasOpen, is_to_read, is_to_write};
ghost use Rattle.avr_io.specs.Fault.{CountsFailure, WriteCounts, IsCall};
ghost use Rattle.avr_io.specs.Stream.{IsWrite};
ghost use Rattle.avr_io.specs.declared.stream.Stream.TheVariants.{File, Output, Messages};
ghost use Rattle.ghosts.specs.Preserves.{Preserves};

use avr_io::{ChipDesk, Desk, DeskFault};
use std::marker::Model;

/// For tests: a desk whose nth call fails and is counted. All other calls go to the inner desk. A release isn't counted
/// as a call, because it can't fail.
#[derive(Debug, Drop)]
pub struct FailingDesk<D> {
    inner: D,
    due: u64,
    planned: u64,
    message_failures: u64,
}

impl<D> Model for FailingDesk<D> {
    ghost use Rattle.avr_desk.specs.Failing.{Failing};

    ghost Value = { Failing D };

    ghost view = { λ d. record
        { inner = d.inner; due = d.due; planned = d.planned; message_failures = d.message_failures } };
}

impl<D> FailingDesk<D> {
    /// Creates a desk over `inner` whose call `n`, counted from 1, fails; 0 for none.
    pub fn new(inner: D, n: u64) -> FailingDesk<D>
        ensures { result ≡ record { inner = inner; due = n; planned = 0; message_failures = 0 } }
    {
        FailingDesk {
            inner,
            due: n,
            planned: 0,
            message_failures: 0,
        }
    }

    /// Borrows the inner desk, which gets all calls but the failing one.
    pub fn inner(&self) -> &D
        ensures { result.now ≡ self.now.inner }
    {
        &self.inner
    }

    /// Counts a call, and fails if it is the one that fails by plan.
    fn count_call(&mut self) -> Result<(), DeskFault>
        ensures due { is_err result ≡ (self.old.due == 1) }
        ensures fault { IfErr result (λ fault. fault ≡ DeskFault.Failed) }
        ensures same { self.new ≡ record self.old { due = self.old.due - 1; planned = self.new.planned } }
        ensures planned { self.new.planned ≡ count_after self.old self.old.planned }
        ensures rises { self.old.planned ≤ self.new.planned }
    {
        let due = self.due == 1;
        self.due = self.due.saturating_sub(1);
        if due {
            self.planned = self.planned.saturating_add(1);
            return Err(DeskFault::Failed);
        }
        Ok(())
    }
}

impl<D: Desk> Desk for FailingDesk<D> {
    ghost view = { failing D.view };

    ghost Start = { D.Start };

    ghost started_as = { of_inner D.started_as };

    fn open(&mut self, name: &str) -> Result<(), DeskFault>
        ensures kept { ChangesRecord (after_open name.now result) (D.view self.old.inner) (D.view self.new.inner) }
        ensures counts { CountsFailure File (failing D.view self.old) (failing D.view self.new) result }
        ensures when_due { FailsWhenDue File D.view self.old self.new (CountsFailure File) result }
        ensures stays { Preserves D.started_as self.old.inner self.new.inner }
    {
        self.count_call()?;
        self.inner.open(name)
    }

    fn create(&mut self, name: &str) -> Result<(), DeskFault>
        ensures kept { ChangesRecord (after_create name.now result) (D.view self.old.inner) (D.view self.new.inner) }
        ensures call { IsCall (failing D.view) (of_inner D.started_as) (CountsFailure File) self.old self.new result }
        ensures when_due { FailsWhenDue File D.view self.old self.new (CountsFailure File) result }
    {
        self.count_call()?;
        self.inner.create(name)
    }

    fn read(&mut self, buf: &mut [u8]) -> Result<usize, DeskFault>
        ensures bound { IfOk result (λ n. n ≤ length buf.new) }
        ensures kept { ChangesRecord (after_read buf.new result) (D.view self.old.inner) (D.view self.new.inner) }
        ensures has_file { HasOpen is_to_read (D.view self.old.inner) result }
        ensures call { IsCall (failing D.view) (of_inner D.started_as) (CountsFailure File) self.old self.new result }
        ensures when_due { FailsWhenDue File D.view self.old self.new (CountsFailure File) result }
    {
        self.count_call()?;
        self.inner.read(buf)
    }

    fn write(&mut self, bytes: &[u8]) -> Result<usize, DeskFault>
        ensures write { IsWrite (failing D.view) (of_inner D.started_as) File bytes.now self.old self.new result }
        ensures has_file { HasOpen is_to_write (D.view self.old.inner) result }
        ensures when_due { FailsWhenDue File D.view self.old self.new (WriteCounts File bytes.now) result }
    {
        self.count_call()?;
        self.inner.write(bytes)
    }

    fn out(&mut self, bytes: &[u8]) -> Result<usize, DeskFault>
        ensures write { IsWrite (failing D.view) (of_inner D.started_as) Output bytes.now self.old self.new result }
        ensures when_due { FailsWhenDue Output D.view self.old self.new (WriteCounts Output bytes.now) result }
    {
        self.count_call()?;
        self.inner.out(bytes)
    }

    fn err(&mut self, bytes: &[u8]) -> Result<usize, DeskFault>
        ensures write { IsWrite (failing D.view) (of_inner D.started_as) Messages bytes.now self.old self.new result }
        ensures when_due { FailsWhenDue Messages D.view self.old self.new (WriteCounts Messages bytes.now) result }
    {
        if let Err(fault) = self.count_call() {
            self.message_failures = self.message_failures.saturating_add(1);
            return Err(fault);
        }
        self.inner.err(bytes)
    }
}

impl<D: ChipDesk> ChipDesk for FailingDesk<D> {
    fn hold(&mut self, name: &str) -> Result<bool, DeskFault>
        ensures kept { ChangesRecord (after_hold name.now result) (D.view self.old.inner) (D.view self.new.inner) }
        ensures call { IsCall (failing D.view) (of_inner D.started_as) (CountsFailure File) self.old self.new result }
        ensures when_due { FailsWhenDue File D.view self.old self.new (CountsFailure File) result }
    {
        self.count_call()?;
        self.inner.hold(name)
    }

    fn release(&mut self)
        ensures released { D.view self.new.inner ≡ released (D.view self.old.inner) }
        ensures quiet { self.new ≡ record self.old { inner = self.new.inner } }
        ensures stays { Preserves D.started_as self.old.inner self.new.inner }
    {
        self.inner.release();
    }

    fn check_name(&mut self, name: &str) -> Result<(), DeskFault>
        ensures kept { ChangesRecord (λ kept. kept) (D.view self.old.inner) (D.view self.new.inner) }
        ensures call { IsCall (failing D.view) (of_inner D.started_as) (CountsFailure File) self.old self.new result }
        ensures when_due { FailsWhenDue File D.view self.old self.new (CountsFailure File) result }
    {
        self.count_call()?;
        self.inner.check_name(name)
    }

    fn replace(&mut self, name: &str, bytes: &[u8]) -> Result<(), DeskFault>
        ensures kept { Replaces name.now bytes.now result (D.view self.old.inner) (D.view self.new.inner) }
        ensures call { IsCall (failing D.view) (of_inner D.started_as) (CountsFailure File) self.old self.new result }
        ensures when_due { FailsWhenDue File D.view self.old self.new (CountsFailure File) result }
    {
        self.count_call()?;
        self.inner.replace(name, bytes)
    }
}
