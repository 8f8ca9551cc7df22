//! How a session ends: before its whole plan is done, and its outcome.
ghost use Rattle.std.specs.Prelude.{◌≡◌};
ghost use Rattle.avr_session.specs.Concluding.{conclusion};
ghost use Rattle.avr_session.specs.Outcomes.{outcome_status, outcome_of};

use avr_io::DeskFault;
use stk_host::HostFault;

#[derive(Clone, Copy)]
pub(crate) enum End {
    /// This fault was reported, and the link can still be used.
    Faulty(HostFault),
    /// This fault was reported, and nothing more is sent: the link has ended, or programming mode was left.
    Over(HostFault),
    /// The link or the desk failed, or allocation failed: nothing more is sent or reported.
    Stopped,
}

/// Returns whether a session goes on after an operation with this outcome and this result of reporting it.
pub(crate) fn conclude<T>(
    outcome: &Result<T, HostFault>,
    reported: Result<(), DeskFault>,
) -> Result<(), End>
    ensures { result ≡ conclusion outcome.now reported }
{
    if reported.is_err() {
        return Err(End::Stopped);
    }
    match outcome {
        Ok(_) => Ok(()),
        Err(HostFault::LinkEnded) => Err(End::Over(HostFault::LinkEnded)),
        Err(HostFault::SendFailed | HostFault::RecvFailed | HostFault::Memory) => {
            Err(End::Stopped)
        }
        Err(fault) => Err(End::Faulty(*fault)),
    }
}

/// How a session ended.
#[derive(Clone, Copy, Debug, PartialEq, Eq)]
pub enum Outcome {
    /// The session ran to its end without a fault.
    Done,
    /// This fault occurred and its line was reported. The session was closed, if the link could still be used.
    Faulty(HostFault),
    /// The session stopped at once: the link or the desk failed, or allocation failed.
    Stopped,
}

impl Outcome {
    /// Returns the status of a run with this outcome: 0 for `Done`, otherwise 1.
    ///
    /// ```text
    /// assert_eq!(rt; Outcome::Faulty(HostFault::NoAnswer).status(), 1);
    /// ```
    pub fn status(self) -> u8
        ensures { result ≡ outcome_status self }
    {
        match self {
            Outcome::Done => 0,
            Outcome::Faulty(_) | Outcome::Stopped => 1,
        }
    }
}

/// Returns the outcome of a session that ended like this.
pub(crate) fn outcome_of(session: Result<(), End>) -> Outcome
    ensures { result ≡ outcome_of session }
{
    match session {
        Ok(()) => Outcome::Done,
        Err(End::Faulty(fault) | End::Over(fault)) => Outcome::Faulty(fault),
        Err(End::Stopped) => Outcome::Stopped,
    }
}
