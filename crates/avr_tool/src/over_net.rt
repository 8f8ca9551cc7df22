ghost use Rattle.std.specs.Prelude.{◌≡◌};
ghost use Rattle.avr_plan.specs.declared.settings.Port.{Port};
ghost use Rattle.avr_tool.specs.OverNet.{RunsOverNet};
ghost use Rattle.avr_tool.specs.Ports.{port_address};
ghost use Rattle.avr_tool.specs.Sockets.{IsOverAddress};
ghost use Rattle.ghosts.specs.Preserves.{Preserves};

use crate::messages::unopened_message;
use crate::network::Network;
use crate::ports::{close, connect, place_of};
use avr_io::{Desk, refuse};
use avr_plan::{Settings, plan};
use avr_session::drive;
use std::alloc::Global;

/// Makes the plan of a run, and runs it over the programmer behind the `HOST:PORT` of the settings' port, which must
/// be [`Port::Network`](avr_plan::Port::Network).
///
/// Returns the status: 0 if there was no fault, otherwise 1. Every fault has its line, and a refusal is reported
/// without a connection. A read times out after one second. A connection that was reset is a failure of the link.
///
/// ```text
/// let mut settings = Settings::for_link(alloc, "nobody")?;
/// settings.port = Port::Network(Text::new(alloc, "localhost:5000")?);
/// let mut desk = MemDesk::empty(alloc);
/// // the part is checked before a connection is opened
/// assert_eq!(rt; run_net(&rt, alloc, &settings, &mut desk), 1);
/// ```
pub fn run_net<N: Network, D: Desk>(
    network: N,
    alloc: Global,
    settings: &Settings,
    desk: &mut D,
) -> u8
    requires port { settings.now.port ≡ Port.Network (port_address settings.now.port) }
    ensures runs { RunsOverNet N.unused (IsOverAddress N.Network N.Stream.Read N.Stream.has_timed_out N.Stream.Write
        N.Stream.closed (port_address settings.now.port)) settings.now (port_address settings.now.port)
        (D.view desk.old) (D.view desk.new) result }
    ensures stays { Preserves D.started_as desk.old desk.new }
{
    let plan = match plan(alloc, settings, desk) {
        Ok(plan) => plan,
        Err(status) => {
            network.leave();
            return status;
        }
    };
    let address = place_of(&settings.port);
    let mut link = match connect(network, address) {
        Ok(link) => link,
        Err(_) => return refuse(desk, &unopened_message("net:", address)),
    };
    let status = drive(alloc, &plan, desk, &mut link);
    close(link);
    status
}
