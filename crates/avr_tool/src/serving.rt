ghost use Rattle.std.specs.Prelude.{◌≡◌, IfOk, OnErr};
ghost use Rattle.avr_plan.specs.declared.settings.Port.{Port};
ghost use Rattle.avr_plan.specs.Port.{port_number as number_of};
ghost use Rattle.avr_tool.specs.Ports.{chip_file_of, port_address};
ghost use Rattle.avr_tool.specs.ServedNet.{ServesNet, ServesOn};
ghost use Rattle.avr_tool.specs.Sockets.{IsNewLink, IsOverClient, IsOverPort};
ghost use Rattle.ghosts.specs.Preserves.{Preserves};

use crate::messages::unopened_message;
use crate::network::{Callers, Network};
use crate::ports::{accept, chip_file, close, listen, place_of};
use crate::served_run::{READS, check_part, serve_part};
use avr_io::{ChipDesk, refuse};
use avr_part::Part;
use avr_plan::{Settings, port_number};
use std::alloc::Global;
use std::io;
use stk_host::StreamLink;

/// Serves a chip of this part to the client that a listener accepted, or reports that it accepted none.
///
/// The chip is loaded after the client has connected, so it holds what other runs saved before.
fn serve_client<L: Callers, D: ChipDesk>(
    alloc: Global,
    part: &Part,
    port: &str,
    file: &str,
    called: io::Result<StreamLink<L::Stream, L::Stream>>,
    desk: &mut D,
) -> u8
    ensures serves { (listener : L) → IfOk called (IsNewLink (L.calls listener)) → OnErr called (L.lacks listener)
        → ServesOn (IsOverClient L.Callers L.Stream.Read L.Stream.has_timed_out L.Stream.Write L.Stream.closed
        listener) part.now port.now file.now (D.view desk.old) (D.view desk.new) result }
    ensures stays { Preserves D.started_as desk.old desk.new }
{
    let mut link = match called {
        Ok(link) => link,
        Err(_) => return refuse(desk, &unopened_message("", port)),
    };
    let status = serve_part(alloc, part, file, desk, &mut link, READS);
    close(link);
    status
}

/// Serves the emulated programmer of the settings' part to the first client of a listener, in at most 16,777,216
/// reads. The port of the settings must be [`Port::Served`](avr_plan::Port::Served); the network is left unused.
///
/// The part and the chip file are checked before a connection is accepted; if they are refused, no client is waited
/// for. The chip is loaded from the file when the client has connected, and saved to it when the client is gone. If
/// no connection can be accepted, this is reported for the port of the settings, and no file is written.
///
/// Returns the status: 0 if the client closed the connection and the chip was saved, otherwise 1.
///
/// ```text
/// let mut settings = Settings::for_link(alloc, "m328p")?;
/// let [port, chip] = [Text::new(alloc, "0")?, Text::new(alloc, "chip.bin")?];
/// settings.port = Port::Served { port, chip };
/// let mut desk = MemDesk::empty(alloc);
/// let listener = listen(&rt, 0)?;
/// let client = TcpStream::connect(&rt, listener.local_addr()?)?;
/// client.shutdown(Shutdown::Write)?;
/// assert_eq!(rt; serve_on(&rt, alloc, &settings, listener, &mut desk), 0);
/// assert!(rt; desk.file("chip.bin").is_some());
/// ```
pub fn serve_on<N: Network, D: ChipDesk>(
    network: N,
    alloc: Global,
    settings: &Settings,
    listener: N::Listener,
    desk: &mut D,
) -> u8
    requires port { settings.now.port
        ≡ Port.Served (port_address settings.now.port) (chip_file_of settings.now.port) }
    ensures serves { ServesNet N.unused (IsOverClient N.Listener.Callers N.Stream.Read N.Stream.has_timed_out
        N.Stream.Write N.Stream.closed listener) settings.now (port_address settings.now.port)
        (chip_file_of settings.now.port) (D.view desk.old) (D.view desk.new) result }
    ensures stays { Preserves D.started_as desk.old desk.new }
{
    network.leave();
    let part = match check_part(alloc, settings, desk) {
        Ok(part) => part,
        Err(status) => return status,
    };
    let (port, file) = (place_of(&settings.port), chip_file(&settings.port));
    serve_client::<N::Listener, D>(alloc, &part, port, file, accept(listener), desk)
}

/// Opens the port and serves a chip of this part to the first client. The port is closed when that client has
/// connected, so a second one is refused at once.
fn serve_at<N: Network, D: ChipDesk>(
    network: N,
    alloc: Global,
    part: &Part,
    port: &str,
    file: &str,
    desk: &mut D,
) -> u8
    ensures serves { ServesOn (IsOverPort N.Network N.Listener.Callers N.Stream.Read N.Stream.has_timed_out
        N.Stream.Write N.Stream.closed (number_of port.now)) part.now port.now file.now (D.view desk.old)
        (D.view desk.new) result }
    ensures stays { Preserves D.started_as desk.old desk.new }
{
    let Some(number) = port_number(port) else {
        network.leave();
        return refuse(desk, &unopened_message("", port));
    };
    let listener = match listen(network, number) {
        Ok(listener) => listener,
        Err(_) => return refuse(desk, &unopened_message("", port)),
    };
    let called = accept(listener);
    serve_client::<N::Listener, D>(alloc, part, port, file, called, desk)
}

/// Serves the emulated programmer of the settings' part at a port of 127.0.0.1, to the first client, as [`serve_on`]
/// does. The port of the settings must be [`Port::Served`](avr_plan::Port::Served). The part and the chip file are
/// checked before the port is opened.
///
/// The port is closed when the first client has connected, so a second one is refused. A port that can't be opened is
/// reported, and no file is written.
///
/// ```text
/// let mut settings = Settings::for_link(alloc, "nobody")?;
/// let [port, chip] = [Text::new(alloc, "5000")?, Text::new(alloc, "chip.bin")?];
/// settings.port = Port::Served { port, chip };
/// let mut desk = MemDesk::empty(alloc);
/// // the part is checked before anybody is waited for
/// assert_eq!(rt; serve_net(&rt, alloc, &settings, &mut desk), 1);
/// ```
pub fn serve_net<N: Network, D: ChipDesk>(
    network: N,
    alloc: Global,
    settings: &Settings,
    desk: &mut D,
) -> u8
    requires port { settings.now.port
        ≡ Port.Served (port_address settings.now.port) (chip_file_of settings.now.port) }
    ensures serves { ServesNet N.unused (IsOverPort N.Network N.Listener.Callers N.Stream.Read N.Stream.has_timed_out
        N.Stream.Write N.Stream.closed (number_of (port_address settings.now.port))) settings.now
        (port_address settings.now.port) (chip_file_of settings.now.port) (D.view desk.old) (D.view desk.new) result }
    ensures stays { Preserves D.started_as desk.old desk.new }
{
    let part = match check_part(alloc, settings, desk) {
        Ok(part) => part,
        Err(status) => {
            network.leave();
            return status;
        }
    };
    serve_at(
        network,
        alloc,
        &part,
        place_of(&settings.port),
        chip_file(&settings.port),
        desk,
    )
}
