//! Ports of settings, and links over sockets.
ghost use Rattle.std.specs.Prelude.{◌≡◌, IfOk, OnErr};
ghost use Rattle.avr_tool.specs.Ports.{chip_file_of, port_address};
ghost use Rattle.avr_tool.specs.Sockets.{IsNewLink};

use crate::network::{Callers, Network, Side};
use avr_plan::Port;
use std::io;
use stk_host::StreamLink;

/// Returns the name of the chip file of a port; of a port without one the empty name.
pub(crate) fn chip_file(port: &Port) -> &str
    ensures { result.now ≡ chip_file_of port.now }
{
    match port {
        Port::Emulated(file) => file.as_str(),
        Port::Served { chip, .. } => chip.as_str(),
        Port::Stdio | Port::Network(_) => "",
    }
}

/// Returns where a port is: `HOST:PORT` of a connection, the digits of a service, otherwise the empty text.
pub(crate) fn place_of(port: &Port) -> &str
    ensures { result.now ≡ port_address port.now }
{
    match port {
        Port::Network(address) => address.as_str(),
        Port::Served { port, .. } => port.as_str(),
        Port::Stdio | Port::Emulated(_) => "",
    }
}

/// Connects to `HOST:PORT`. The timeout of this link is one second.
pub(crate) fn connect<N: Network>(
    network: N,
    address: &str,
) -> io::Result<StreamLink<N::Stream, N::Stream>>
    ensures new { IfOk result (IsNewLink (λ side. N.reaches side address.now)) }
    ensures missed { OnErr result (N.misses address.now) }
{
    let (reader, writer) = network.connect_sides(address)?;
    Ok(StreamLink::new(reader, writer))
}

/// Closes both sides of a link.
pub(crate) fn close<S: Side>(link: StreamLink<S, S>)
    ensures reader { S.closed link.reader }
    ensures writer { S.closed link.writer }
{
    let (reader, writer) = link.into_inner();
    reader.close();
    writer.close();
}

/// Listens at a port, for clients on this machine alone; 0 means any free port.
///
/// # Errors
///
/// The system's error, such as for a port in use.
///
/// ```text
/// let listener = listen(&rt, 0)?;
/// let port = listener.local_addr()?.port();
/// assert!(rt; listen(&rt, port).is_err());
/// ```
pub fn listen<N: Network>(network: N, port: u16) -> io::Result<N::Listener>
    ensures listens { IfOk result (λ listener. N.listens listener port) }
    ensures shut { OnErr result (N.is_shut port) }
{
    network.listen_here(port)
}

/// Accepts one connection and closes the listener. Returns a link over the connection, which has no timeout.
///
/// # Errors
///
/// The system's error, if no connection can be accepted.
///
/// ```text
/// let listener = listen(&rt, 0)?;
/// let mut client = TcpStream::connect(&rt, listener.local_addr()?)?;
/// let mut link = accept(listener)?;
/// client.write_all(b"\x1B")?;
/// let mut buffer = [0; 281];
/// assert_eq!(rt; link.recv(&mut buffer)?, Heard::Bytes(1));
/// ```
pub fn accept<L: Callers>(listener: L) -> io::Result<StreamLink<L::Stream, L::Stream>>
    ensures new { IfOk result (IsNewLink (L.calls listener)) }
    ensures missed { OnErr result (L.lacks listener) }
{
    let (reader, writer) = listener.accept_sides()?;
    Ok(StreamLink::new(reader, writer))
}
