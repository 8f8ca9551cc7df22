//! The network: connections to an address, and listeners at a port.
ghost use Rattle.std.specs.Prelude.{ℕ, ⊤, IfOk, OnErr};
ghost use Rattle.avr_io.specs.Record.{Bytes};

use ghosts::Inlet;
use std::io;
use std::io::{Read, Write};
use std::net::{Net, OpenListener, OpenStream, TcpListener, TcpStream};
use std::time::Duration;

/// The timeout of a read.
const SECONDS_OF_SILENCE: u64 = 1;

/// The timeout of a write: a programmer that takes no byte for so long has gone.
const SECONDS_OF_WRITING: u64 = 10;

/// Returns the two sides of a socket, which sends each piece at once.
fn sides_of<S: OpenStream + Drop>(stream: S) -> io::Result<(S, S)> {
    stream.set_nodelay(true)?;
    let writer = stream.try_clone()?;
    Ok((stream, writer))
}

/// One side of a connection, which is closed at the end. Only `close` yields `closed`, so nothing more went over a
/// closed side.
///
/// Every type that may be dropped implements it.
pub trait Side {
    /// The side was closed as it is.
    ghost closed: { Self → Type 0 };

    /// Closes this side.
    fn close(self)
        ensures closes { closed self };
}

impl<S: Drop> Side for S {
    ghost closed = { λ side. ⊤ };

    fn close(self) {}
}

/// Accepts one connection at a listener. The call consumes the listener, so its owner accepts at most one client. Only
/// this call produces what the ghost members state.
///
/// Every listener of the system implements it.
pub trait Callers {
    /// One side of a connection.
    type Stream: Inlet + Write + Drop + Side;

    /// The stream is a connection accepted at this listener.
    ghost calls: { Self → Self.Stream → Type 0 };

    /// This listener could not accept a connection.
    ghost lacks: { Self → Type 0 };

    /// Accepts one connection and closes the listener. Returns the reader and the writer. A read has no timeout.
    ///
    /// # Errors
    ///
    /// The system's error, if no connection can be accepted.
    fn accept_sides(self) -> io::Result<(Self::Stream, Self::Stream)>
        ensures reader { IfOk result (λ sides. calls self sides.0) }
        ensures writer { IfOk result (λ sides. calls self sides.1) }
        ensures missed { OnErr result (lacks self) };
}

impl<L: OpenListener + Drop> Callers for L
where
    L::Stream: Read + Write + OpenStream,
{
    type Stream = L::Stream;

    ghost calls = { λ listener stream. ⊤ };

    ghost lacks = { λ listener. ⊤ };

    fn accept_sides(self) -> io::Result<(L::Stream, L::Stream)> {
        let (stream, _) = self.accept()?;
        sides_of(stream)
    }
}

/// Connects to an address or listens at a port, once, or is left unused. Each call consumes the network, so its owner
/// makes at most one connection or one listener.
///
/// Only these calls produce what the ghost members state. A reference to a runtime with the system's network is a
/// `Network`. That it connects and listens as asked is tested, not proved.
pub trait Network {
    /// One side of a connection.
    type Stream: Inlet + Write + Drop + Side;

    /// A listener at a port.
    type Listener: Callers<Stream = Self::Stream> + Drop;

    /// The stream is a connection to `HOST:PORT`.
    ghost reaches: { Self.Stream → Bytes → Type 0 };

    /// No connection to `HOST:PORT` could be made.
    ghost misses: { Bytes → Type 0 };

    /// It listens at this port, for clients on this machine alone.
    ghost listens: { Self.Listener → ℕ → Type 0 };

    /// Listening at this port failed.
    ghost is_shut: { ℕ → Type 0 };

    /// It was left unused.
    ghost unused: { Type 0 };

    /// Connects to `HOST:PORT`, and returns the reader and the writer. A read times out after one second.
    ///
    /// # Errors
    ///
    /// The system's error, if the connection can't be made.
    fn connect_sides(self, address: &str) -> io::Result<(Self::Stream, Self::Stream)>
        ensures reader { IfOk result (λ sides. reaches sides.0 address.now) }
        ensures writer { IfOk result (λ sides. reaches sides.1 address.now) }
        ensures missed { OnErr result (misses address.now) };

    /// Listens at a port, for clients on this machine alone; 0 means any free port.
    ///
    /// # Errors
    ///
    /// The system's error, such as for a port in use.
    fn listen_here(self, port: u16) -> io::Result<Self::Listener>
        ensures listens { IfOk result (λ listener. listens listener port) }
        ensures shut { OnErr result (is_shut port) };

    /// Leaves the network unused.
    fn leave(self)
        ensures unused { unused };
}

impl<'a, R: Net> Network for &'a R {
    type Stream = R::Stream;

    type Listener = R::Listener;

    ghost reaches = { λ stream address. ⊤ };

    ghost misses = { λ address. ⊤ };

    ghost listens = { λ listener port. ⊤ };

    ghost is_shut = { λ port. ⊤ };

    ghost unused = { ⊤ };

    fn connect_sides(self, address: &str) -> io::Result<(R::Stream, R::Stream)> {
        let stream = TcpStream::connect(self, address)?;
        stream.set_read_timeout(Some(Duration::from_secs(SECONDS_OF_SILENCE)))?;
        stream.set_write_timeout(Some(Duration::from_secs(SECONDS_OF_WRITING)))?;
        sides_of(stream)
    }

    fn listen_here(self, port: u16) -> io::Result<R::Listener> {
        TcpListener::bind(self, ("127.0.0.1", port))
    }

    fn leave(self) {}
}
