//! One socket of the system, which never waits, and what its errors say of it. Which number it has is no matter here, nor how a
//! listener's place is taken and given back.

ghost use Rattle.std.specs.Prelude.{◌≤◌, length, IfOk};

use lnbd_model::Target;
use std::io;
use std::io::{ErrorKind, Read, Write};
use std::net::{Net, TcpListener, TcpStream};
use std::os::fd::{AsRawFd, RawFd};
use std::os::unix::net::{UnixListener, UnixStream};

/// The system's numbers of errors by which it lacks descriptors or memory for one more link: errno(3).
const ENOMEM: i32 = 12;

const ENFILE: i32 = 23;

const EMFILE: i32 = 24;

const ENOBUFS: i32 = 105;

/// A link or a listener. A shut one is closed.
#[derive(Drop)]
pub enum Socket {
    Tcp(TcpStream),
    Unix(UnixStream),
    TcpListener(TcpListener),
    UnixListener(UnixListener),
    Shut,
}

/// What an error of the system says of a link.
#[derive(Clone, Copy, Debug, PartialEq, Eq)]
pub enum Trouble {
    /// The call may move bytes later.
    Later,
    /// The peer has ended the connection. What it sent before may still lie there.
    Gone,
    /// The peer, or the way to it, is gone from the net.
    Lost,
    /// The link is of no use.
    Failed,
}

impl Trouble {
    /// A peer that resets the connection has ended it: a server may do so once it was asked to stop. One that was let in
    /// and then vanishes, or whose net does, has ended its own link and no other; on a link to a peer that was asked for
    /// that is a fault.
    pub fn of(error: &io::Error, was_accepted: bool) -> Trouble {
        match error.kind() {
            ErrorKind::WouldBlock | ErrorKind::Interrupted => Trouble::Later,
            ErrorKind::BrokenPipe | ErrorKind::ConnectionReset => Trouble::Gone,
            ErrorKind::ConnectionAborted
            | ErrorKind::HostUnreachable
            | ErrorKind::NetworkDown
            | ErrorKind::NetworkUnreachable
            | ErrorKind::NotConnected
            | ErrorKind::TimedOut
                if was_accepted => { Trouble::Lost }
            _ => Trouble::Failed,
        }
    }
}

/// What an error of the system says of a listener.
#[derive(Clone, Copy, Debug, PartialEq, Eq)]
pub enum Refusal {
    /// No peer waits.
    NoPeer,
    /// The peer went away before it was let in, or the call was interrupted: another may wait.
    Again,
    /// The system has no descriptor or no memory for one more link now.
    Starved,
    /// The listener is of no use.
    Failed,
}

impl Refusal {
    /// accept(2), "Error handling": an error of the net that was pending for the new link comes out of the call.
    pub fn of(error: &io::Error) -> Refusal {
        match (error.kind(), error.raw_os_error()) {
            (ErrorKind::WouldBlock, _) => Refusal::NoPeer,
            (_, Some(ENOMEM | ENFILE | EMFILE | ENOBUFS)) => Refusal::Starved,
            (ErrorKind::Interrupted, _)
            | (ErrorKind::ConnectionAborted, _)
            | (ErrorKind::ConnectionReset, _)
            | (ErrorKind::HostUnreachable, _)
            | (ErrorKind::NetworkDown, _)
            | (ErrorKind::NetworkUnreachable, _)
            | (ErrorKind::TimedOut, _) => Refusal::Again,
            _ => Refusal::Failed,
        }
    }
}

impl Socket {
    /// A link to this address. A host's name is resolved, and each of its addresses tried. Connecting
    /// itself waits for the peer.
    pub fn connect<R: Net<Listener = TcpListener, Stream = TcpStream>>(
        net: &R,
        to: &Target,
    ) -> io::Result<Socket> {
        match to {
            Target::Tcp { host, port } => {
                let stream = TcpStream::connect(net, (host.as_str(), *port))?;
                Socket::tcp(stream)
            }
            Target::Unix { path } => Socket::unix(UnixStream::connect(net, path.as_str())?),
        }
    }

    // Small writes go out at once, and reads and writes don't wait.
    fn tcp(stream: TcpStream) -> io::Result<Socket> {
        stream.set_nodelay(true)?;
        stream.set_nonblocking(true)?;
        Ok(Socket::Tcp(stream))
    }

    // Reads and writes don't wait.
    fn unix(stream: UnixStream) -> io::Result<Socket> {
        stream.set_nonblocking(true)?;
        Ok(Socket::Unix(stream))
    }

    /// A link from a peer that waits. One that can't be set up went away meanwhile.
    pub fn accept(&self) -> Result<Socket, Refusal> {
        let set_up = match self {
            Socket::TcpListener(listener) => match listener.accept() {
                Ok((stream, _)) => Socket::tcp(stream),
                Err(error) => return Err(Refusal::of(&error)),
            },
            Socket::UnixListener(listener) => match listener.accept() {
                Ok((stream, _)) => Socket::unix(stream),
                Err(error) => return Err(Refusal::of(&error)),
            },
            Socket::Tcp(_) | Socket::Unix(_) | Socket::Shut => return Err(Refusal::Failed),
        };
        set_up.map_err(|_| Refusal::Again)
    }

    /// How many bytes came from the peer; none where it sends no more.
    pub fn read(&mut self, into: &mut [u8]) -> io::Result<usize>
        ensures { IfOk result (λ n. n ≤ length into.old) }
    {
        match self {
            Socket::Tcp(stream) => stream.read(into),
            Socket::Unix(stream) => stream.read(into),
            Socket::TcpListener(_) | Socket::UnixListener(_) | Socket::Shut => {
                Err(io::Error::from(ErrorKind::InvalidInput))
            }
        }
    }

    /// Hands over bytes for the peer: how many of them were taken.
    pub fn write(&mut self, from: &[u8]) -> io::Result<usize>
        ensures { IfOk result (λ n. n ≤ length from.now) }
    {
        match self {
            Socket::Tcp(stream) => stream.write(from),
            Socket::Unix(stream) => stream.write(from),
            Socket::TcpListener(_) | Socket::UnixListener(_) | Socket::Shut => {
                Err(io::Error::from(ErrorKind::InvalidInput))
            }
        }
    }

    /// The system's number, if the socket isn't shut.
    pub fn fd(&self) -> Option<RawFd> {
        match self {
            Socket::Tcp(stream) => Some(stream.as_raw_fd()),
            Socket::Unix(stream) => Some(stream.as_raw_fd()),
            Socket::TcpListener(listener) => Some(listener.as_raw_fd()),
            Socket::UnixListener(listener) => Some(listener.as_raw_fd()),
            Socket::Shut => None,
        }
    }
}
