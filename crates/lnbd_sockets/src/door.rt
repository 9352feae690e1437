//! How a listener's place is taken and given back: each address of a name, and the file of a Unix socket. Which peers come in
//! is no matter here.

use crate::socket::Socket;
use lnbd_model::Target;
use std::alloc::Global;
use std::fs::Files;
use std::io::ErrorKind;
use std::net::{Net, TcpListener, TcpStream, ToSocketAddrs};
use std::os::unix::fs::{FileTypeExt, MetadataExt};
use std::os::unix::net::{UnixListener, UnixStream};
use std::{fs, io};

/// The file of a Unix socket that was made here: by its device and number it is told from one that came in its place.
#[derive(Drop)]
pub struct SocketFile {
    path: String,
    device: u64,
    number: u64,
}

impl SocketFile {
    fn at<R: Files>(alloc: Global, files: &R, path: &str) -> io::Result<SocketFile> {
        let found = fs::symlink_metadata(files, path)?;
        Ok(SocketFile {
            path: String::from_str(alloc, path)?,
            device: found.dev(),
            number: found.ino(),
        })
    }

    /// Removes the file, unless another stands there now.
    pub fn remove<R: Files>(&self, files: &R) {
        if let Ok(found) = fs::symlink_metadata(files, self.path.as_str())
            && found.dev() == self.device
            && found.ino() == self.number
        {
            let _ = fs::remove_file(files, self.path.as_str());
        }
    }
}

/// A listener, one beside it where a name has addresses of both families, and the file that is to be removed.
#[derive(Drop)]
pub struct Door {
    pub listener: Socket,
    pub beside: Option<Socket>,
    pub file: Option<SocketFile>,
}

impl Door {
    /// A listener at this address. A host's name is listened on at its first address of each family that can be had.
    pub fn open<R: Net<Listener = TcpListener, Stream = TcpStream> + Files>(
        alloc: Global,
        net: &R,
        at: &Target,
    ) -> io::Result<Door> {
        match at {
            Target::Tcp { host, port } => Door::at_name(net, host.as_str(), *port),
            Target::Unix { path } => Door::at_path(alloc, net, path.as_str()),
        }
    }

    fn at_name<R: Net<Listener = TcpListener, Stream = TcpStream>>(
        net: &R,
        host: &str,
        port: u16,
    ) -> io::Result<Door> {
        let mut four = None;
        let mut six = None;
        let mut last = io::Error::from(ErrorKind::NotFound);
        for address in (host, port).to_socket_addrs(net)? {
            let place = if address.is_ipv4() {
                &mut four
            } else {
                &mut six
            };
            if place.is_none() {
                match listening(net, address) {
                    Ok(listener) => *place = Some(listener),
                    Err(error) => last = error,
                }
            }
        }
        match (four, six) {
            (Some(listener), beside) => Ok(Door {
                listener,
                beside,
                file: None,
            }),
            (None, Some(listener)) => Ok(Door {
                listener,
                beside: None,
                file: None,
            }),
            (None, None) => Err(last),
        }
    }

    fn at_path<R: Net<Listener = TcpListener, Stream = TcpStream> + Files>(
        alloc: Global,
        net: &R,
        path: &str,
    ) -> io::Result<Door> {
        let listener = match UnixListener::bind(net, path) {
            Err(error) if error.kind() == ErrorKind::AddrInUse && is_left_over(net, path) => {
                fs::remove_file(net, path)?;
                UnixListener::bind(net, path)?
            }
            bound => bound?,
        };
        listener.set_nonblocking(true)?;
        Ok(Door {
            listener: Socket::UnixListener(listener),
            beside: None,
            file: Some(SocketFile::at(alloc, net, path)?),
        })
    }
}

// A listener at one address, which doesn't wait.
fn listening<R: Net<Listener = TcpListener, Stream = TcpStream>>(
    net: &R,
    address: std::net::SocketAddr,
) -> io::Result<Socket> {
    let listener = TcpListener::bind(net, address)?;
    listener.set_nonblocking(true)?;
    Ok(Socket::TcpListener(listener))
}

// Whether the file is a socket's that nobody listens on: one was killed before it could remove it.
fn is_left_over<R: Net<Listener = TcpListener, Stream = TcpStream> + Files>(
    net: &R,
    path: &str,
) -> bool {
    let is_socket = match fs::symlink_metadata(net, path) {
        Ok(found) => found.file_type().is_socket(),
        Err(_) => false,
    };
    is_socket
        && match UnixStream::connect(net, path) {
            Ok(_) => false,
            Err(error) => error.kind() == ErrorKind::ConnectionRefused,
        }
}
