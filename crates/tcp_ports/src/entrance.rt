use crate::stream::Stream;
use std::io;
use std::net::TcpListener;
use std::os::fd::{AsRawFd, RawFd};
use std::os::unix::net::UnixListener;

/// What the system accepts connections at.
#[derive(Drop)]
pub(crate) enum Entrance {
    Tcp(TcpListener),
    Unix(UnixListener),
}

impl Entrance {
    /// The next connection. It doesn't wait for one where `set_nonblocking` was called.
    pub fn accept(&self) -> io::Result<Stream> {
        match self {
            Entrance::Tcp(listener) => Ok(Stream::Tcp(listener.accept()?.0)),
            Entrance::Unix(listener) => Ok(Stream::Unix(listener.accept()?.0)),
        }
    }

    pub fn set_nonblocking(&self) -> io::Result<()> {
        match self {
            Entrance::Tcp(listener) => listener.set_nonblocking(true),
            Entrance::Unix(listener) => listener.set_nonblocking(true),
        }
    }

    pub fn as_raw_fd(&self) -> RawFd {
        match self {
            Entrance::Tcp(listener) => listener.as_raw_fd(),
            Entrance::Unix(listener) => listener.as_raw_fd(),
        }
    }
}
