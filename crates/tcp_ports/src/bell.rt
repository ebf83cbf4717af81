// A bell that ends a wait for connections.
use std::io;
use std::io::{Read, Write};
use std::net::Net;
use std::os::fd::{AsRawFd, RawFd};
use std::os::unix::net::UnixStream;

// The most rings that are taken at once.
const RINGS: usize = 64;

/// Ends the wait of a worker that waits for the connections of a port.
#[derive(Drop)]
pub(crate) struct Bell {
    ring: UnixStream,
    heard: UnixStream,
}

impl Bell {
    /// A bell that nobody has rung.
    pub fn new<R: Net>(rt: &R) -> io::Result<Self> {
        let (ring, heard) = UnixStream::pair(rt)?;
        ring.set_nonblocking(true)?;
        heard.set_nonblocking(true)?;
        Ok(Bell { ring, heard })
    }

    /// Rings.
    pub fn ring(&self) {
        let mut ring = &self.ring;
        // Where it can't be written, it was rung before.
        let _ = ring.write(&[0]);
    }

    /// Takes the rings that came.
    pub fn hear(&self) {
        let mut rings = [0u8; RINGS];
        let mut heard = &self.heard;
        // What is left rings once more.
        let _ = heard.read(&mut rings);
    }

    /// What can be read while it rings.
    pub fn as_raw_fd(&self) -> RawFd {
        self.heard.as_raw_fd()
    }
}
