// Sockets in a folder.
use crate::entrance::Entrance;
use std::alloc::Global;
use std::fs::Files;
use std::io::ErrorKind;
use std::net::Net;
use std::os::unix::net::{UnixListener, UnixStream};
use std::{fs, io};

/// The path of a node's socket in a folder.
pub(crate) fn path_of(alloc: Global, folder: &str, node: u16) -> io::Result<String> {
    Ok(format!(in alloc; "{folder}/node-{node:02}.sock")?)
}

// Whether nobody accepts connections at a socket: who made it is gone.
fn is_left<R: Net>(rt: &R, path: &str) -> bool {
    match UnixStream::connect(rt, path) {
        Ok(_) => false,
        Err(error) => error.kind() == ErrorKind::ConnectionRefused,
    }
}

/// Opens a socket, in the place of one that a program left behind which has ended.
pub(crate) fn open_socket<R: Files + Net>(rt: &R, path: &str) -> io::Result<Entrance> {
    match UnixListener::bind(rt, path) {
        Err(error) if error.kind() == ErrorKind::AddrInUse && is_left(rt, path) => {
            fs::remove_file(rt, path)?;
            Ok(Entrance::Unix(UnixListener::bind(rt, path)?))
        }
        Ok(listener) => Ok(Entrance::Unix(listener)),
        Err(error) => Err(error),
    }
}
