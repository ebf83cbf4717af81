// A file of the system's.
ghost use Rattle.std.specs.Prelude.{None};

use crate::{DiskFailed, OctetFile};
use std::fs;
use std::io::ErrorKind;
use std::marker::Model;
use std::os::unix::fs::FileExt;

/// A file of the system's, through the standard library. Contracts know nothing of its octets. A call that the system
/// interrupted is made again.
#[derive(Drop)]
pub struct SystemFile {
    file: fs::File,
}

impl Model for SystemFile {
    ghost Value = { Unit {0} };

    ghost view = { λ _. tt };
}

impl SystemFile {
    /// This file, which is open for writing.
    pub fn new(file: fs::File) -> Self {
        SystemFile { file }
    }
}

// Has the system make a file's octets durable, and answers whether it did.
fn is_synced(file: &fs::File) -> bool {
    for _ in 0..u64::MAX {
        match file.sync_data() {
            Ok(()) => return true,
            Err(error) if error.kind() == ErrorKind::Interrupted => {}
            Err(_) => return false,
        }
    }
    false
}

impl OctetFile for SystemFile {
    ghost octets = { λ _. None };

    ghost durable = { λ _. None };

    fn write_at(&mut self, at: u64, bytes: &[u8]) -> Result<(), DiskFailed> {
        match self.file.write_all_at(bytes, at) {
            Ok(()) => Ok(()),
            Err(_) => Err(DiskFailed),
        }
    }

    fn sync(&mut self) -> Result<(), DiskFailed> {
        if is_synced(&self.file) {
            Ok(())
        } else {
            Err(DiskFailed)
        }
    }
}
