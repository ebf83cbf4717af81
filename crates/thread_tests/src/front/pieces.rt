// Requests that come in pieces of every size.
use super::rows::{CUT, CUT_WANT, POST, POST_WANT};
use super::{line, note};
use edge_io::ReadSource;
use qkd_base::{Memory, Octets};
use std::alloc::Global;
use std::io;

// A reader that gives at most so many octets at once.
#[derive(Drop)]
struct Pieces<'a> {
    octets: &'a [u8],
    most: usize,
}

impl io::Read for Pieces<'_> {
    fn read(&mut self, into: &mut [u8]) -> io::Result<usize> {
        let count = into.len().min(self.most).min(self.octets.len());
        into[..count].copy_from_slice(&self.octets[..count]);
        self.octets = &self.octets[count..];
        Ok(count)
    }
}

// Two requests of a connection that gives at most so many octets at once, and its end.
fn compare_size(
    alloc: Global,
    octets: &[u8],
    most: usize,
    wrong: &mut String,
) -> Result<(), Memory> {
    let mut source = ReadSource::new(Pieces { octets, most });
    let mut kept = Octets::new(alloc);
    for want in [POST_WANT, CUT_WANT, "no request"] {
        let found = line(alloc, &mut source, &mut kept)?;
        note(want, found.as_str(), want, wrong)?;
    }
    Ok(())
}

/// Notes what is read otherwise.
pub(super) fn compare(alloc: Global, wrong: &mut String) -> Result<(), Memory> {
    let octets = format!(in alloc; "{POST}{CUT}")?;
    for most in 1..=octets.len() {
        compare_size(alloc, octets.as_bytes(), most, wrong)?;
    }
    Ok(())
}
