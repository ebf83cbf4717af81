// Where requests end.
ghost use Rattle.std.specs.Prelude.{◌≤◌, length};

use http_front::decimal;
use qkd_base::Octets;
use std::alloc::Global;

// No head of a request has more octets.
const HEAD_LIMIT: usize = 8192;

// The field that says how long a body is.
const LENGTH: &[u8] = b"content-length:";

/// Finds where requests end among the octets of a connection. What isn't a request that the front takes may be told wrongly: it ends
/// its connection.
#[derive(Drop)]
pub(crate) struct RequestEnds {
    alloc: Global,
    // The octets of a head that isn't whole.
    head: Octets,
    // How many octets of a body are to come.
    body: usize,
    // Whether ends can't be found any more.
    lost: bool,
}

// The number in a line of a head that says how long the body is.
fn length_in(line: &[u8]) -> Option<usize> {
    let (name, value) = line.split_at_checked(LENGTH.len())?;
    if !name.eq_ignore_ascii_case(LENGTH) {
        return None;
    }
    usize::try_from(decimal(value.trim_ascii())?).ok()
}

// How many octets of the front are a whole head, and how long its body is. Blank lines before it belong to it.
fn whole_head(octets: &[u8]) -> Option<(usize, usize)> {
    let (mut size, mut body) = (0usize, 0);
    let mut begun = false;
    for line in octets.split_inclusive(|octet| *octet == b'\n') {
        size = size.saturating_add(line.len());
        if !line.starts_with(b"\r\n") && !line.starts_with(b"\n") {
            begun = true;
            body = length_in(line).unwrap_or(body);
        } else if begun {
            return Some((size, body));
        }
    }
    None
}

impl RequestEnds {
    /// Before a request.
    pub fn new(alloc: Global) -> Self {
        RequestEnds {
            alloc,
            head: Octets::new(alloc),
            body: 0,
            lost: false,
        }
    }

    /// Whether no request has begun that isn't whole.
    pub fn is_between(&self) -> bool {
        !self.lost && self.body == 0 && self.head.is_empty()
    }

    /// More octets come. The answer is how many of them come before the end of a request, 0 where none ends among them.
    pub fn take(&mut self, octets: &[u8]) -> usize
        ensures { result ≤ length octets.now }
    {
        let (mut at, mut end) = (0usize, 0);
        for _ in 0..octets.len() {
            let rest = match octets.get(at..) {
                Some(rest) if !rest.is_empty() && !self.lost => rest,
                _ => break,
            };
            at = at.saturating_add(self.step(rest));
            if self.is_between() {
                end = at;
            }
        }
        end.min(octets.len())
    }

    // Takes octets up to the end of a body or a head, or all of them. The answer is how many these are.
    fn step(&mut self, octets: &[u8]) -> usize {
        if self.body > 0 {
            let count = self.body.min(octets.len());
            self.body -= count;
            return count;
        }
        let before = self.head.len();
        let found = if before == 0 {
            whole_head(octets)
        } else {
            self.lost = self.head.extend(octets).is_err();
            whole_head(self.head.as_slice())
        };
        match found {
            Some((size, body)) => {
                self.head = Octets::new(self.alloc);
                self.body = body;
                size.saturating_sub(before)
            }
            None => {
                self.keep(octets, before);
                octets.len()
            }
        }
    }

    // Keeps the first octets of a head that isn't whole.
    fn keep(&mut self, octets: &[u8], before: usize) {
        if before == 0 {
            self.lost = self.head.extend(octets).is_err();
        }
        if self.head.len() > HEAD_LIMIT {
            self.lost = true;
        }
    }
}
