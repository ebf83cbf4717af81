// The octets of the longest head that an answer of this program may have.
const HEAD: usize = 256;

// What ends a head, and what the number of octets behind it follows.
const END: &[u8] = b"\r\n\r\n";

const LENGTH: &[u8] = b"Content-Length: ";

// Where the three digits of the status begin.
const STATUS: usize = 9;

// What stands once for each key in an answer that hands keys.
const NAME: &[u8] = b"\"key_ID\":";

/// What an answer says: its status, and how many keys it hands.
#[derive(Clone, Copy, Debug, PartialEq, Eq)]
pub(crate) struct Answer {
    pub status: u64,
    pub keys: u64,
}

/// Reads the answers of this program octet by octet, as they are written.
#[derive(Drop)]
pub(crate) struct AnswerReader {
    head: [u8; HEAD],
    size: usize,
    // How many octets of the body are to come. None within a head.
    left: Option<u64>,
    // How many octets of the mark of a key came last.
    matched: usize,
    keys: u64,
}

// The number that the digits in front spell.
fn number(octets: &[u8]) -> u64 {
    let mut number = 0u64;
    for octet in octets {
        if !octet.is_ascii_digit() {
            return number;
        }
        number = number
            .saturating_mul(10)
            .saturating_add(u64::from(octet - b'0'));
    }
    number
}

// The number behind the name of the field that says how long the body is.
fn length_in(head: &[u8]) -> u64 {
    for place in 0..head.len() {
        if let Some(rest) = head[place..].strip_prefix(LENGTH) {
            return number(rest);
        }
    }
    0
}

impl AnswerReader {
    ghost use Rattle.std.specs.Prelude.{◌≤◌};

    /// Before the first answer.
    pub fn new() -> Self {
        AnswerReader {
            head: [0; HEAD],
            size: 0,
            left: None,
            matched: 0,
            keys: 0,
        }
    }

    /// One more octet is written. Gives the answer that ends with it, if one does.
    pub fn next(&mut self, octet: u8) -> Option<Answer> {
        let left = match self.left {
            None => self.next_of_head(octet)?,
            Some(left) => {
                self.look_for_key(octet);
                left.saturating_sub(1)
            }
        };
        self.left = Some(left);
        if left > 0 {
            return None;
        }
        let status = match self.head.get(STATUS..STATUS + 3) {
            Some(digits) => number(digits),
            None => 0,
        };
        let answer = Answer {
            status,
            keys: self.keys,
        };
        *self = AnswerReader::new();
        Some(answer)
    }

    // An octet of a head. Gives the length of the body once the head is whole.
    fn next_of_head(&mut self, octet: u8) -> Option<u64> {
        if self.size < HEAD {
            self.head[self.size] = octet;
            self.size += 1;
        }
        let head = self.head.get(..self.size)?;
        if head.ends_with(END) {
            Some(length_in(head))
        } else {
            None
        }
    }

    // An octet of a body, which may end the mark of a key.
    fn look_for_key(&mut self, octet: u8) {
        self.matched = match NAME.get(self.matched) {
            Some(next) if *next == octet => self.matched.saturating_add(1),
            _ if octet == NAME[0] => 1,
            _ => 0,
        };
        if self.matched == NAME.len() {
            self.keys = self.keys.saturating_add(1);
            self.matched = 0;
        }
    }
}
