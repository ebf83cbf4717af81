// What a connection says, as the log tells it.
use crate::Log;
use crate::answer::{Answer, AnswerReader};
use edge_io::MemSource;
use http_front::{HttpRequest, only_value, read_request};
use qkd_base::{Memory, Octets};
use std::alloc::Global;
use std::collections::VecDeque;
use std::sync::Wait;
use std::time::Clock;

// The most octets of a word that a line shows.
const WORD: usize = 400;

// Stands for who asked for what, where that isn't known.
const UNKNOWN: &str = "- - -";

/// The requests of a connection that have no answer yet, and the answer that is being written. Where memory is wanting, requests
/// aren't known.
#[derive(Drop)]
pub(crate) struct Talk {
    alloc: Global,
    node: u16,
    // The octets that came and are no whole request.
    kept: Octets,
    asked: VecDeque<String>,
    answers: AnswerReader,
}

// Adds a word to a line, at most so many octets of it. Each one that can't be seen is shown as `?`, and no word as `-`.
fn show(line: &mut String, word: &[u8]) -> Result<(), Memory> {
    if word.is_empty() {
        line.push('-')?;
    }
    for octet in word.iter().take(WORD) {
        let shown = if octet.is_ascii_graphic() {
            char::from(*octet)
        } else {
            '?'
        };
        line.push(shown)?;
    }
    if word.len() > WORD {
        line.push_str("..")?;
    }
    Ok(())
}

// Who asks for what: the application, the method and the target.
fn words_of(alloc: Global, request: &HttpRequest) -> Result<String, Memory> {
    let mut line = String::new(alloc);
    match only_value(request.fields.as_slice(), b"x-sae-id") {
        Some(caller) => show(&mut line, caller)?,
        None => show(&mut line, b"")?,
    }
    line.push(' ')?;
    show(&mut line, request.method.as_slice())?;
    line.push(' ')?;
    show(&mut line, request.target.as_slice())?;
    Ok(line)
}

impl Talk {
    /// A new connection to a node.
    pub fn new(alloc: Global, node: u16) -> Self {
        Talk {
            alloc,
            node,
            kept: Octets::new(alloc),
            asked: VecDeque::new(alloc),
            answers: AnswerReader::new(),
        }
    }

    /// Octets came from the peer.
    pub fn hear(&mut self, octets: &[u8]) {
        // What memory is wanting for isn't known.
        let _ = self.take_in(octets);
    }

    // Takes the requests that are whole out of the octets that came.
    fn take_in(&mut self, octets: &[u8]) -> Result<(), Memory> {
        self.kept.extend(octets)?;
        for _ in octets {
            let mut nothing = MemSource::new(Vec::new(self.alloc), Vec::new(self.alloc));
            match read_request(self.alloc, &mut nothing, &mut self.kept) {
                Ok(request) => self.asked.push_back(words_of(self.alloc, &request)?)?,
                Err(_) => return Ok(()),
            }
        }
        Ok(())
    }

    /// Octets go to the peer, or don't since it has stopped to take any. Each answer that ends among them is told.
    pub fn say<R: Clock + Wait + Eprint>(&mut self, rt: &R, log: &Log, octets: &[u8], cut: bool) {
        for octet in octets {
            if let Some(answer) = self.answers.next(*octet) {
                self.tell(rt, log, answer, cut);
            }
        }
    }

    // Tells of the oldest request.
    fn tell<R: Clock + Wait + Eprint>(&mut self, rt: &R, log: &Log, answer: Answer, cut: bool) {
        match self.asked.pop_front() {
            Some(asked) => log.answered(rt, self.node, asked.as_str(), answer, cut),
            None => log.answered(rt, self.node, UNKNOWN, answer, cut),
        }
    }
}
