// The words with which the program was called.
use crate::call::{Call, read_call};
use qkd_base::{Items, Memory, Text, Texts};
use std::alloc::Global;
use std::env::{Env, FillError};
use std::str;

/// What the words ask of the program itself (`Help`, `Version`), or a call of `network`.
#[derive(Debug, Drop)]
pub enum Request {
    Help,
    Version,
    Network(Call),
}

// Stands for a word that is too long or no UTF-8 text. It fits no form.
const FAULTY: &str = "\u{fffd}";

// The octets of the longest word of a form: a text of 600 octets in hexadecimal digits.
const WORD_LIMIT: usize = 1200;

// A word's octets as a text.
fn text(alloc: Global, octets: &[u8]) -> Result<Text, Memory> {
    let string = match str::from_utf8(octets) {
        Ok(word) => String::from_str(alloc, word)?,
        Err(_) => String::from_str(alloc, FAULTY)?,
    };
    Ok(Text::from_string(string))
}

// The word at this index, if there is one.
fn word_at(rt: &HostRuntime, place: usize) -> Result<Option<Text>, Memory> {
    let mut buffer = [0u8; WORD_LIMIT];
    match rt.arg(place, &mut buffer) {
        Err(FillError::NotPresent) => Ok(None),
        Err(FillError::TooLong) => Ok(Some(text(rt.alloc(), FAULTY.as_bytes())?)),
        Ok(size) => Ok(Some(text(rt.alloc(), &buffer[..size])?)),
    }
}

// Whether `word` is the only word.
fn is_sole(words: &Texts, word: &str) -> bool {
    match words.get(0) {
        Some(first) => words.len() == 1 && first.as_str() == word,
        None => false,
    }
}

/// Reads the words after the program's name.
pub fn read_request(rt: &HostRuntime) -> Result<Request, Memory> {
    let mut words: Texts = Items::new(rt.alloc());
    for place in 1..usize::MAX {
        match word_at(rt, place)? {
            Some(word) => words.push(word)?,
            None => break,
        }
    }
    if is_sole(&words, "--help") || is_sole(&words, "help") || is_sole(&words, "-h") {
        Ok(Request::Help)
    } else if is_sole(&words, "--version") || is_sole(&words, "-V") {
        Ok(Request::Version)
    } else {
        Ok(Request::Network(read_call(rt.alloc(), words)?))
    }
}
