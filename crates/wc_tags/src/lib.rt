//! Wegman-Carter tags of texts: a hash under a key that is used again, masked by a number that is used once.
//!
//! A text is cut into blocks of 8 octets, and its length is added as a last block. The hash is the polynomial in the
//! key whose coefficients are the blocks, over the field of 2^64 elements. So only few keys give two different texts a
//! chosen difference of hashes: at most as many as the longer text has blocks. This is the scheme of Wegman and Carter
//! (New hash functions and their use in authentication and set equality, 1981). No call allocates memory, and none
//! fails.
#![tactic(auto)]

mod block;
mod tags;

pub use tags::{check, hash, tag};
