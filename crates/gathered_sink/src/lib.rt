//! A sink that gathers pieces, and writes many of them together.
#![tactic(auto)]

mod gathered_sink;
#[cfg(test)]
mod tests;

pub use gathered_sink::GatheredSink;
