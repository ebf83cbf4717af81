//! Tests of texts: the generated load, what report lines say of rare ends, the place at which a line fits no report, and calls of
//! streams.
#![tactic(auto)]

#[cfg(test)]
mod asked;
#[cfg(test)]
mod frame_lines;
#[cfg(test)]
mod lines;
#[cfg(test)]
mod load;
#[cfg(test)]
mod report_lines;
#[cfg(test)]
mod reports;
#[cfg(test)]
mod stream_calls;
