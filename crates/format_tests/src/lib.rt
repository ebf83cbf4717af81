//! Tests of formats: the field, tags and pads, a link's bytes, frames and their payloads, journals and checkpoints.
#![tactic(auto)]

#[cfg(test)]
mod cases;
#[cfg(test)]
mod crashes;
#[cfg(test)]
mod field;
#[cfg(test)]
mod frames;
#[cfg(test)]
mod payloads;
#[cfg(test)]
mod ranges;
#[cfg(test)]
mod records;
#[cfg(test)]
mod segments;
#[cfg(test)]
mod snapshots;
#[cfg(test)]
mod tags;
#[cfg(test)]
mod veils;
