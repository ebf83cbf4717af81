//! Tests of what a manager is made of: what it takes, keeps and copies.
#![tactic(auto)]

#[cfg(test)]
mod entries;
#[cfg(test)]
mod model;
#[cfg(test)]
mod parts;
#[cfg(test)]
mod pools;
#[cfg(test)]
mod ports;
#[cfg(test)]
mod receipts;
#[cfg(test)]
mod steps;
