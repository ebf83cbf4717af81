//! The field of 2^64 elements: polynomials over GF(2), taken modulo x^64 + x^4 + x^3 + x + 1.
//!
//! A `u64` stands for the polynomial whose coefficient of x^i is its bit i. The sum of two elements is their `^`. No
//! call allocates memory, and none fails. The time that a call takes may depend on its arguments.
#![tactic(auto)]

mod inversion;
pub mod laws;
mod multiples;
mod product;
mod remainder;

pub use inversion::inverse;
pub use multiples::Multiples;
pub use product::{mul, square};
