//! Applications (SAEs) with their homes, and which of them may have keys for which others.
#![tactic(auto)]

mod application;
mod entitlements;
mod refusal;

pub use entitlements::Entitlements;
pub use refusal::{AddRefusal, EntitlementRefusal, UnknownSae};
