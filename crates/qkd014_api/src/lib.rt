//! ETSI GS QKD 014 over HTTP: which event of a key manager a request asks for, and the response to the manager's reply.
#![tactic(auto)]

mod answer;
mod api;
mod body;
mod call;
mod container;
mod dec_keys;
mod enc_keys;
mod fault;
mod message;
mod query;
mod ready;
mod resource;
mod status;

pub use api::Api;
pub use fault::CallRefusal;
pub use message::front_response;
pub use ready::Ready;
