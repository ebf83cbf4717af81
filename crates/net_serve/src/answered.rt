// The answer of a manager to a request.
use net_model::{Event, Reply};

/// A manager's answer: the event that it was asked, which the caller gets back, and the reply.
#[derive(Drop)]
pub struct Answered {
    pub event: Event,
    pub reply: Reply,
}
