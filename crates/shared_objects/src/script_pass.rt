use crate::Post;
use turnstile::Machine;

/// A worker's seats, one at each machine, and what the worker keeps.
#[derive(Drop)]
pub struct Pass<M: Machine, K> {
    pub posts: Vec<Post<M>>,
    pub keep: K,
}
