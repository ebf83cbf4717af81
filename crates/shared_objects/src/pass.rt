// The data of one worker.

use crate::call::Call;
use std::collections::VecDeque;
use turnstile::{Machine, Seat};

/// What a worker still has to do: for each of its jobs a call, or none.
pub type Shift<Q> = VecDeque<Option<Call<Q>>>;

/// A seat at a turnstile, with the turnstile's place among all of them.
#[derive(Drop)]
pub struct Post<M: Machine> {
    pub place: usize,
    pub seat: Seat<M>,
}

/// A worker's posts, one at each machine, and the jobs that it still has to do.
#[derive(Drop)]
pub struct Pass<M: Machine> {
    pub posts: Vec<Post<M>>,
    pub shift: Shift<M::Request>,
}
