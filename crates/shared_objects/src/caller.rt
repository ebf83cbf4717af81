ghost use Rattle.std.specs.Prelude.{◌≡◌, map};
ghost use Rattle.std.specs.List.{AllZip};
ghost use Rattle.turnstile.specs.Names.{opening};
ghost use Rattle.shared_objects.specs.Seats.{budget_at, Sits};
ghost use Rattle.shared_objects.specs.ScriptCalling.{seen_at, HasCalled};
ghost use Rattle.shared_objects.specs.Laws.{called_none, called_more, called_spends};

use crate::Post;
use crate::script_calls::Calls;
use std::sync::Wait;
use turnstile::{Machine, Turnstile};

/// A worker's access to the machines: the machines, each behind a turnstile, and the worker's seats, one at each turnstile.
#[derive(Drop)]
pub struct Caller<'a, M: Machine> {
    pub turnstiles: &'a [Turnstile<M>],
    pub posts: Vec<Post<M>>,
}

impl<M: Machine> Calls<M> for Caller<'_, M> {
    ghost openings = { λ c. map opening c.turnstiles.now };

    ghost placed = { λ c. AllZip Sits c.turnstiles.now c.posts.items };

    ghost budget = { λ c i. budget_at i c.posts.items };

    ghost seen = { λ c i. seen_at i c.posts.items };

    ghost went = { λ a said b. HasCalled said a.turnstiles.now a.posts.items b.turnstiles.now b.posts.items };

    fn call<R: Wait>(&mut self, rt: &R, machine: usize, request: M::Request) -> (u64, M::Reply) {
        let turnstiles = self.turnstiles;
        let post = &mut self.posts[machine];
        turnstiles[machine].call(rt, &mut post.seat, request)
    }

    ghost still = { λ c. called_none c.turnstiles.now c.posts.items };

    ghost onward = { λ a b c said more. called_more said more a.turnstiles.now a.posts.items b.turnstiles.now b.posts.items c.turnstiles.now c.posts.items };

    ghost spends = { λ a b said. called_spends said a.turnstiles.now a.posts.items b.turnstiles.now b.posts.items };
}
