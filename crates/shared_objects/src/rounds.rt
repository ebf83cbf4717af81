ghost use Rattle.std.specs.Prelude.{◌≡◌};
ghost use Rattle.shared_objects.specs.Working.{IsReady, HasGone};

use crate::caller::Caller;
use crate::errands::Errands;
use crate::script_pass::Pass;
use block_run::Work;
use edge_io::Gate;
use std::alloc::Global;
use std::mem;
use std::sync::Wait;
use turnstile::{Machine, Turnstile};

/// Errands as the jobs of a block, at machines behind turnstiles.
#[derive(Drop)]
pub struct Rounds<'a, M: Machine, T, G> {
    pub alloc: Global,
    pub turnstiles: &'a [Turnstile<M>],
    pub errands: &'a T,
    pub gate: &'a G,
}

impl<M: Machine + Send, T: Errands<M>, G: Gate> Work for Rounds<'_, M, T, G>
where
    M::Request: Send,
    M::Reply: Send,
{
    type Pass = Pass<M, T::Keep>;

    type Answer = ();

    ghost fits = { λ it pass jobs. IsReady (T.may it.errands.now) (T.most it.errands.now) it.turnstiles.now pass.posts.items pass.keep jobs };

    ghost gives = { λ it job pass answer next. HasGone (T.does it.errands.now) it.turnstiles.now job pass.posts.items pass.keep next.posts.items next.keep };

    // Does one errand, with calls from the worker's seats.
    fn run<R: Wait>(&self, rt: &R, pass: &mut Pass<M, T::Keep>, job: u32) {
        let mut caller = Caller {
            turnstiles: self.turnstiles,
            posts: mem::replace(&mut pass.posts, Vec::new(self.alloc)),
        };
        self.errands
            .run(rt, self.gate, job, &mut caller, &mut pass.keep);
        let Caller {
            turnstiles: _,
            posts,
        } = caller;
        pass.posts = posts;
    }
}
