ghost use Rattle.std.specs.Prelude.{◌≡◌, length};
ghost use Rattle.shared_objects.specs.Shares.{IsReady, HasGone};

use crate::call::Call;
use crate::pass::Pass;
use block_run::Work;
use std::sync::Wait;
use turnstile::{Machine, Turnstile};

/// The machines as the workers call them, each behind a turnstile.
#[derive(Drop)]
pub struct Stations<'a, M: Machine> {
    pub turnstiles: &'a [Turnstile<M>],
}

impl<M: Machine + Send> Work for Stations<'_, M>
where
    M::Request: Send + Drop,
    M::Reply: Send + Drop,
{
    type Pass = Pass<M>;

    type Answer = ();

    ghost fits = { λ it pass jobs. IsReady M.takes M.charter it.turnstiles.now pass.posts.items pass.shift.items (length jobs) };

    ghost gives = { λ it job pass answer next. HasGone it.turnstiles.now 1 pass.posts.items pass.shift.items next.posts.items next.shift.items };

    // Does the next entry of the worker's shift.
    fn run<R: Wait>(&self, rt: &R, pass: &mut Pass<M>, _job: u32) {
        match pass.shift.pop_front() {
            Some(Some(Call { machine, request })) => {
                let post = &mut pass.posts[machine];
                self.turnstiles[machine].call(rt, &mut post.seat, request);
            }
            Some(None) => {}
            None => {}
        }
    }
}
