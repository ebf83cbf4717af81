//! Connections that ask the managers of a run, and what `serve` does over a bench.
#![tactic(auto)]

mod answered;
mod behind;
mod bench;
mod courses;
mod door_workers;
mod laws;
mod lent_managers;
mod line;
mod machine;
mod managers;
mod over;
mod pass;
mod room;
mod scenario_serve;
mod served_doors;
mod served_post;
mod service;
mod state_serve;
mod stop;
mod worker_seats;

pub use answered::Answered;
pub use bench::law_bench_serves;
pub use courses::{
    law_headline_of_a_course, law_reported_of_serve, law_served_lines_make_a_course,
};
pub use kme_serve::ServeRefusal;
pub use laws::law_requests_are_taken;
pub use managers::ServedManagers;
pub use net_world::{Bench, Stop};
pub use pass::Pass;
pub use scenario_serve::run_serve;
pub use served_post::ServedPost;
pub use service::Service;
pub use state_serve::serve;
pub use stop::ServeStop;
