// The request to a manager, and its answer.
use lane_shares::Share;
use net_model::Reply;
use qkd_base::Octets;
use run_ops::Job;

/// The turn that a line of a block asks of a node's manager.
#[derive(Drop)]
pub struct PlanAsk<'a> {
    /// The place of the line in its block.
    pub place: usize,
    /// The job of the line.
    pub job: &'a Job,
    /// The octets of the frame that comes, if the job passes one.
    pub octets: Option<Octets>,
    /// The worker's share of each lane, in order of the lanes' places.
    pub granted: Vec<Share>,
}

/// A manager's answer to a turn.
#[derive(Drop)]
pub struct PlanAnswer {
    pub reply: Reply,
    /// The worker's shares, which have grown by the bytes that the reply's orders take.
    pub granted: Vec<Share>,
}
