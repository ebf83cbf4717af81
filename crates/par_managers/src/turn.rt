// The turn that a line asks of a manager.
use qkd_base::Octets;
use run_ops::Job;

/// The turn that a line of a block asks of a node's manager.
#[derive(Drop)]
pub struct Turn<'a> {
    /// The place of the line in its block.
    pub place: usize,
    /// The job of the line.
    pub job: &'a Job,
    /// The octets of the frame that comes, if the job passes one.
    pub octets: Option<Octets>,
}
