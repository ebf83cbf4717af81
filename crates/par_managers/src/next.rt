// A turn that is still to be taken.
use qkd_base::Octets;

/// A manager's turn that is still to be taken.
#[derive(Drop)]
pub struct Next {
    /// The place of the turn's job in its block, from 0.
    pub place: usize,
    /// The octets of the frame that comes, if the job passes one.
    pub octets: Option<Octets>,
}
