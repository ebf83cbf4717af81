// The results of a block's workers.
use par_lanes::Emitted;
use run_ops::Turned;

/// The results of a block's workers beside the state: the managers' replies, and the frames that the workers put.
#[derive(Debug, Drop)]
pub struct Worked {
    /// The managers' replies, in order of node. The replies of one manager are in the order in which it gave them.
    pub turns: Vec<Turned>,
    /// The frames, lane by lane. The frames of one lane are in the order in which they were put.
    pub frames: Vec<Emitted>,
    /// Whether memory sufficed for all replies and frames. If not, `turns` and `frames` mean nothing.
    pub is_whole: bool,
}
