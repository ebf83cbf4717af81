use edge_io::Failed;

/// One worker: its pass to the managers, its listener, and whether the listener failed.
#[derive(Drop)]
pub struct Worker<P, D> {
    pub pass: P,
    pub door: D,
    /// `Ok` if all connections were accepted and served, `Err` if the listener failed.
    pub outcome: Result<(), Failed>,
}
