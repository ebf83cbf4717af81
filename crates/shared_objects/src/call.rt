/// A call of one of several machines.
#[derive(Drop)]
pub struct Call<Q> {
    pub machine: usize,
    pub request: Q,
}
