use qkd_base::Octets;

/// What a connection holds between two exchanges: the octets that were read ahead, and the answers that are not written yet.
#[derive(Drop)]
pub(crate) struct Buffers {
    pub kept: Octets,
    pub owed: Octets,
}
