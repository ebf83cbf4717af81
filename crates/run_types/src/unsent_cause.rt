/// Why a wire did not take a frame: a fault of the wire, or memory that ran out.
#[derive(Clone, Copy, Debug, PartialEq, Eq)]
pub enum UnsentCause {
    WireFault,
    Memory,
}
