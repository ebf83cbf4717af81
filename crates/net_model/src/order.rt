// What a plan orders to be sent for the first time.
use crate::Payload;
use qkd_base::{Items, Lane, Memory, Replica};

/// An order: a payload that is to be sent on a lane for the first time.
#[derive(Debug, Drop)]
pub struct Order {
    pub lane: Lane,
    /// The offset that the plan foresees. The lane's claim decides it.
    pub offset: u64,
    /// For an acknowledgement, the offset at which its frame was received.
    pub ack_of: Option<u64>,
    pub payload: Payload,
}

/// A list of orders.
pub type Orders = Items<Order>;

impl Replica for Order {
    fn copy(&self) -> Result<Self, Memory> {
        let payload = self.payload.copy()?;
        Ok(Order {
            lane: self.lane,
            offset: self.offset,
            ack_of: self.ack_of,
            payload,
        })
    }
}
