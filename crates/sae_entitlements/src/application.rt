// An application as it is stored.

use qkd_base::{NodeNo, Text};

/// An application (SAE) with its home, and for each number whether it may have keys for the slave of this number.
#[derive(Drop)]
pub struct Application {
    pub id: Text,
    pub home: NodeNo,
    pub slaves: [bool; 256],
}
