//! What a step sends.

use rp_model::Dropped;

/// What a step sends.
#[derive(Drop)]
pub struct Sent {
    /// The texts of the packets, joined in order.
    pub bytes: Vec<u8>,
    /// How many packets they are.
    pub packets: usize,
    pub dropped: Dropped,
}
