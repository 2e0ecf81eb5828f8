//! Deliveries of waiting bytes to one of two sides.

use sshneg::Side;

/// Moves to a side the lesser of `count` and the bytes that wait for it.
#[derive(Clone, Copy, Debug, PartialEq, Eq)]
pub struct Delivery {
    /// The receiver.
    pub to: Side,
    /// How many bytes at most, from 0 to 4294967295.
    pub count: u32,
}
