// What is known of a claimant. It exists only in proofs: no value is ever made.
use std::collections::LinkedList;

/// What one seat at the shared word knows of the claims.
pub struct SeatView {
    /// Whether it is the seat with which the claims began. Only this one counts splits and joins.
    pub first: bool,
    /// The number of pieces.
    pub pieces: u32,
    pub splits: u32,
    pub joins: u32,
    /// The numbers that it took, and those of the seats that were joined to it.
    pub taken: LinkedList<u32>,
    /// Whether it found that no piece is left.
    pub exhausted: bool,
    /// Whether it was joined to the first seat.
    pub spent: bool,
}
