// What a lane's seat is at.

/// A seat takes the turn with the ledger, posts, and raises its word.
#[derive(Drop)]
pub enum SeatStage<V> {
    Idle,
    Holding { ledger: V },
    Posted { count: u32 },
}
