/// Why no more bytes came.
#[derive(Clone, Copy)]
pub enum Stop {
    /// The source is at its end.
    Ended,
    /// The input goes on behind its limit.
    Limit,
    /// The source failed.
    Fault,
}
