/// Why a transaction did not begin.
#[derive(Clone, Copy, Debug, PartialEq, Eq)]
pub enum BeginRefused {
    /// The caller has a transaction already.
    AlreadyOpen,
    /// As many transactions are open as there can be.
    TooMany,
    /// The clock would come too near its end for the open transactions to finish.
    ClockEnd,
    /// Memory was wanting. No contract says when this answer comes.
    NoMemory,
}
