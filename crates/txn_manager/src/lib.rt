//! The clock of the store and the list of its open transactions.
//!
//! What the crate promises:
//!
//! - A transaction begins at the clock, which then rises by one, so no two share a start.
//! - A caller has at most one transaction, and at most `MOST_OPEN` are open at once. Where no more can begin, `begin`
//!   says why, and changes nothing; `refusal` says it beforehand.
//! - A transaction that wrote ends at the clock, which then rises by one, so no two that wrote share a timestamp, nor is
//!   one the start of another transaction. One that only read ends at its start.
//! - The clock never passes `CLOCK_END`, and a transaction that is open can always be finished: `begin` leaves room for
//!   it.
//! - `mark` is the least start of the open transactions, or the clock where none is open: no open transaction, and none
//!   to come, reads the store as it was before.
//! - `rival` says who stands in the way of a write: another writer that still runs, or a commit that the writer cannot
//!   see.
#![tactic(auto)]

mod active;
mod conflicts;
mod refusals;
mod rivals;
mod running;
#[cfg(test)]
mod tests;

pub use active::Active;
pub use conflicts::rival;
pub use refusals::BeginRefused;
pub use rivals::Rival;
pub use running::Running;

/// The most transactions that are open at once.
pub const MOST_OPEN: usize = 1024;

/// The clock never passes this time.
pub const CLOCK_END: u64 = 1 << 62;
