//! The whole store as a value, without a fact about histories. Its methods say of each world that it keeps what they do.

use crate::histories::Histories;
use crate::objects::Objects;
use crate::tally::Tally;
use crate::transactions::Transactions;

/// The clock with the open transactions, the rows of all objects, their histories, and how many deltas
/// there are.
#[derive(Drop)]
pub(crate) struct State {
    pub transactions: Transactions,
    pub objects: Objects,
    pub histories: Histories,
    pub tally: Tally,
}
