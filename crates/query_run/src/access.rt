use std::alloc::Global;
use world_model::{GraphStore, Txn};

/// What each call on a store is given beside the store: for whom it is made.
#[derive(Drop)]
pub(crate) struct Access<'a, S: GraphStore> {
    pub(crate) alloc: Global,
    pub(crate) rt: &'a S::Rt,
    pub(crate) txn: &'a Txn,
}
