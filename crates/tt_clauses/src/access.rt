use cypher_syntax::{Expr, Item};
use pattern_match::Plan;
use std::alloc::Global;
use world_model::{GraphStore, Txn};

/// What each call on a store is given beside the store: for whom it is made.
#[derive(Drop)]
pub(crate) struct Access<'a, S: GraphStore> {
    pub(crate) alloc: Global,
    pub(crate) rt: &'a S::Rt,
    pub(crate) txn: &'a Txn,
}

/// What is asked of each tuple.
#[derive(Drop)]
pub(crate) struct Join<'a> {
    pub(crate) plan: &'a Plan,
    /// The condition of WHERE.
    pub(crate) filter: &'a Option<Expr>,
    pub(crate) items: &'a [Item],
}
