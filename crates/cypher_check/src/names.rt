//! The names of a query in reading order.
pub(crate) mod expr;
pub(crate) mod fault;
pub(crate) mod lists;
pub(crate) mod place;
