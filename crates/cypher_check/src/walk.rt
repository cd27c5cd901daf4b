//! Walks over the parts of a query, in reading order.
pub(crate) mod clauses;
pub(crate) mod patterns;
pub(crate) mod projections;
pub(crate) mod reads;
