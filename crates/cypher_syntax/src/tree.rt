//! The tree of a query. Lists stand in the order of the text. A chain of operators is one node with the list of its
//! operands, and parentheses leave none, so that the tree is as deep as expressions nest.
pub(crate) mod clause;
pub(crate) mod expr;
pub(crate) mod operators;
pub(crate) mod pattern;
pub(crate) mod projection;
pub(crate) mod query;
