//! The printed form of a query's tree.
#![tactic(auto)]

mod clauses;
mod expr;
mod labels;
mod laws;
mod level;
mod operators;
mod patterns;
mod query;
mod words;
mod writer;

pub use laws::{
    labels_are_read_back, least_magnitude_is_read_back, long_signs_are_read_back,
    names_are_read_back, numbers_are_read_back, patterns_are_read_back, printing_keeps_expressions,
    printing_keeps_the_tree, queries_are_read_back, readings_are_read_back,
    schema_names_are_read_back, signs_are_read_back, spaces_are_passed, texts_are_read_back,
    updates_are_read_back, words_are_read_back,
};
pub use query::print_query;
