//! A parser of the query language.
#![tactic(auto)]

mod calls;
mod chains;
mod clauses;
mod error;
mod expression;
mod kind;
mod kinds;
mod labels;
mod lexeme;
mod lexemes;
mod lists;
mod literal;
mod meaning;
mod null_test;
mod operands;
mod operators;
mod paths;
mod patterns;
mod projections;
mod queries;
mod spelling;
mod stop;
mod texts;
mod whole;

pub use error::ParseRefused;
pub use kind::Kind;
pub use kinds::{
    AGGREGATES, COMPARISONS, EDGE_SIGNS, LITERALS, NAMES, PLAIN_NAMES, PREDICATE_WORDS,
    PRODUCT_SIGNS, READINGS, SCHEMA_NAMES, SINGLE_FUNCTIONS, STEP_SIGNS, SUM_SIGNS, UPDATES,
};
pub use lexeme::{Lexeme, Payload};
pub use lexemes::Lexemes;
pub use spelling::listed;
pub(crate) use stop::Stop;
pub use texts::lexemes_of;
pub use whole::{one_answer, one_tree, only_the_tree, parse};
