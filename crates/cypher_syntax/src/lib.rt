//! The query language: its tokens, and the tree of a query.
#![tactic(auto)]

mod laws;
mod lexer;
#[cfg(test)]
mod tests;
mod token;
mod token_list;
mod tree;

pub use laws::text_is_its_tokens;
pub use lexer::tokens;
pub use token::{Token, TokenRefused, What};
pub use token_list::Tokens;
pub use tree::clause::{Clause, MatchClause, RemoveItem, SetItem, Unwind, Update};
pub use tree::expr::{Expr, PostOp, PredOp};
pub use tree::operators::{AggFun, CmpOp, Fun, ProdOp, SumOp};
pub use tree::pattern::{Arrow, EdgePattern, NodePattern, Pattern};
pub use tree::projection::{Item, Projection, Sort};
pub use tree::query::{Query, Stage, Time};
