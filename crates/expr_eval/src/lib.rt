//! Expressions: their value in a row and a graph, which is read through a trait.
#![tactic(auto)]

mod comparing;
mod entities;
mod evaluate;
mod functions;
mod lists;
mod numbers;
mod refused;
mod row;
mod size;
mod texts;
mod truth;

pub use evaluate::eval;
pub use refused::EvalRefused;
pub use row::{ROW_LIMIT, Row, Table};
pub use truth::keeps;
