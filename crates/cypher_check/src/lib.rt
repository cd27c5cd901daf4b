//! Checks of a query that need no graph: names and shapes.
#![tactic(auto)]

mod checked;
mod checking;
mod laws;
mod names;
mod refused;
mod same;
mod scope;
mod shape;
mod walk;

pub use checked::Checked;
pub use checking::check;
pub use laws::{names_are_distinct, names_stand};
pub use refused::CheckRefused;
pub use same::same_exprs;
pub use walk::projections::{given_name, is_closed};
pub use walk::reads::has_aggregate;
