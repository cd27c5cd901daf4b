//! The plan of a clause that writes: CREATE, SET, REMOVE and DELETE as lists of single operations, found over a reader of
//! the graph before the clause.
#![tactic(auto)]

mod creating;
mod deleting;
mod entries;
mod laws;
mod near;
mod once;
mod placing;
mod planned;
mod planning;
mod setting;
mod target;
mod writing;

pub use creating::{Created, create};
pub use laws::{names_stand_for_creates, plans_name_earlier_creates};
pub use planned::{Entity, Names, Pick, Plan, PlannedOp};
pub use planning::plan;
