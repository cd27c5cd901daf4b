//! Reading a graph, and how what is read is shown and printed.
#![tactic(auto)]

mod graph;
mod law;
mod printing;
mod reader;
mod shown;

pub use graph::Graph;
pub use law::the_next_vertex_is_the_least;
pub use printing::{object_json, push_object_json, push_row_json, to_json};
pub use reader::GraphRead;
pub use shown::{ShowRefused, Shown, show};
