//! A store's graph, as one of its transactions means it, read as any other graph is.
#![tactic(auto)]

mod view;

pub use view::ViewOf;
