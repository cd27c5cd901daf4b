//! What the store means: its events and answers, and the world of commits and open transactions that they speak of.
#![tactic(auto)]

mod answer;
mod event;
mod law;
mod piece;
mod store;
mod txn;

/// The end of the two counters of ids: where a counter stands here, no id is left.
pub const ID_END: u64 = 1 << 62;

pub use answer::{Answer, Marked, Refused, Stats, Wrote};
pub use event::{Asked, Event, Kind, When};
pub use piece::{Lifted, Piece};
use std::alloc::AllocError;
pub use store::{GraphStore, InstallRefused};
pub use txn::Txn;

/// Memory was wanting. No contract says when this answer comes.
pub type NoMemory = AllocError;

pub use law::{
    collectors_are_invisible, commits_rise, deltas_are_counted, deltas_lead_back, effects_are_seen,
    graphs_are_coherent, histories_keep_order, marks_never_fall, objects_have_form,
    open_deltas_lead_back, pieces_are_right, searches_find_the_next, steps_keep_order,
    the_past_stays, views_stay, writes_are_answered, writes_change_their_objects,
};
