ghost use Rattle.std.specs.Prelude.{◌≡◌};
ghost use Rattle.world_model.specs.Replies.{asked_by};

use crate::Piece;
use graph_value::Oid;
use undo_delta::Ask;

/// Which graph a read speaks of.
#[derive(Clone, Copy, Debug, PartialEq, Eq)]
pub enum When {
    /// The one that the caller's transaction sees, its own writes included.
    Own,
    /// The one that the commits up to this instant left, own writes not among them. An instant past the start of the
    /// caller's transaction is refused.
    At(u64),
}

/// The kinds of objects.
#[derive(Clone, Copy, Debug, PartialEq, Eq)]
pub enum Kind {
    Vertex,
    Edge,
}

/// What one caller asks of the store in one step.
#[derive(Drop)]
pub enum Event {
    Begin,
    /// Which object of this kind is the first that is there, or the first above a number?
    Next {
        kind: Kind,
        after: Option<u64>,
        when: When,
    },
    Read {
        x: Oid,
        when: When,
    },
    Write(Ask),
    Commit,
    Abort,
    /// The mark, the clock and the two counters of ids. It needs no transaction.
    Mark,
    /// Copies what has expired of an object's chain, and changes nothing.
    Lift(Oid),
    /// Moves what was lifted from the object's chain into its history.
    Install(Piece),
    /// How many deltas and blocks there are.
    Stats,
}

/// What an event asks to be told, as far as its answer doesn't say so itself.
#[derive(Clone, Copy, Debug, PartialEq, Eq)]
pub enum Asked {
    Nothing,
    /// The object under this id.
    Version(Oid),
    /// The number of an object of this kind.
    Number(Kind),
}

impl Event {
    /// What the event asks to be told.
    pub fn asked(&self) -> Asked
        ensures { result ≡ asked_by self.now }
    {
        match self {
            Event::Next { kind, .. } => Asked::Number(*kind),
            Event::Read { x, .. } => Asked::Version(*x),
            Event::Begin
            | Event::Write(_)
            | Event::Commit
            | Event::Abort
            | Event::Mark
            | Event::Lift(_)
            | Event::Install(_)
            | Event::Stats => Asked::Nothing,
        }
    }
}
