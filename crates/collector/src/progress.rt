ghost use Rattle.std.specs.Prelude.{◌≡◌, Some};
ghost use Rattle.collector.specs.Sweeping.{count, nothing_yet};

use graph_value::Oid;

/// A sum isn't told beyond this number.
pub const MOST: u64 = u64::MAX;

/// What one step of a sweep did.
#[derive(Clone, Copy, Debug, PartialEq, Eq)]
pub enum Progress {
    /// The sweep has begun, at this mark.
    Marked(u64),
    /// Nothing of the object has expired.
    Nothing(Oid),
    /// So many deltas of the object were lifted.
    Lifted(Oid, u64),
    /// So many deltas of the object were moved into its history.
    Moved(Oid, u64),
    /// Somebody else had moved deltas of the object, whose cut is this one. What was lifted is let go.
    Stale(Oid, u64),
    /// All objects are done; the sweep began at this mark.
    End(u64),
}

/// What a whole sweep did.
#[derive(Clone, Copy, Debug, PartialEq, Eq)]
pub struct Swept {
    /// The mark at its begin.
    pub mark: u64,
    /// The deltas that were moved, or [`MOST`] where they are more.
    pub moved: u64,
    /// How often somebody else had been faster, or [`MOST`] where it was more often.
    pub stale: u64,
}

impl Swept {
    /// What a sweep has done that hasn't begun.
    pub fn nothing() -> Swept
        ensures { result ≡ nothing_yet }
    {
        Swept {
            mark: 0,
            moved: 0,
            stale: 0,
        }
    }

    /// Adds up one more step.
    pub fn add(&mut self, progress: Progress)
        ensures { self.new ≡ count self.old (Some progress) }
    {
        match progress {
            Progress::Marked(mark) => self.mark = mark,
            Progress::Moved(_, moved) => self.moved = self.moved.saturating_add(moved),
            Progress::Stale(_, _) => self.stale = self.stale.saturating_add(1),
            Progress::Nothing(_) | Progress::Lifted(_, _) | Progress::End(_) => {}
        }
    }
}
