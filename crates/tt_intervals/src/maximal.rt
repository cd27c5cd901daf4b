ghost use Rattle.std.specs.Prelude.{◌≡◌, ◌↔◌, IsTrue, if◌then◌else◌};
ghost use Rattle.tt_intervals.specs.Spans.{Touches};
ghost use Rattle.tt_intervals.specs.Runs.{AreMaximalRuns, Ascends, Continues};

use crate::{Same, Span};

/// The maximal runs of pieces, each a span with the value that there is at its instants: neighbours that touch and mean
/// the same are joined. Compares each piece once, with the one before it, and takes no memory.
pub fn runs<T: Same + Drop>(mut pieces: Vec<(Span, T)>) -> Vec<(Span, T)>
    requires { Ascends pieces.items }
    ensures { AreMaximalRuns T.means_same pieces.items result.items }
{
    pieces.dedup_by(|piece, run| lengthen(run, piece));
    pieces
}

/// Lengthens a run by a piece that continues it, and tells whether the piece does.
fn lengthen<T: Same>(run: &mut (Span, T), piece: &(Span, T)) -> bool
    ensures continues { IsTrue result ↔ Continues T.means_same run.old piece.now }
    ensures first { run.new.0.first ≡ run.old.0.first }
    ensures last { run.new.0.last ≡ (if result then piece.now.0.last else run.old.0.last) }
    ensures value { run.new.1 ≡ run.old.1 }
{
    let continues = touches(run.0, piece.0) && run.1.same(&piece.1);
    if continues {
        run.0.last = piece.0.last;
    }
    continues
}

/// Whether the second span begins at the instant behind the first.
fn touches(a: Span, b: Span) -> bool
    ensures { IsTrue result ↔ Touches a b }
{
    a.last < b.first && b.first - a.last == 1
}
