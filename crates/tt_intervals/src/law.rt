ghost use Rattle.std.specs.Prelude.{List};
ghost use Rattle.tt_intervals.specs.declared.span.Span.{Span};
ghost use Rattle.tt_intervals.specs.Runs.{AreMaximalRuns, AreSameRuns};

use crate::Same;

/// A law: the maximal runs of pieces are the same ones, however they are found.
pub fn runs_are_unique<T: Same>()
    ensures { (pieces xs ys : List (Span × T)) → AreMaximalRuns T.means_same pieces xs →
        AreMaximalRuns T.means_same pieces ys → AreSameRuns T.means_same xs ys }
{}
