ghost use Rattle.std.specs.Prelude.{◌↔◌, ℕ, IsNone, IsSomeAnd};
ghost use Rattle.tt_intervals.specs.Spans.{AreApart, IsIn};

use crate::Span;

/// The instants that are in both spans, or `None` where there is none. Takes no memory.
pub fn meet(a: Span, b: Span) -> Option<Span>
    ensures common { (t : ℕ) → IsSomeAnd result (IsIn t) ↔ (IsIn t a × IsIn t b) }
    ensures none { IsNone result ↔ AreApart a b }
{
    Span::new(a.first.max(b.first), a.last.min(b.last))
}
