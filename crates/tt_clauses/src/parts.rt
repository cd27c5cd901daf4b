//! The parts of a query with TT BETWEEN.
ghost use Rattle.std.specs.Prelude.{◌≡◌, ◌≤◌, Some};
ghost use Rattle.cypher_check.specs.Answer.{query_of};
ghost use Rattle.tt_clauses.specs.Between.{HasSpan, asked_in, fault_of};

use cypher_check::Checked;
use cypher_syntax::{Clause, MatchClause, Projection, Time};

/// The two instants of TT BETWEEN, exactly where the first is greater. Takes no memory.
pub fn range_fault(checked: &Checked) -> Option<(u64, u64)>
    ensures { result ≡ fault_of (query_of checked.now).time }
{
    match *checked.time() {
        Time::Between(first, last) if last < first => Some((first, last)),
        _ => None,
    }
}

/// The only clause, what is returned, and the span.
#[derive(Drop)]
pub(crate) struct Parts<'a> {
    pub(crate) clause: &'a MatchClause,
    pub(crate) returns: &'a Projection,
    pub(crate) first: u64,
    pub(crate) last: u64,
}

/// The parts of a query with TT BETWEEN.
pub(crate) fn parts_in(checked: &Checked) -> Parts<'_>
    requires { HasSpan (query_of checked.now).time }
    ensures parts { asked_in (query_of checked.now) ≡ Some (record {
      clause = result.clause.now;
      returns = result.returns.now;
      first = result.first;
      last = result.last;
    }) }
    ensures ordered { result.first ≤ result.last }
{
    let query = checked.query();
    let Time::Between(first, last) = query.time else {
        unreachable!()
    };
    let Some(returns) = &query.returns else {
        unreachable!()
    };
    let Clause::Match(clause) = &query.clauses.as_slice()[0] else {
        unreachable!()
    };
    Parts {
        clause,
        returns,
        first,
        last,
    }
}
