//! Tuples of vertices and edges, and sets of them.
ghost use Rattle.std.specs.Prelude.{◌≡◌, IfOk, refl};
ghost use Rattle.std.specs.Cmp.{eq_by_cmp_equiv, partial_equiv_from_equiv, partial_order_from_total};
ghost use Rattle.std.specs.Cmp.Lexicographic.{lists_total};
ghost use Rattle.std.specs.List.Sorted.{IsStrictlySortedBy};
ghost use Rattle.std.specs.Ordering.{as_partial_cmp, eq_by_cmp};
ghost use Rattle.graph_value.specs.contracts.id.OidOrd.TheImpl.Laws.{total-law};
ghost use Rattle.tt_clauses.specs.Seen as seen;
ghost use Rattle.tt_clauses.specs.Tuples.{tuple_cmp};

use graph_value::{NoMemory, Oid};
use sqlite_items::Items;
use std::alloc::Global;
use std::cmp::Ordering;
use std::collections::BTreeSet;
use std::marker::Model;

/// A vertex or an edge for each element of the patterns, in reading order.
#[derive(Drop)]
pub(crate) struct Tuple {
    elements: Items<Oid>,
}

impl Model for Tuple {
    ghost use Rattle.std.specs.Prelude.{List};
    ghost use Rattle.graph_value.specs.declared.id.Oid.{Oid as Element};

    ghost Value = { List Element };

    ghost view = { λ t. t.elements };
}

impl Tuple {
    /// A tuple of these elements, in memory of its own.
    pub(crate) fn copied(alloc: Global, elements: &[Oid]) -> Result<Tuple, NoMemory>
        ensures { IfOk result (λ tuple. tuple ≡ elements.now) }
    {
        let elements = Items::from_slice(alloc, elements)?;
        Ok(Tuple { elements })
    }

    pub(crate) fn as_slice(&self) -> &[Oid]
        ensures { result.now ≡ self.now }
    {
        self.elements.as_slice()
    }
}

impl PartialEq for Tuple {
    ghost eq = { eq_by_cmp tuple_cmp };

    ghost laws = { partial_equiv_from_equiv (eq_by_cmp_equiv (lists_total total-law)) };

    fn eq(&self, other: &Tuple) -> bool {
        self.cmp(other) == Ordering::Equal
    }
}

impl Eq for Tuple {
    ghost laws = { eq_by_cmp_equiv (lists_total total-law) };
}

impl PartialOrd for Tuple {
    ghost partial_cmp = { as_partial_cmp tuple_cmp };

    ghost laws = { partial_order_from_total (lists_total total-law) };

    fn partial_cmp(&self, other: &Tuple) -> Option<Ordering> {
        Some(self.cmp(other))
    }
}

/// Element by element.
impl Ord for Tuple {
    ghost cmp = { tuple_cmp };

    ghost total = { lists_total total-law };

    ghost matches_partial_cmp = { λ a b. refl };

    ghost matches_eq = { λ a b. refl };

    fn cmp(&self, other: &Tuple) -> Ordering {
        self.as_slice().cmp(other.as_slice())
    }
}

/// Tuples, each once, ascending.
pub(crate) type Tuples = BTreeSet<Tuple>;

/// Adds a copy of a tuple.
fn with_tuple(alloc: Global, set: Tuples, tuple: &[Oid]) -> Result<Tuples, NoMemory>
    ensures { IfOk result (λ all. all ≡ seen.with_tuple set tuple.now) }
{
    let mut set = set;
    set.insert(Tuple::copied(alloc, tuple)?)?;
    Ok(set)
}

/// The tuples of a list.
pub(crate) fn set_of(alloc: Global, tuples: &[Items<Oid>]) -> Result<Tuples, NoMemory>
    ensures { IfOk result (λ all. all ≡ seen.with_tuples seen.no_tuple tuples.now) }
{
    let mut set = BTreeSet::new(alloc);
    for tuple in tuples {
        set = with_tuple(alloc, set, tuple.as_slice())?;
    }
    Ok(set)
}

/// Adds copies of the tuples of a set.
pub(crate) fn with_set(alloc: Global, all: Tuples, set: &Tuples) -> Result<Tuples, NoMemory>
    ensures { IfOk result (λ more. more ≡ seen.with_tuples all set.now.keys) }
{
    let mut all = all;
    for tuple in set {
        all = with_tuple(alloc, all, tuple.as_slice())?;
    }
    Ok(all)
}

/// The tuples of a set, ascending.
pub(crate) fn ascending(alloc: Global, set: Tuples) -> Result<Items<Tuple>, NoMemory>
    ensures all { IfOk result (λ tuples. tuples ≡ set.keys) }
    ensures ascending { IfOk result (IsStrictlySortedBy tuple_cmp) }
{
    let tuples: Vec<Tuple> = set.into_iter().collect(alloc)?;
    Ok(Items::from_vec(tuples))
}
