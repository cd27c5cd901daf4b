ghost use Rattle.std.specs.Prelude.{◌≡◌, ◌∷◌, ◌++◌, [], OnOk};
ghost use Rattle.std.specs.List.{flat_map};
ghost use Rattle.cypher_check.specs.Asks.{Closes, Unwinds, step, after};
ghost use Rattle.cypher_check.specs.Clauses.{uses, match_asks, unwind_asks, set_asks, remove_asks, update_asks, clause_asks, new_pattern_asks};

use crate::scope::Scope;
use crate::walk::patterns::{new_patterns, patterns};
use crate::walk::reads::{filter, plain, use_name};
use cypher_syntax::{Clause, MatchClause, Pattern, RemoveItem, SetItem, Unwind, Update};
use graph_value::{Name, NoMemory};
use std::alloc::Global;

/// MATCH.
pub(crate) fn matched(alloc: Global, scope: &mut Scope, m: &MatchClause) -> Result<(), NoMemory>
    ensures { OnOk result (scope.new ≡ after scope.old (match_asks m.now)) }
{
    patterns(scope, m.patterns.as_slice())?;
    scope.close(alloc)?;
    filter(scope, &m.filter)
}

/// UNWIND.
pub(crate) fn unwound(scope: &mut Scope, u: &Unwind) -> Result<(), NoMemory>
    ensures { OnOk result (scope.new ≡ after scope.old (unwind_asks u.now)) }
{
    plain(scope, &u.list)?;
    scope.unwind(&u.name)
}

/// CREATE.
pub(crate) fn created(alloc: Global, scope: &mut Scope, ps: &[Pattern]) -> Result<(), NoMemory>
    ensures { OnOk result (scope.new ≡ after scope.old (flat_map new_pattern_asks ps.now ++ Closes ∷ [])) }
{
    new_patterns(scope, ps)?;
    scope.close(alloc)
}

/// One item of SET.
pub(crate) fn set(scope: &mut Scope, item: &SetItem) -> Result<(), NoMemory>
    ensures { OnOk result (scope.new ≡ after scope.old (set_asks item.now)) }
{
    match item {
        SetItem::Prop(name, _, value) => {
            use_name(scope, name)?;
            plain(scope, value)
        }
        SetItem::Labels(name, _) => use_name(scope, name),
    }
}

pub(crate) fn all_set(scope: &mut Scope, items: &[SetItem]) -> Result<(), NoMemory>
    ensures { OnOk result (scope.new ≡ after scope.old (flat_map set_asks items.now)) }
{
    for item in items {
        set(scope, item)?;
    }
    Ok(())
}

/// One item of REMOVE.
pub(crate) fn removed(scope: &mut Scope, item: &RemoveItem) -> Result<(), NoMemory>
    ensures { OnOk result (scope.new ≡ after scope.old (remove_asks item.now)) }
{
    match item {
        RemoveItem::Prop(name, _) | RemoveItem::Labels(name, _) => use_name(scope, name),
    }
}

pub(crate) fn all_removed(scope: &mut Scope, items: &[RemoveItem]) -> Result<(), NoMemory>
    ensures { OnOk result (scope.new ≡ after scope.old (flat_map remove_asks items.now)) }
{
    for item in items {
        removed(scope, item)?;
    }
    Ok(())
}

/// DELETE.
pub(crate) fn all_used(scope: &mut Scope, names: &[Name]) -> Result<(), NoMemory>
    ensures { OnOk result (scope.new ≡ after scope.old (flat_map uses names.now)) }
{
    for name in names {
        use_name(scope, name)?;
    }
    Ok(())
}

/// A clause that writes.
pub(crate) fn updated(alloc: Global, scope: &mut Scope, update: &Update) -> Result<(), NoMemory>
    ensures { OnOk result (scope.new ≡ after scope.old (update_asks update.now)) }
{
    match update {
        Update::Create(ps) => created(alloc, scope, ps.as_slice()),
        Update::Set(items) => all_set(scope, items.as_slice()),
        Update::Remove(items) => all_removed(scope, items.as_slice()),
        Update::Delete { names, .. } => all_used(scope, names.as_slice()),
    }
}

/// A clause.
pub(crate) fn clause(alloc: Global, scope: &mut Scope, c: &Clause) -> Result<(), NoMemory>
    ensures { OnOk result (scope.new ≡ after scope.old (clause_asks c.now)) }
{
    match c {
        Clause::Match(m) => matched(alloc, scope, m),
        Clause::Unwind(u) => unwound(scope, u),
        Clause::Update(u) => updated(alloc, scope, u),
    }
}

pub(crate) fn clauses(alloc: Global, scope: &mut Scope, cs: &[Clause]) -> Result<(), NoMemory>
    ensures { OnOk result (scope.new ≡ after scope.old (flat_map clause_asks cs.now)) }
{
    for c in cs {
        clause(alloc, scope, c)?;
    }
    Ok(())
}
