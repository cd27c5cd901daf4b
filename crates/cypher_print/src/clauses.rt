ghost use Rattle.std.specs.Prelude.{◌≡◌, OnOk, codes};
ghost use Rattle.cypher_print.specs.Pieces.{written, name};
ghost use Rattle.cypher_print.specs.Printed.{joined, option};
ghost use Rattle.cypher_print.specs.QueryText.{optional_word, match_text, unwind_text, set_item, remove_item, detach_word, update_text, clause_text, clauses_text};

use crate::expr::expr;
use crate::labels::labels;
use crate::patterns::patterns;
use crate::writer::Writer;
use cypher_syntax::{Clause, Expr, MatchClause, RemoveItem, SetItem, Unwind, Update};
use graph_value::{Name, NoMemory};

/// An expression behind a word, where there is one.
pub(crate) fn filter(out: &mut Writer, word: &str, e: &Option<Expr>) -> Result<(), NoMemory>
    ensures { OnOk result (out.new ≡ written out.old (option word.now e.now)) }
{
    match e {
        Some(e) => {
            out.push(word)?;
            expr(out, e, 0)
        }
        None => Ok(()),
    }
}

pub(crate) fn optional_word(out: &mut Writer, optional: bool) -> Result<(), NoMemory>
    ensures { OnOk result (out.new ≡ written out.old (optional_word optional)) }
{
    if optional {
        return out.push("OPTIONAL ");
    }
    Ok(())
}

pub(crate) fn matched(out: &mut Writer, m: &MatchClause) -> Result<(), NoMemory>
    ensures { OnOk result (out.new ≡ written out.old (match_text m.now)) }
{
    optional_word(out, m.optional)?;
    out.push("MATCH ")?;
    patterns(out, m.patterns.as_slice())?;
    filter(out, " WHERE ", &m.filter)
}

pub(crate) fn unwound(out: &mut Writer, u: &Unwind) -> Result<(), NoMemory>
    ensures { OnOk result (out.new ≡ written out.old (unwind_text u.now)) }
{
    out.push("UNWIND ")?;
    expr(out, &u.list, 0)?;
    out.push(" AS ")?;
    out.name(&u.name)
}

pub(crate) fn set_item(out: &mut Writer, item: &SetItem) -> Result<(), NoMemory>
    ensures { OnOk result (out.new ≡ written out.old (set_item item.now)) }
{
    match item {
        SetItem::Prop(name, key, value) => {
            out.name(name)?;
            out.push(".")?;
            out.schema(key)?;
            out.push(" = ")?;
            expr(out, value, 0)
        }
        SetItem::Labels(name, names) => {
            out.name(name)?;
            labels(out, names.as_slice())
        }
    }
}

pub(crate) fn set_items(out: &mut Writer, xs: &[SetItem]) -> Result<(), NoMemory>
    ensures { OnOk result (out.new ≡ written out.old (joined (codes ", ") set_item xs.now)) }
{
    match xs {
        [] => Ok(()),
        [first, rest @ ..] => {
            set_item(out, first)?;
            for x in rest {
                out.push(", ")?;
                set_item(out, x)?;
            }
            Ok(())
        }
    }
}

pub(crate) fn remove_item(out: &mut Writer, item: &RemoveItem) -> Result<(), NoMemory>
    ensures { OnOk result (out.new ≡ written out.old (remove_item item.now)) }
{
    match item {
        RemoveItem::Prop(name, key) => {
            out.name(name)?;
            out.push(".")?;
            out.schema(key)
        }
        RemoveItem::Labels(name, names) => {
            out.name(name)?;
            labels(out, names.as_slice())
        }
    }
}

pub(crate) fn remove_items(out: &mut Writer, xs: &[RemoveItem]) -> Result<(), NoMemory>
    ensures { OnOk result (out.new ≡ written out.old (joined (codes ", ") remove_item xs.now)) }
{
    match xs {
        [] => Ok(()),
        [first, rest @ ..] => {
            remove_item(out, first)?;
            for x in rest {
                out.push(", ")?;
                remove_item(out, x)?;
            }
            Ok(())
        }
    }
}

pub(crate) fn names(out: &mut Writer, xs: &[Name]) -> Result<(), NoMemory>
    ensures { OnOk result (out.new ≡ written out.old (joined (codes ", ") name xs.now)) }
{
    match xs {
        [] => Ok(()),
        [first, rest @ ..] => {
            out.name(first)?;
            for x in rest {
                out.push(", ")?;
                out.name(x)?;
            }
            Ok(())
        }
    }
}

pub(crate) fn detach_word(out: &mut Writer, detach: bool) -> Result<(), NoMemory>
    ensures { OnOk result (out.new ≡ written out.old (detach_word detach)) }
{
    if detach {
        return out.push("DETACH ");
    }
    Ok(())
}

pub(crate) fn update(out: &mut Writer, update: &Update) -> Result<(), NoMemory>
    ensures { OnOk result (out.new ≡ written out.old (update_text update.now)) }
{
    match update {
        Update::Create(ps) => {
            out.push("CREATE ")?;
            patterns(out, ps.as_slice())
        }
        Update::Set(items) => {
            out.push("SET ")?;
            set_items(out, items.as_slice())
        }
        Update::Remove(items) => {
            out.push("REMOVE ")?;
            remove_items(out, items.as_slice())
        }
        Update::Delete { detach, names: ns } => {
            detach_word(out, *detach)?;
            out.push("DELETE ")?;
            names(out, ns.as_slice())
        }
    }
}

pub(crate) fn clause(out: &mut Writer, c: &Clause) -> Result<(), NoMemory>
    ensures { OnOk result (out.new ≡ written out.old (clause_text c.now)) }
{
    match c {
        Clause::Match(m) => matched(out, m),
        Clause::Unwind(u) => unwound(out, u),
        Clause::Update(u) => update(out, u),
    }
}

pub(crate) fn clauses(out: &mut Writer, cs: &[Clause]) -> Result<(), NoMemory>
    ensures { OnOk result (out.new ≡ written out.old (clauses_text cs.now)) }
{
    for c in cs {
        clause(out, c)?;
        out.push(" ")?;
    }
    Ok(())
}
