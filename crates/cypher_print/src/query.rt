ghost use Rattle.std.specs.Prelude.{◌≡◌, OnOk, IfOk, codes};
ghost use Rattle.std.specs.List.{flat_map};
ghost use Rattle.cypher_print.specs.Pieces.{written};
ghost use Rattle.cypher_print.specs.Printed.{joined};
ghost use Rattle.cypher_print.specs.QueryText.{as_name, item, star_text, down_word, sort_key, sorts_text, count_text, projection, stage_text, returns_text, time_text, query_pieces, query_text};

use crate::clauses::{clauses, filter};
use crate::expr::{distinct, expr};
use crate::writer::Writer;
use cypher_syntax::{Item, Projection, Query, Sort, Stage, Time};
use graph_value::{Name, NoMemory, Text};
use std::alloc::Global;

pub(crate) fn as_name(out: &mut Writer, name: &Option<Name>) -> Result<(), NoMemory>
    ensures { OnOk result (out.new ≡ written out.old (as_name name.now)) }
{
    match name {
        Some(name) => {
            out.push(" AS ")?;
            out.name(name)
        }
        None => Ok(()),
    }
}

pub(crate) fn item(out: &mut Writer, i: &Item) -> Result<(), NoMemory>
    ensures { OnOk result (out.new ≡ written out.old (item i.now)) }
{
    expr(out, &i.expr, 0)?;
    as_name(out, &i.name)
}

pub(crate) fn items(out: &mut Writer, xs: &[Item]) -> Result<(), NoMemory>
    ensures { OnOk result (out.new ≡ written out.old (joined (codes ", ") item xs.now)) }
{
    match xs {
        [] => Ok(()),
        [first, rest @ ..] => {
            item(out, first)?;
            for x in rest {
                out.push(", ")?;
                item(out, x)?;
            }
            Ok(())
        }
    }
}

pub(crate) fn star_text(out: &mut Writer, there: bool) -> Result<(), NoMemory>
    ensures { OnOk result (out.new ≡ written out.old (star_text there)) }
{
    if there {
        return out.push("*");
    }
    Ok(())
}

pub(crate) fn down_word(out: &mut Writer, there: bool) -> Result<(), NoMemory>
    ensures { OnOk result (out.new ≡ written out.old (down_word there)) }
{
    if there {
        return out.push(" DESC");
    }
    Ok(())
}

pub(crate) fn sort_key(out: &mut Writer, s: &Sort) -> Result<(), NoMemory>
    ensures { OnOk result (out.new ≡ written out.old (sort_key s.now)) }
{
    expr(out, &s.expr, 0)?;
    down_word(out, s.down)
}

pub(crate) fn sort_keys(out: &mut Writer, xs: &[Sort]) -> Result<(), NoMemory>
    ensures { OnOk result (out.new ≡ written out.old (joined (codes ", ") sort_key xs.now)) }
{
    match xs {
        [] => Ok(()),
        [first, rest @ ..] => {
            sort_key(out, first)?;
            for x in rest {
                out.push(", ")?;
                sort_key(out, x)?;
            }
            Ok(())
        }
    }
}

pub(crate) fn sorts(out: &mut Writer, ss: &[Sort]) -> Result<(), NoMemory>
    ensures { OnOk result (out.new ≡ written out.old (sorts_text ss.now)) }
{
    if ss.is_empty() {
        return Ok(());
    }
    out.push(" ORDER BY ")?;
    sort_keys(out, ss)
}

pub(crate) fn count(out: &mut Writer, word: &str, n: Option<u64>) -> Result<(), NoMemory>
    ensures { OnOk result (out.new ≡ written out.old (count_text word.now n)) }
{
    match n {
        Some(n) => {
            out.push(word)?;
            out.number(n)
        }
        None => Ok(()),
    }
}

pub(crate) fn projection(out: &mut Writer, p: &Projection) -> Result<(), NoMemory>
    ensures { OnOk result (out.new ≡ written out.old (projection p.now)) }
{
    distinct(out, p.distinct)?;
    star_text(out, p.star)?;
    items(out, p.items.as_slice())?;
    sorts(out, p.sort.as_slice())?;
    count(out, " SKIP ", p.skip)?;
    count(out, " LIMIT ", p.limit)?;
    filter(out, " WHERE ", &p.filter)
}

pub(crate) fn stage(out: &mut Writer, s: &Stage) -> Result<(), NoMemory>
    ensures { OnOk result (out.new ≡ written out.old (stage_text s.now)) }
{
    clauses(out, s.clauses.as_slice())?;
    out.push("WITH ")?;
    projection(out, &s.next)?;
    out.push(" ")
}

pub(crate) fn stages(out: &mut Writer, ss: &[Stage]) -> Result<(), NoMemory>
    ensures { OnOk result (out.new ≡ written out.old (flat_map stage_text ss.now)) }
{
    for s in ss {
        stage(out, s)?;
    }
    Ok(())
}

pub(crate) fn returns(out: &mut Writer, p: &Option<Projection>) -> Result<(), NoMemory>
    ensures { OnOk result (out.new ≡ written out.old (returns_text p.now)) }
{
    match p {
        Some(p) => {
            out.push("RETURN ")?;
            projection(out, p)?;
            out.push(" ")
        }
        None => Ok(()),
    }
}

pub(crate) fn time(out: &mut Writer, time: Time) -> Result<(), NoMemory>
    ensures { OnOk result (out.new ≡ written out.old (time_text time)) }
{
    match time {
        Time::None => Ok(()),
        Time::Snapshot(t) => {
            out.push("TT ")?;
            out.push("SNAPSHOT ")?;
            out.number(t)?;
            out.push(" ")
        }
        Time::Between(t, u) => {
            out.push("TT ")?;
            out.push("BETWEEN ")?;
            out.number(t)?;
            out.push(" AND ")?;
            out.number(u)?;
            out.push(" ")
        }
    }
}

pub(crate) fn query(out: &mut Writer, q: &Query) -> Result<(), NoMemory>
    ensures { OnOk result (out.new ≡ written out.old (query_pieces q.now)) }
{
    stages(out, q.stages.as_slice())?;
    clauses(out, q.clauses.as_slice())?;
    returns(out, &q.returns)?;
    time(out, q.time)?;
    out.push(";")
}

/// A query as a text that is read as it: parentheses stand only where an operand binds less than its place asks, and names in
/// backquotes only where they have to.
pub fn print_query(alloc: Global, q: &Query) -> Result<Text, NoMemory>
    ensures { IfOk result (λ text. text ≡ query_text q.now) }
{
    let mut out = Writer::new(alloc);
    query(&mut out, q)?;
    Ok(out.into_text())
}
