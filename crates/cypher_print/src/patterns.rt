ghost use Rattle.std.specs.Prelude.{◌≡◌, ◌++◌, OnOk, codes};
ghost use Rattle.std.specs.List.{flat_map};
ghost use Rattle.cypher_print.specs.Pieces.{written, schema};
ghost use Rattle.cypher_print.specs.Printed.{joined};
ghost use Rattle.cypher_print.specs.QueryText.{property, map_text, optional_name, node, kinds, before_edge, behind_edge, edge, pattern};

use crate::expr::expr;
use crate::labels::labels;
use crate::writer::Writer;
use cypher_syntax::{Arrow, EdgePattern, Expr, NodePattern, Pattern};
use graph_value::{Name, NoMemory};
use sqlite_items::Items;

pub(crate) fn property(out: &mut Writer, p: &(Name, Expr)) -> Result<(), NoMemory>
    ensures { OnOk result (out.new ≡ written out.old (property p.now)) }
{
    out.schema(&p.0)?;
    out.push(": ")?;
    expr(out, &p.1, 0)
}

pub(crate) fn properties(out: &mut Writer, xs: &[(Name, Expr)]) -> Result<(), NoMemory>
    ensures { OnOk result (out.new ≡ written out.old (joined (codes ", ") property xs.now)) }
{
    match xs {
        [] => Ok(()),
        [first, rest @ ..] => {
            property(out, first)?;
            for x in rest {
                out.push(", ")?;
                property(out, x)?;
            }
            Ok(())
        }
    }
}

pub(crate) fn map(out: &mut Writer, map: &Option<Items<(Name, Expr)>>) -> Result<(), NoMemory>
    ensures { OnOk result (out.new ≡ written out.old (map_text map.now)) }
{
    match map {
        Some(map) => {
            out.push("{")?;
            properties(out, map.as_slice())?;
            out.push("}")
        }
        None => Ok(()),
    }
}

pub(crate) fn optional_name(out: &mut Writer, name: &Option<Name>) -> Result<(), NoMemory>
    ensures { OnOk result (out.new ≡ written out.old (optional_name name.now)) }
{
    match name {
        Some(name) => out.name(name),
        None => Ok(()),
    }
}

pub(crate) fn node(out: &mut Writer, n: &NodePattern) -> Result<(), NoMemory>
    ensures { OnOk result (out.new ≡ written out.old (node n.now)) }
{
    out.push("(")?;
    optional_name(out, &n.name)?;
    labels(out, n.labels.as_slice())?;
    map(out, &n.map)?;
    out.push(")")
}

pub(crate) fn alternatives(out: &mut Writer, xs: &[Name]) -> Result<(), NoMemory>
    ensures { OnOk result (out.new ≡ written out.old (joined (codes "|") schema xs.now)) }
{
    match xs {
        [] => Ok(()),
        [first, rest @ ..] => {
            out.schema(first)?;
            for x in rest {
                out.push("|")?;
                out.schema(x)?;
            }
            Ok(())
        }
    }
}

pub(crate) fn kinds(out: &mut Writer, ks: &[Name]) -> Result<(), NoMemory>
    ensures { OnOk result (out.new ≡ written out.old (kinds ks.now)) }
{
    if ks.is_empty() {
        return Ok(());
    }
    out.push(":")?;
    alternatives(out, ks)
}

fn before_edge(arrow: Arrow) -> &'static str
    ensures { result.now ≡ before_edge arrow }
{
    match arrow {
        Arrow::Right | Arrow::Neither => "-[",
        Arrow::Left => "<-[",
    }
}

fn behind_edge(arrow: Arrow) -> &'static str
    ensures { result.now ≡ behind_edge arrow }
{
    match arrow {
        Arrow::Right => "]->",
        Arrow::Left | Arrow::Neither => "]-",
    }
}

pub(crate) fn edge(out: &mut Writer, e: &EdgePattern) -> Result<(), NoMemory>
    ensures { OnOk result (out.new ≡ written out.old (edge e.now)) }
{
    out.push(before_edge(e.arrow))?;
    optional_name(out, &e.name)?;
    kinds(out, e.kinds.as_slice())?;
    map(out, &e.map)?;
    out.push(behind_edge(e.arrow))
}

pub(crate) fn steps(out: &mut Writer, steps: &[(EdgePattern, NodePattern)]) -> Result<(), NoMemory>
    ensures { OnOk result (out.new
        ≡ written out.old (flat_map (λ s. edge s.0 ++ node s.1) steps.now)) }
{
    for (e, n) in steps {
        edge(out, e)?;
        node(out, n)?;
    }
    Ok(())
}

pub(crate) fn pattern(out: &mut Writer, p: &Pattern) -> Result<(), NoMemory>
    ensures { OnOk result (out.new ≡ written out.old (pattern p.now)) }
{
    node(out, &p.first)?;
    steps(out, p.steps.as_slice())
}

pub(crate) fn patterns(out: &mut Writer, xs: &[Pattern]) -> Result<(), NoMemory>
    ensures { OnOk result (out.new ≡ written out.old (joined (codes ", ") pattern xs.now)) }
{
    match xs {
        [] => Ok(()),
        [first, rest @ ..] => {
            pattern(out, first)?;
            for x in rest {
                out.push(", ")?;
                pattern(out, x)?;
            }
            Ok(())
        }
    }
}
