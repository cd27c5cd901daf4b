//! Shown values with their printed text.
ghost use Rattle.std.specs.Prelude.{◌≡◌, IfOk, [], refl};
ghost use Rattle.std.proofs.Common.{◌∙◌, sym};
ghost use Rattle.expr_eval.specs.Outcome.{Evaluates};
ghost use Rattle.tt_clauses.specs.Values.{PrintSame};
ghost use Rattle.tt_clauses.specs.Values as spec;

use cypher_syntax::Item;
use expr_eval::{EvalRefused, Row};
use graph_reader::{GraphRead, Shown, to_json};
use graph_value::{NoMemory, Text, Value};
use query_run::value_shown;
use row_ops::item_values;
use sqlite_items::Items;
use std::alloc::Global;
use std::marker::Model;
use tt_intervals::Same;

/// The shown values of the items in a row. Two are the same where they are printed alike.
#[derive(Drop)]
pub(crate) struct Values {
    shown: Items<Shown>,
    text: Text,
}

impl Model for Values {
    ghost use Rattle.std.specs.Prelude.{List, ◌≡◌};
    ghost use Rattle.graph_reader.specs.declared.shown.Shown.{Shown as Part};
    ghost use Rattle.graph_reader.specs.Rows.{row_text};
    ghost use Rattle.graph_reader.specs.contracts.shown.Shown as shown_value;
    ghost use Rattle.std.specs.Coded.{codes};

    ghost Value = { List Part };

    ghost coded = { Prim.hlevel (codes, shown_value.the_row.coded) };

    ghost view = { λ v. v.shown };

    ghost invariant = { λ v. v.text ≡ row_text v.shown };
}

impl Values {
    /// The values, with their text.
    fn new(alloc: Global, shown: Items<Shown>) -> Result<Values, NoMemory>
        ensures { IfOk result (λ values. values ≡ shown) }
    {
        let text = to_json(alloc, shown.as_slice())?;
        Ok(Values { shown, text })
    }

    /// The values without their text.
    pub(crate) fn into_shown(self) -> Items<Shown>
        ensures { result ≡ self }
    {
        let Values { shown, .. } = self;
        shown
    }
}

impl Same for Values {
    ghost means_same = { PrintSame };

    ghost reflexive = { λ a. refl };

    ghost symmetric = { λ a b h. sym h };

    ghost transitive = { λ a b c h k. h ∙ k };

    fn same(&self, other: &Values) -> bool {
        self.text == other.text
    }
}

/// Values as a graph has them, in order.
fn shown<G: GraphRead>(
    alloc: Global,
    values: &[Value],
    graph: &mut G,
) -> Result<Items<Shown>, EvalRefused>
    ensures { Evaluates G.stands G.follows (λ g. spec.shown_on g [] values.now)
        graph.old graph.new result }
{
    let mut shown = Items::new(alloc);
    for value in values {
        shown.push(value_shown(alloc, value, graph)?)?;
    }
    Ok(shown)
}

/// The values of the items in a row, as a graph has them.
pub(crate) fn items_shown<G: GraphRead>(
    alloc: Global,
    items: &[Item],
    row: &Row,
    graph: &mut G,
) -> Result<Values, EvalRefused>
    ensures { Evaluates G.stands G.follows (λ g. spec.items_shown g items.now row.now)
        graph.old graph.new result }
{
    let values = item_values(alloc, items, row, graph)?;
    let shown = shown(alloc, values.as_slice(), graph)?;
    Ok(Values::new(alloc, shown)?)
}
