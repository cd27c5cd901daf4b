ghost use Rattle.query_reply.specs.Faults.{IsExamined};

use cypher_check::{CheckRefused, Checked, check};
use cypher_parse::{ParseRefused, parse};
use graph_value::Text;
use std::alloc::Global;

/// Why a statement isn't a query that can be run.
#[derive(Drop)]
pub enum Fault {
    /// It has no tree.
    Parse(ParseRefused),
    /// A rule speaks against its tree.
    Check(CheckRefused),
}

/// The query that a statement is, or its first fault.
///
/// `Parse` says that the statement has no tree, `Check` that a rule speaks against the tree. Either may say in its place that
/// memory was wanting.
pub fn examine(alloc: Global, statement: &Text) -> Result<Checked, Fault>
    ensures { IsExamined statement.now result }
{
    match parse(alloc, statement) {
        Ok(query) => match check(alloc, query) {
            Ok(checked) => Ok(checked),
            Err(why) => Err(Fault::Check(why)),
        },
        Err(why) => Err(Fault::Parse(why)),
    }
}
