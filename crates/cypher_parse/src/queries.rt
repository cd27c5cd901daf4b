//! Queries: clauses, parts that a WITH ends, and instants.

ghost use Rattle.std.specs.Prelude.{◌≡◌, ◌++◌, IfOk};
ghost use Rattle.cypher_parse.specs.Parsers.{map_out};
ghost use Rattle.cypher_parse.specs.ExpressionParsers.{limited};
ghost use Rattle.cypher_parse.specs.QueryParsers as query;
ghost use Rattle.cypher_parse.specs.Reads.{Reads};

use crate::clauses::{reading, updating};
use crate::kinds::{READINGS, UPDATES};
use crate::projections::{number, passed, returned};
use crate::{Kind, Lexemes, Stop};
use cypher_syntax::{Clause, Projection, Query, Stage, Time};
use graph_value::NoMemory;
use sqlite_items::Items;
use std::alloc::Global;

/// The clauses that read, and those that write.
type Clauses = (Items<Clause>, Items<Clause>);

/// The clauses behind the last WITH, and what RETURN gives.
type Last = (Items<Clause>, Option<Projection>);

#[tactic(auto, unfolding(crate::specs::QueryParsers::readings))]
fn readings(alloc: Global, tokens: &mut Lexemes) -> Result<Items<Clause>, Stop>
    ensures { Reads (query.readings limited tokens.old) result tokens.new }
{
    let mut clauses = Items::new(alloc);
    while tokens.at(&READINGS) {
        clauses.push(reading(alloc, tokens)?)?;
    }
    Ok(clauses)
}

#[tactic(auto, unfolding(crate::specs::QueryParsers::updatings))]
fn updatings(alloc: Global, tokens: &mut Lexemes) -> Result<Items<Clause>, Stop>
    ensures { Reads (query.updatings limited tokens.old) result tokens.new }
{
    let mut clauses = Items::new(alloc);
    while tokens.at(&UPDATES) {
        clauses.push(updating(alloc, tokens)?)?;
    }
    Ok(clauses)
}

#[tactic(auto, unfolding(crate::specs::QueryParsers::clauses))]
fn clauses(alloc: Global, tokens: &mut Lexemes) -> Result<Clauses, Stop>
    ensures { Reads (query.clauses limited tokens.old) result tokens.new }
{
    let reads = readings(alloc, tokens)?;
    let writes = updatings(alloc, tokens)?;
    Ok((reads, writes))
}

/// A WITH, and the clauses behind it.
#[tactic(auto, unfolding(crate::specs::QueryParsers::stage))]
fn stage(alloc: Global, tokens: &mut Lexemes) -> Result<(Projection, Clauses), Stop>
    ensures { Reads (query.stage limited tokens.old) result tokens.new }
{
    tokens.expect(&[Kind::With])?;
    let next = passed(alloc, tokens)?;
    let behind = clauses(alloc, tokens)?;
    Ok((next, behind))
}

/// All the clauses, in order.
fn in_order(clauses: Clauses) -> Result<Items<Clause>, NoMemory>
    ensures { IfOk result (λ all. all ≡ clauses.0 ++ clauses.1) }
{
    let (mut all, writes) = clauses;
    all.append(writes)?;
    Ok(all)
}

/// The parts that a WITH ends, and the clauses behind the last of them.
fn stages(alloc: Global, tokens: &mut Lexemes) -> Result<(Items<Stage>, Clauses), Stop>
    ensures { Reads (map_out query.parted (query.stages limited) tokens.old) result tokens.new }
{
    let mut behind = clauses(alloc, tokens)?;
    let mut stages = Items::new(alloc);
    while tokens.at(&[Kind::With]) {
        let (next, more) = stage(alloc, tokens)?;
        let clauses = in_order(behind)?;
        stages.push(Stage { clauses, next })?;
        behind = more;
    }
    Ok((stages, behind))
}

#[tactic(auto, unfolding(crate::specs::QueryParsers::return_clause))]
fn return_clause(alloc: Global, tokens: &mut Lexemes) -> Result<Projection, Stop>
    ensures { Reads (query.return_clause limited tokens.old) result tokens.new }
{
    tokens.expect(&[Kind::Return])?;
    returned(alloc, tokens)
}

/// RETURN, which may be missing behind clauses that write.
fn return_behind(
    alloc: Global,
    tokens: &mut Lexemes,
    writes: &Items<Clause>,
) -> Result<Option<Projection>, Stop>
    ensures { Reads (query.return_behind limited writes.now tokens.old) result tokens.new }
{
    if !writes.is_empty() && !tokens.at(&[Kind::Return]) {
        return Ok(None);
    }
    Ok(Some(return_clause(alloc, tokens)?))
}

#[tactic(auto, unfolding(crate::specs::QueryParsers::parts))]
fn parts(alloc: Global, tokens: &mut Lexemes) -> Result<(Items<Stage>, Last), Stop>
    ensures { Reads (query.parts limited tokens.old) result tokens.new }
{
    let (stages, behind) = stages(alloc, tokens)?;
    let returns = return_behind(alloc, tokens, &behind.1)?;
    Ok((stages, (in_order(behind)?, returns)))
}

/// TT and its instants.
#[tactic(auto, unfolding(crate::specs::QueryParsers::instants))]
fn instants(tokens: &mut Lexemes) -> Result<Time, Stop>
    ensures { Reads (query.instants tokens.old) result tokens.new }
{
    tokens.expect(&[Kind::Tt])?;
    if tokens.at(&[Kind::Snapshot]) {
        tokens.expect(&[Kind::Snapshot])?;
        return Ok(Time::Snapshot(number(tokens)?));
    }
    tokens.expect(&[Kind::Between])?;
    let from = number(tokens)?;
    tokens.expect(&[Kind::And])?;
    let to = number(tokens)?;
    Ok(Time::Between(from, to))
}

#[tactic(auto, unfolding(crate::specs::QueryParsers::times))]
fn times(tokens: &mut Lexemes) -> Result<Time, Stop>
    ensures { Reads (query.times tokens.old) result tokens.new }
{
    if !tokens.at(&[Kind::Tt]) {
        return Ok(Time::None);
    }
    instants(tokens)
}

/// A query, in whose expressions at most 64 tokens are open at once.
#[tactic(auto, unfolding(crate::specs::QueryParsers::whole))]
pub(crate) fn query(alloc: Global, tokens: &mut Lexemes) -> Result<Query, Stop>
    ensures { Reads (query.query_at 64 tokens.old) result tokens.new }
{
    let (stages, (clauses, returns)) = parts(alloc, tokens)?;
    let time = times(tokens)?;
    let _ = tokens.skip(Kind::Semicolon);
    Ok(Query {
        stages,
        clauses,
        returns,
        time,
    })
}
