//! From a text to the tree of its query.

ghost use Rattle.std.specs.Prelude.{◌≡◌, ℕ, List};
ghost use Rattle.cypher_parse.specs.Answer.{IsAnswer, IsSame, refused};
ghost use Rattle.cypher_parse.specs.Queries.{QueryAt};
ghost use Rattle.cypher_parse.specs.Whole.{Answer, IsQuery, IsParse, IsOnly};
ghost use Rattle.cypher_syntax.specs.declared.tree.query.Query.{Query};

use crate::queries::query;
use crate::texts::lexemes_of;
use crate::{Lexemes, ParseRefused, Stop};
use cypher_syntax::Query;
use graph_value::Text;
use std::alloc::Global;

/// The tree of a text's query.
pub fn parse(alloc: Global, text: &Text) -> Result<Query, ParseRefused>
    ensures { IsParse text.now result }
{
    let end = text.as_str().len() as u64;
    let tokens = lexemes_of(alloc, text)?;
    parse_tokens(alloc, tokens, end)
}

/// The tree of a query's tokens, all of them. `end` is the place behind the last.
fn parse_tokens(alloc: Global, tokens: Lexemes, end: u64) -> Result<Query, ParseRefused>
    ensures { IsAnswer QueryAt end tokens result }
{
    let mut rest = tokens;
    let found = query(alloc, &mut rest);
    let place = rest.place(end);
    match found {
        Ok(tree) => {
            if rest.is_empty() {
                Ok(tree)
            } else {
                Err(ParseRefused::Syntax { place })
            }
        }
        Err(stop) => Err(refusal(stop, place)),
    }
}

/// An answer other than the tree never stands for a text that has one.
pub fn only_the_tree()
    ensures { (text : List ℕ) (tree : Query) → IsQuery 64 text tree → IsOnly text tree }
{}

/// No text has two trees, however many tokens may be open at once.
pub fn one_tree()
    ensures { (m n : ℕ) (t : List ℕ) (a b : Query) → IsQuery m t a → IsQuery n t b → a ≡ b }
{}

/// No text has two answers, unless memory was wanting.
pub fn one_answer()
    ensures { (text : List ℕ) (a b : Answer) → IsParse text a → IsParse text b → IsSame a b }
{}

fn refusal(stop: Stop, place: u64) -> ParseRefused
    ensures { result ≡ refused stop place }
{
    match stop {
        Stop::NoMemory => ParseRefused::NoMemory,
        Stop::Syntax => ParseRefused::Syntax { place },
        Stop::TooDeep => ParseRefused::TooDeep { place },
    }
}
