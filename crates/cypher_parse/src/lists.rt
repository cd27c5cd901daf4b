ghost use Rattle.std.specs.Prelude.{◌≡◌, ◌∷◌, IfOk};
ghost use Rattle.cypher_parse.specs.Parsers as parsers;
ghost use Rattle.cypher_parse.specs.Reads.{Made, Reads};

use crate::{Kind, Lexemes, Stop};
use graph_value::NoMemory;
use sqlite_items::Items;
use std::alloc::Global;

/// The items with one in front.
pub(crate) fn in_front<T: Drop>(
    alloc: Global,
    first: T,
    rest: Items<T>,
) -> Result<Items<T>, NoMemory>
    ensures { IfOk result (λ items. items ≡ first ∷ rest) }
{
    let mut items = Items::new(alloc);
    items.push(first)?;
    items.append(rest)?;
    Ok(items)
}

/// One item and those read behind it.
pub(crate) fn put_first<T: Drop>(
    alloc: Global,
    first: T,
    rest: Result<Items<T>, Stop>,
) -> Result<Items<T>, Stop>
    ensures { Made (λ items. first ∷ items) rest result }
{
    match rest {
        Ok(rest) => Ok(in_front(alloc, first, rest)?),
        Err(stop) => Err(stop),
    }
}

/// A value and the one read behind it.
pub(crate) fn paired<A: Drop, B: Drop>(first: A, second: Result<B, Stop>) -> Result<(A, B), Stop>
    ensures { Made (λ second. (first, second)) second result }
{
    match second {
        Ok(second) => Ok((first, second)),
        Err(stop) => Err(stop),
    }
}

/// The value that was read, where a token of these kinds closes it.
pub(crate) fn closed<T: Drop>(tokens: &mut Lexemes, value: T, kinds: &[Kind]) -> Result<T, Stop>
    ensures { Reads (parsers.map_out (λ t. value) (parsers.one kinds.now) tokens.old)
        result tokens.new }
{
    match tokens.expect(kinds) {
        Ok(()) => Ok(value),
        Err(stop) => Err(stop),
    }
}
