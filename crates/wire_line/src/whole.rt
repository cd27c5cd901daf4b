ghost use Rattle.wire_line.specs.Failures.{FailsByRise};
ghost use Rattle.wire_line.specs.Calls.{WhereTaken, TakesText};
ghost use Rattle.wire_line.specs.Offers.{OffersText};

use crate::{Failed, Sink};

/// Offers a text to a sink whole, and its rest again, until all of it is taken or a write fails. It takes no memory.
///
/// The error says that a write failed; a front of the text was taken then, and nothing is offered behind that.
pub fn write_whole<O: Sink>(output: &mut O, text: &[u8]) -> Result<(), Failed>
    ensures bytes { WhereTaken O.Sink output.old output.new (TakesText result text.now) }
    ensures offers { OffersText O.writes result output.old text.now output.new }
    ensures cause { FailsByRise (O.faults output.old) (O.faults output.new) result }
{
    let mut rest = text;
    while !rest.is_empty() {
        let count = output.write(rest)?;
        rest = &rest[count..];
    }
    Ok(())
}
