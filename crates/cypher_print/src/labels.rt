ghost use Rattle.std.specs.Prelude.{◌≡◌, OnOk};
ghost use Rattle.cypher_print.specs.Pieces.{written};
ghost use Rattle.cypher_print.specs.Printed.{labels};

use crate::writer::Writer;
use graph_value::{Name, NoMemory};

/// Labels, each behind a colon.
pub(crate) fn labels(out: &mut Writer, names: &[Name]) -> Result<(), NoMemory>
    ensures { OnOk result (out.new ≡ written out.old (labels names.now)) }
{
    for name in names {
        out.push(":")?;
        out.schema(name)?;
    }
    Ok(())
}
