ghost use Rattle.std.specs.Prelude.{◌≡◌, ◌∷◌, ◌++◌, [], OnOk, IfOk};
ghost use Rattle.cypher_check.specs.Names.{has, add, add_all};

use graph_value::{Name, NoMemory};
use sqlite_items::Items;
use std::alloc::Global;

/// Whether a name is among names.
pub fn has(names: &[Name], name: &Name) -> bool
    ensures { result ≡ has names.now name.now }
{
    names.iter().any(|n| n == name)
}

/// Puts a name behind names.
pub fn push(names: &mut Items<Name>, name: &Name) -> Result<(), NoMemory>
    ensures { OnOk result (names.new ≡ names.old ++ name.now ∷ []) }
{
    names.push(name.copy()?)
}

/// Puts a name behind names that don't have it.
pub fn add(names: &mut Items<Name>, name: &Name) -> Result<(), NoMemory>
    ensures { OnOk result (names.new ≡ add names.old name.now) }
{
    if has(names.as_slice(), name) {
        return Ok(());
    }
    push(names, name)
}

pub fn add_all(names: &mut Items<Name>, more: &[Name]) -> Result<(), NoMemory>
    ensures { OnOk result (names.new ≡ add_all names.old more.now) }
{
    for name in more {
        add(names, name)?;
    }
    Ok(())
}

pub fn copies(alloc: Global, names: &[Name]) -> Result<Items<Name>, NoMemory>
    ensures { IfOk result (λ copies. copies ≡ names.now) }
{
    let mut copies = Items::new(alloc);
    for name in names {
        copies.push(name.copy()?)?;
    }
    Ok(copies)
}
