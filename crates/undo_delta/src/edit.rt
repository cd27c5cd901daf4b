//! The edits of one part of a record, each with what undoes it.
ghost use Rattle.std.specs.Prelude.{◌≡◌, cond, IfOk, OnOk, OnErr};
ghost use Rattle.std.specs.Option.{option_copied};
ghost use Rattle.std.specs.FinMap.{find};
ghost use Rattle.graph_value.specs.Name.{name_cmp};
ghost use Rattle.graph_value.specs.Value.{same_value};
ghost use Rattle.graph_record.specs.Edits.{has, added, removed};
ghost use Rattle.graph_record.specs.Stored.{set_property};
ghost use Rattle.undo_delta.specs.Change.{value_or_null, kept, no_delta, one_delta, setting_deltas};
ghost use Rattle.undo_delta.specs.declared.delta.Delta.TheVariants as delta;

use crate::{Delta, DeltaPair, NoMemory, Setting};
use graph_record::{Labels, Properties};
use graph_value::{Name, Value, storable};
use std::alloc::Global;

/// Puts the label there. A label that is there already takes no memory. Without memory nothing changes.
pub(crate) fn add_label(
    alloc: Global,
    labels: &mut Labels,
    name: &Name,
) -> Result<DeltaPair, NoMemory>
    ensures ok { OnOk result (labels.new ≡ added name_cmp name.now labels.old) }
    ensures undo { IfOk result (λ pair. pair
        ≡ cond (has name_cmp name.now labels.old)
        no_delta (one_delta (delta.RemoveLabel name.now))) }
    ensures err { OnErr result (labels.new ≡ labels.old) }
{
    let kept = name.copy()?;
    if labels.add(name.copy()?)? {
        Ok(DeltaPair::one(Delta::RemoveLabel(kept)))
    } else {
        Ok(DeltaPair::none())
    }
}

/// Takes the label away. Without memory nothing changes.
pub(crate) fn remove_label(
    alloc: Global,
    labels: &mut Labels,
    name: &Name,
) -> Result<DeltaPair, NoMemory>
    ensures ok { OnOk result (labels.new ≡ removed name_cmp name.now labels.old) }
    ensures undo { IfOk result (λ pair. pair
        ≡ cond (has name_cmp name.now labels.old)
        (one_delta (delta.AddLabel name.now)) no_delta) }
    ensures err { OnErr result (labels.new ≡ labels.old) }
{
    let kept = name.copy()?;
    if labels.remove(name.as_str())? {
        Ok(DeltaPair::one(Delta::AddLabel(kept)))
    } else {
        Ok(DeltaPair::none())
    }
}

/// Gives the property this value, and gives back the one that it had. A value that no object keeps, as null, removes it.
/// Without memory nothing changes.
pub(crate) fn write_property(
    alloc: Global,
    props: &mut Properties,
    name: &Name,
    value: &Value,
) -> Result<Option<Value>, NoMemory>
    ensures ok { OnOk result (props.new ≡ set_property name.now value.now props.old) }
    ensures former { IfOk result (λ former. former ≡ find name_cmp name.now props.old) }
    ensures err { OnErr result (props.new ≡ props.old) }
{
    let value = value.copy(alloc)?;
    props.set(name, value)
}

/// Gives the property this value, and leaves no delta where it has this value already. Without memory nothing changes.
pub(crate) fn set_value(
    alloc: Global,
    props: &mut Properties,
    name: &Name,
    value: &Value,
) -> Result<DeltaPair, NoMemory>
    ensures ok { OnOk result (props.new ≡ set_property name.now value.now props.old) }
    ensures undo { IfOk result (λ pair. pair
        ≡ setting_deltas name.now (value_or_null (find name_cmp name.now props.old)) value.now) }
    ensures err { OnErr result (props.new ≡ props.old) }
{
    let room = Setting::room(alloc, props.shared_name(name)?)?;
    let former = write_property(alloc, props, name, value)?;
    Ok(undo_setting(room, value_or_null(former), value))
}

/// What undoes that the value was written over the former one: nothing, where it is the value that was there.
fn undo_setting(room: Setting, former: Value, value: &Value) -> DeltaPair
    ensures { result ≡ setting_deltas room.0 former value.now }
{
    if is_kept_value(&former, value) {
        return DeltaPair::none();
    }
    let mut setting = room;
    setting.fill(former);
    DeltaPair::one(Delta::SetProperty(setting))
}

fn value_or_null(value: Option<Value>) -> Value
    ensures { result ≡ value_or_null value }
{
    match value {
        Some(known) => known,
        None => Value::Null,
    }
}

/// Whether the former value of a property is what it has once the value was written, so that writing it changes nothing.
/// Null stands for no property, and for each value that no object keeps.
pub fn is_kept_value(former: &Value, value: &Value) -> bool
    ensures { result ≡ same_value former.now (kept value.now) }
{
    if storable(value) {
        former == value
    } else {
        *former == Value::Null
    }
}
