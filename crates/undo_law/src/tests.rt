ghost use Rattle.std.specs.Prelude.{◌≡◌, ◌<◌, IfOk};

use crate::{Dated, DatedDeltas, Digits, NoMemory, Steps, Tail, Undo};
use std::alloc::Global;
use std::marker::Brand;
use std::sync::ledger::{Blank, Ledger};
use std::test::Fail;

/// Each function of the trait once, through its bound.
fn undo_twice<U: Undo>(
    alloc: Global,
    newest: &U::Object,
    delta: &U::Delta,
) -> Result<U::Object, NoMemory>
    ensures { IfOk result (λ object. object ≡ U.after (U.after newest.now delta.now) delta.now) }
{
    let mut object = U::copy_object(alloc, newest)?;
    let again = U::copy_delta(alloc, delta)?;
    U::apply(alloc, &mut object, delta)?;
    U::apply(alloc, &mut object, &again)?;
    Ok(object)
}

fn is_changed<U: Undo>(a: &U::Object, b: &U::Object) -> bool {
    !U::absent(a) && !U::same_object(a, b)
}

#[test]
fn deltas_are_applied_through_the_bound(rt: HostRuntime) -> Result<(), Fail> {
    let rows = [
        (0, 0, 0),
        (1, 2, 122),
        (7, 0, 700),
        (u64::MAX, 1, u64::MAX - 88),
    ];
    for (newest, digit, wanted) in rows {
        let object = undo_twice::<Digits>(rt.alloc(), &newest, &digit)?;
        assert_eq!(rt; object, wanted);
    }
    assert!(rt; is_changed::<Digits>(&1, &2));
    assert!(rt; !is_changed::<Digits>(&2, &2));
    assert!(rt; !is_changed::<Digits>(&0, &2));
    Ok(())
}

/// Undoes a tail, each delta through the count, and counts one step more.
fn rebuild<L: Ledger>(alloc: Global, blank: Blank, tail: Tail<Digits>) -> Result<u64, NoMemory>
    requires name { blank.name ≡ L.name }
    requires parts { blank.parts ≡ L.parts }
    requires some { 0 < L.parts }
{
    let mut steps = Steps::<L>::open(blank);
    let Tail { newest, deltas } = tail;
    let mut object = newest;
    for dated in deltas.as_slice() {
        steps.apply::<Digits>(alloc, &mut object, &dated.delta)?;
    }
    steps.tick();
    Ok(object)
}

#[test]
fn a_tail_is_undone(rt: HostRuntime) -> Result<(), Fail> {
    let mut deltas = DatedDeltas::new(rt.alloc());
    deltas.push(Dated { ts: 5, delta: 2 })?;
    deltas.push(Dated { ts: 3, delta: 4 })?;
    assert_eq!(rt; deltas.len(), 2);
    let deltas = DatedDeltas::from_vec(deltas.into_vec());
    let object = rebuild::<Brand>(rt.alloc(), Blank::new(1), Tail { newest: 1, deltas })?;
    assert_eq!(rt; object, 124);
    Ok(())
}
