ghost use Rattle.std.specs.Prelude.{◌≡◌, ◌↔◌, ◌+◌, ◌*◌, ◌%◌, nat_eq};

use crate::{NoMemory, Undo};
use std::alloc::Global;

/// A number as the smallest kind of object, for tests and measurements: a delta writes one more digit behind it, so that
/// a version shows which deltas were undone, in their order. What passes 2^64 is cut off in front.
pub struct Digits;

impl Undo for Digits {
    type Object = u64;

    type Delta = u64;

    ghost after = { λ number digit. (number * 10 + digit) % 18446744073709551616 };

    ghost is_absent = { λ number. nat_eq number 0 };

    fn apply(_alloc: Global, object: &mut u64, delta: &u64) -> Result<(), NoMemory> {
        let longer = (u128::from(*object) * 10 + u128::from(*delta)) % 18446744073709551616;
        *object = longer as u64;
        Ok(())
    }

    fn copy_object(_alloc: Global, object: &u64) -> Result<u64, NoMemory> {
        Ok(*object)
    }

    fn copy_delta(_alloc: Global, delta: &u64) -> Result<u64, NoMemory> {
        Ok(*delta)
    }

    fn absent(object: &u64) -> bool {
        *object == 0
    }

    fn same_object(a: &u64, b: &u64) -> bool {
        *a == *b
    }
}
