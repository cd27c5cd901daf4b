ghost use Rattle.std.specs.Prelude.{◌≡◌, ◌↔◌, Bool, IfOk, IsTrue, OnErr, OnOk};

use crate::NoMemory;
use std::alloc::Global;

/// A kind of object, and the deltas that undo its changes.
pub trait Undo {
    type Object: Drop;

    type Delta: Drop;

    /// The object after a delta was applied to it.
    ghost after: { Self.Object → Self.Delta → Self.Object };

    /// Whether the object stands for nothing that is there.
    ghost is_absent: { Self.Object → Bool };

    /// Applies one delta. Without memory the object stays as it was.
    fn apply(alloc: Global, object: &mut Self::Object, delta: &Self::Delta) -> Result<(), NoMemory>
        ensures ok { OnOk result (object.new ≡ after object.old delta.now) }
        ensures err { OnErr result (object.new ≡ object.old) };

    /// The same object, in memory of its own.
    fn copy_object(alloc: Global, object: &Self::Object) -> Result<Self::Object, NoMemory>
        ensures { IfOk result (λ copy. copy ≡ object.now) };

    /// The same delta, in memory of its own.
    fn copy_delta(alloc: Global, delta: &Self::Delta) -> Result<Self::Delta, NoMemory>
        ensures { IfOk result (λ copy. copy ≡ delta.now) };

    /// Whether the object stands for nothing that is there.
    fn absent(object: &Self::Object) -> bool
        ensures { result ≡ is_absent object.now };

    /// Whether the two are the same object.
    fn same_object(a: &Self::Object, b: &Self::Object) -> bool
        ensures { IsTrue result ↔ (a.now ≡ b.now) };
}
