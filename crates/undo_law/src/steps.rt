ghost use Rattle.std.specs.Prelude.{◌≡◌, ◌+◌, ◌<◌, OnErr, OnOk};

use crate::{NoMemory, Undo};
use std::alloc::Global;
use std::marker::Model;
use std::sync::ledger::{Blank, Book, Ledger, Share};

/// How many deltas were applied. Contracts see the number; it takes no bytes, and counting costs nothing.
#[derive(Drop)]
pub struct Steps<L: Ledger> {
    book: Book<L>,
    share: Share<L>,
}

impl<L: Ledger> Model for Steps<L> {
    ghost use Rattle.std.specs.Prelude.{ℕ, ◌<◌};

    ghost Value = { ℕ };

    ghost view = { λ s. s.book.total };

    ghost invariant = { λ s. 0 < s.share.parts };
}

impl<L: Ledger> Steps<L> {
    /// A count of its own, at 0.
    pub fn open(blank: Blank) -> Steps<L>
        requires name { blank.name ≡ L.name }
        requires parts { blank.parts ≡ L.parts }
        requires some { 0 < L.parts }
        ensures { result ≡ 0 }
    {
        let (book, share) = blank.open::<L>();
        Steps { book, share }
    }

    /// Counts one application.
    pub fn tick(&mut self)
        ensures { self.new ≡ self.old + 1 }
    {
        self.book.add(&mut self.share, 1);
    }

    /// Applies one delta and counts it. Without memory the object and the count stay as they were.
    pub fn apply<U: Undo>(
        &mut self,
        alloc: Global,
        object: &mut U::Object,
        delta: &U::Delta,
    ) -> Result<(), NoMemory>
        ensures ok { OnOk result (object.new ≡ U.after object.old delta.now) }
        ensures counted { OnOk result (self.new ≡ self.old + 1) }
        ensures err { OnErr result (object.new ≡ object.old) }
        ensures not_counted { OnErr result (self.new ≡ self.old) }
    {
        U::apply(alloc, object, delta)?;
        self.tick();
        Ok(())
    }
}
