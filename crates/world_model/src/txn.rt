ghost use Rattle.std.specs.Prelude.{◌≡◌};

/// An open transaction, as its caller holds it. It can't be let go: a store's commit or abort takes it.
#[derive(Debug)]
pub struct Txn {
    start: u64,
}

impl Txn {
    /// The transaction that a store has begun at this reading of the clock.
    pub fn begun(start: u64) -> Txn
        ensures { result.start ≡ start }
    {
        Txn { start }
    }

    /// The reading of the clock at its begin.
    pub fn start(&self) -> u64
        ensures { result ≡ self.now.start }
    {
        self.start
    }

    /// Gives the transaction up, for a store that ends it.
    pub fn end(self) -> u64
        ensures { result ≡ self.start }
    {
        let Txn { start } = self;
        start
    }
}
