ghost use Rattle.std.specs.Prelude.{◌≡◌};

/// A delta of a chain, with the timestamp of its commit, or with none where it is open.
#[derive(Debug, Drop)]
pub struct Entry<D> {
    pub stamp: Option<u64>,
    pub delta: D,
}

impl<D> Entry<D> {
    ghost use Rattle.version_chain.specs.Entry.{is_after, is_before};

    /// Whether the delta is open or was committed after the instant t.
    pub fn is_after(&self, t: u64) -> bool
        ensures { result ≡ is_after t self.now }
    {
        match self.stamp {
            None => true,
            Some(ts) => ts > t,
        }
    }

    /// Whether the delta was committed before the mark.
    pub fn is_before(&self, mark: u64) -> bool
        ensures { result ≡ is_before mark self.now }
    {
        match self.stamp {
            None => false,
            Some(ts) => ts < mark,
        }
    }
}
