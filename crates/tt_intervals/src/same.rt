ghost use Rattle.std.specs.Prelude.{◌↔◌, IsTrue};

/// Values with a meaning. Two that mean the same may be kept in different ways.
pub trait Same {
    /// The two mean the same.
    ghost means_same: { Self → Self → Type 0 };

    /// Whether the two mean the same.
    fn same(&self, other: &Self) -> bool
        ensures { IsTrue result ↔ means_same self.now other.now };

    /// To mean the same is an equivalence.
    ghost reflexive: { (x : Self) → means_same x x };

    ghost symmetric: { (x y : Self) → means_same x y → means_same y x };

    ghost transitive: { (x y z : Self) → means_same x y → means_same y z → means_same x z };
}
