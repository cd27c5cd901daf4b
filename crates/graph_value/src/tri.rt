ghost use Rattle.std.specs.Prelude.{◌≡◌};
ghost use Rattle.graph_value.specs.Tri.{known, tri_and};

/// The answer to a comparison in which a value may be missing.
#[derive(Clone, Copy, Debug, PartialEq, Eq, Hash)]
pub enum Tri {
    True,
    False,
    Unknown,
}

impl Tri {
    /// An answer that is known.
    pub fn known(answer: bool) -> Tri
        ensures { result ≡ known answer }
    {
        if answer { Tri::True } else { Tri::False }
    }

    /// False where one is, else unknown where one is.
    pub fn and(self, other: Tri) -> Tri
        ensures { result ≡ tri_and self other }
    {
        match (self, other) {
            (Tri::False, _) | (_, Tri::False) => Tri::False,
            (Tri::Unknown, _) | (_, Tri::Unknown) => Tri::Unknown,
            (Tri::True, Tri::True) => Tri::True,
        }
    }
}
