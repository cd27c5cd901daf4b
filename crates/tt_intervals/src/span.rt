ghost use Rattle.std.specs.Prelude.{◌≡◌, ◌↔◌, ◌≤◌, IfSome, IsSome};

/// The instants from a first one to a last one, both in it. An instant is the timestamp of a commit, any `u64`.
#[derive(Clone, Copy, Debug, PartialEq, Eq)]
pub struct Span {
    pub first: u64,
    pub last: u64,
    pub ghost ordered: { first ≤ last },
}

impl Span {
    /// The instants from the first to the last, or none where the last is before the first.
    pub fn new(first: u64, last: u64) -> Option<Span>
        ensures some { IsSome result ↔ (first ≤ last) }
        ensures first { IfSome result (λ span. span.first ≡ first) }
        ensures last { IfSome result (λ span. span.last ≡ last) }
    {
        if first <= last {
            Some(Span { first, last })
        } else {
            None
        }
    }

    /// One instant alone.
    pub fn at(instant: u64) -> Span
        ensures first { result.first ≡ instant }
        ensures last { result.last ≡ instant }
    {
        Span {
            first: instant,
            last: instant,
        }
    }
}
