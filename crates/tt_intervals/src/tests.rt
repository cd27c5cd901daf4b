ghost use Rattle.std.specs.Prelude.{◌≡◌, ◌%◌, IfOk, refl};
ghost use Rattle.std.proofs.Common.{sym, ◌∙◌};
ghost use Rattle.tt_intervals.specs.Runs.{Ascends};

use crate::{Same, Span, meet, runs, runs_are_unique};
use std::alloc::{AllocError, Global};
use std::process::Abort;
use std::test::Fail;

/// A number that means its last digit.
#[derive(Drop)]
struct Number {
    number: u64,
}

impl Same for Number {
    ghost means_same = { λ a b. a.number % 10 ≡ b.number % 10 };

    ghost reflexive = { λ a. refl };

    ghost symmetric = { λ a b h. sym h };

    ghost transitive = { λ a b c h k. h ∙ k };

    fn same(&self, other: &Number) -> bool {
        self.number % 10 == other.number % 10
    }
}

/// The first instant, the last one, and the number.
type Row = (u64, u64, u64);

fn span(rt: &impl Abort, first: u64, last: u64) -> Span
    ensures first { result.first ≡ first }
    ensures last { result.last ≡ last }
{
    Span::new(first, last).expect(rt, "a span")
}

fn pieces(rt: &impl Abort, alloc: Global, rows: &[Row]) -> Result<Vec<(Span, Number)>, AllocError>
    ensures { IfOk result (λ pieces. Ascends pieces.items) }
{
    let mut pieces = Vec::new(alloc);
    let mut free = 0;
    for (first, last, number) in rows {
        let start = u128::from(*first);
        assert!(rt; free <= start);
        free = u128::from(*last) + 1;
        pieces.push((span(rt, *first, *last), Number { number: *number }))?;
    }
    Ok(pieces)
}

/// The runs of the pieces of the rows, by the last digits.
fn told(rt: &impl Abort, alloc: Global, rows: &[Row]) -> Result<Vec<Row>, AllocError> {
    let mut told = Vec::new(alloc);
    for (span, number) in &runs(pieces(rt, alloc, rows)?) {
        told.push((span.first, span.last, number.number % 10))?;
    }
    Ok(told)
}

#[test]
fn neighbours_that_touch_and_mean_the_same_are_joined(rt: HostRuntime) -> Result<(), Fail> {
    let cases: [(&[Row], &[Row]); 9] = [
        (&[], &[]),
        (&[(3, 7, 14)], &[(3, 7, 4)]),
        (&[(1, 3, 5), (4, 4, 15), (5, 9, 25)], &[(1, 9, 5)]),
        (&[(1, 3, 5), (4, 9, 6)], &[(1, 3, 5), (4, 9, 6)]),
        (&[(1, 3, 5), (5, 9, 15)], &[(1, 3, 5), (5, 9, 5)]),
        (
            &[(1, 1, 3), (2, 2, 4), (3, 3, 3)],
            &[(1, 1, 3), (2, 2, 4), (3, 3, 3)],
        ),
        (
            &[(0, 0, 8), (1, u64::MAX - 1, 18), (u64::MAX, u64::MAX, 28)],
            &[(0, u64::MAX, 8)],
        ),
        (
            &[(u64::MAX - 1, u64::MAX - 1, 8), (u64::MAX, u64::MAX, 9)],
            &[(u64::MAX - 1, u64::MAX - 1, 8), (u64::MAX, u64::MAX, 9)],
        ),
        (
            &[
                (0, 1, 1),
                (2, 3, 11),
                (4, 5, 2),
                (6, 7, 1),
                (9, 9, 1),
                (10, 12, 31),
            ],
            &[(0, 3, 1), (4, 5, 2), (6, 7, 1), (9, 12, 1)],
        ),
    ];
    for (rows, want) in cases {
        let told = told(&rt, rt.alloc(), rows)?;
        assert_eq!(rt; told.as_slice(), want, "of {rows:?}");
    }
    runs_are_unique::<Number>();
    Ok(())
}

#[test]
fn two_spans_meet_in_what_they_share(rt: HostRuntime) {
    let cases = [
        ((1, 5), (3, 9), Some((3, 5))),
        ((1, 5), (5, 9), Some((5, 5))),
        ((1, 5), (6, 9), None),
        ((7, 9), (1, 2), None),
        ((2, 3), (0, u64::MAX), Some((2, 3))),
    ];
    for ((a, b), (c, d), want) in cases {
        let told = meet(span(&rt, a, b), span(&rt, c, d));
        let want = want.map(|(first, last)| span(&rt, first, last));
        assert_eq!(rt; told, want, "of {a} to {b} and {c} to {d}");
    }
    let end = Span::at(u64::MAX);
    assert_eq!(rt; meet(end, end), Some(end));
    assert_eq!(rt; Span::new(4, 3), None);
}
