ghost use Rattle.std.specs.Prelude.{◌≡◌, ◌<◌, ◌≤◌, IfNone, IfSome, IsTrue};
ghost use Rattle.std.specs.List.{list_all};
ghost use Rattle.std.specs.Char.{is_ascii_digit};
ghost use Rattle.event_lines.specs.Words.{is_number, number_below, value_of};

/// Whether a word has nothing but digits.
fn has_only_digits(word: &[u8]) -> bool
    ensures { result ≡ list_all is_ascii_digit word.now }
{
    word.iter().all(|c| c.is_ascii_digit())
}

/// Whether a word is digits without a leading zero; `0` alone is.
fn is_number(word: &[u8]) -> bool
    ensures { result ≡ is_number word.now }
{
    match word {
        [] | [b'0', _, ..] => false,
        _ => has_only_digits(word),
    }
}

/// The number that a word is, or `None` where it is none, or isn't below `limit`.
#[tactic(auto, unfolding(crate::specs::Words::number_below))]
pub fn number_below(word: &[u8], limit: u64) -> Option<u64>
    ensures read { result ≡ number_below limit word.now }
    ensures below { IfSome result (λ n. n < limit) }
{
    if !is_number(word) {
        return None;
    }
    value_below(word, limit)
}

/// The number that digits stand for, or `None` where it isn't below `limit`. Most numbers of a line have a few digits,
/// and std would read them from a text that has to be made first.
fn value_below(digits: &[u8], limit: u64) -> Option<u64>
    requires { IsTrue (list_all is_ascii_digit digits.now) }
    ensures value { IfSome result (λ n. n ≡ value_of digits.now) }
    ensures below { IfSome result (λ n. n < limit) }
    ensures great { IfNone result (limit ≤ value_of digits.now) }
{
    let limit = u128::from(limit);
    let mut value = 0;
    for digit in digits {
        if value >= limit {
            return None;
        }
        value = value * 10 + u128::from(*digit - b'0');
    }
    if value < limit {
        Some(value as u64)
    } else {
        None
    }
}
