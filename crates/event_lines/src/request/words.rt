ghost use Rattle.std.specs.Prelude.{◌≡◌, ◌==◌, MatchOption, Some, None};
ghost use Rattle.event_lines.specs.Words.{cut};

pub fn is_space(b: &u8) -> bool
    ensures { result ≡ (b.now == 32) }
{
    *b == b' '
}

/// What stands before the first space of a text, and what stands behind it. `None` where it has no space.
pub fn cut(text: &[u8]) -> Option<(&[u8], &[u8])>
    ensures { MatchOption result (cut text.now ≡ None) (λ parts.
        cut text.now ≡ Some (parts.0.now, parts.1.now)) }
{
    let at = text.iter().position(is_space)?;
    Some((&text[..at], &text[at + 1..]))
}
