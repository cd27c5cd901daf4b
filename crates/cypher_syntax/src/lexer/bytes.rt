ghost use Rattle.std.specs.Prelude.{◌≡◌, ◌≤◌, length, IfSome};
ghost use Rattle.std.specs.List.{prefix_len};
ghost use Rattle.cypher_syntax.specs.Bytes.{is_blank, begins_word, continues_word, is_quote, is_sign, is_long_sign, sign_len, within_line, closed_len};

/// A space, a tab, a carriage return or a line end.
pub(super) fn is_blank(b: u8) -> bool
    ensures { result ≡ is_blank b }
{
    matches!(b, b' ' | b'\t' | b'\r' | b'\n')
}

/// A letter or `_`.
pub(super) fn begins_word(b: u8) -> bool
    ensures { result ≡ begins_word b }
{
    b.is_ascii_alphabetic() || b == b'_'
}

/// A letter, a digit or `_`.
fn continues_word(b: u8) -> bool
    ensures { result ≡ continues_word b }
{
    b.is_ascii_alphanumeric() || b == b'_'
}

pub(super) fn is_quote(b: u8) -> bool
    ensures { result ≡ is_quote b }
{
    matches!(b, b'\'' | b'"' | b'`')
}

/// How many blanks stand at the front.
pub(super) fn blank_len(bytes: &[u8]) -> usize
    ensures { result ≡ prefix_len is_blank bytes.now }
{
    bytes.iter().take_while(|b| is_blank(**b)).count()
}

/// How many letters, digits and `_` stand at the front.
pub(super) fn word_len(bytes: &[u8]) -> usize
    ensures { result ≡ prefix_len continues_word bytes.now }
{
    bytes.iter().take_while(|b| continues_word(**b)).count()
}

/// How many bytes stand in front of the first line end.
pub(super) fn line_len(bytes: &[u8]) -> usize
    ensures { result ≡ prefix_len within_line bytes.now }
{
    bytes.iter().take_while(|b| **b != b'\n').count()
}

/// How many bytes there are up to the first `*/`, with it.
pub(super) fn closed_len(bytes: &[u8]) -> Option<usize>
    ensures value { result ≡ closed_len bytes.now }
    ensures within { IfSome result (λ n. n ≤ length bytes.now) }
{
    let mut passed = 0;
    let mut rest = bytes;
    while let [first, behind @ ..] = rest {
        if *first == b'*' && matches!(behind, [b'/', ..]) {
            return Some(passed + 2);
        }
        passed += 1;
        rest = behind;
    }
    None
}

fn is_sign(b: u8) -> bool
    ensures { result ≡ is_sign b }
{
    matches!(
        b,
        b'(' | b')'
            | b'['
            | b']'
            | b'{'
            | b'}'
            | b','
            | b';'
            | b':'
            | b'.'
            | b'|'
            | b'+'
            | b'-'
            | b'*'
            | b'/'
            | b'%'
            | b'='
            | b'<'
            | b'>'
    )
}

fn is_long_sign(a: u8, b: u8) -> bool
    ensures { result ≡ is_long_sign a b }
{
    matches!(
        (a, b),
        (b'<', b'>') | (b'<', b'=') | (b'>', b'=') | (b'.', b'.')
    )
}

/// How many bytes the longest sign at the front has: 0 where none stands there.
pub(super) fn sign_len(bytes: &[u8]) -> usize
    ensures { result ≡ sign_len bytes.now }
{
    match bytes {
        [a, b, ..] if is_long_sign(*a, *b) => 2,
        [a, ..] if is_sign(*a) => 1,
        _ => 0,
    }
}
