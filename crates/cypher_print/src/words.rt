ghost use Rattle.std.specs.Prelude.{◌≡◌, false};
ghost use Rattle.std.specs.List.{list_all, prefix_len};
ghost use Rattle.std.specs.Str.{IsCharBoundary};
ghost use Rattle.cypher_print.specs.Pieces.{is_keyword, is_word, spelled, is_ordinary};
ghost use Rattle.cypher_syntax.specs.Bytes.{begins_word, continues_word};

use cypher_parse::{Kind, listed};

/// Whether a word is a keyword: the kinds of keywords stand in front of all others.
pub fn is_keyword(word: &str) -> bool
    ensures { result ≡ is_keyword word.now }
{
    match listed(word.as_bytes()) {
        Some(kind) => kind.number() < Kind::Snapshot.number(),
        None => false,
    }
}

/// A letter or `_`.
fn begins_word(b: u8) -> bool
    ensures { result ≡ begins_word b }
{
    b.is_ascii_alphabetic() || b == b'_'
}

/// A letter, a digit or `_`.
fn continues_word(b: u8) -> bool
    ensures { result ≡ continues_word b }
{
    b.is_ascii_alphanumeric() || b == b'_'
}

fn continues(bytes: &[u8]) -> bool
    ensures { result ≡ list_all continues_word bytes.now }
{
    bytes.iter().all(|b| continues_word(*b))
}

/// Whether a name is a word.
pub fn is_word(name: &[u8]) -> bool
    ensures { result ≡ is_word name.now }
{
    match name {
        [] => false,
        [first, rest @ ..] => begins_word(*first) && continues(rest),
    }
}

/// How a byte is written between quotes, where it doesn't stand for itself.
pub fn spelling(quote: u8, b: u8) -> &'static str
    requires { is_ordinary quote b ≡ false }
    ensures { result.now ≡ spelled quote b }
{
    if quote == b'`' {
        return "``";
    }
    match b {
        b'\\' => "\\\\",
        b'\'' => "\\'",
        8 => "\\b",
        12 => "\\f",
        b'\n' => "\\n",
        b'\r' => "\\r",
        _ => "\\t",
    }
}

/// Whether a byte between quotes stands for itself.
fn is_ordinary(quote: u8, b: u8) -> bool
    ensures { result ≡ is_ordinary quote b }
{
    if quote == b'`' {
        b != b'`'
    } else {
        !matches!(b, b'\\' | b'\'' | 8 | 12 | b'\n' | b'\r' | b'\t')
    }
}

/// How many bytes at the front stand for themselves.
pub fn ordinary_len(quote: u8, text: &str) -> usize
    ensures value { result ≡ prefix_len (is_ordinary quote) text.now }
    ensures boundary { IsCharBoundary text.now result }
{
    text.as_bytes()
        .iter()
        .take_while(|b| is_ordinary(quote, **b))
        .count()
}
