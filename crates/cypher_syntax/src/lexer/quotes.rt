ghost use Rattle.std.specs.Prelude.{◌≡◌, ◌≤◌, ◌<◌, length, IfOk, IfSome};
ghost use Rattle.std.specs.List.{prefix_len};
ghost use Rattle.std.specs.Str.{IsCharBoundary};
ghost use Rattle.cypher_syntax.specs.Quotes.{is_plain, part_of, quote_of, escape_of, scalar_of, simple_of, inside};

use super::numerals::{all_hexadecimal, value_in};
use graph_value::{NoMemory, Text};
use std::alloc::Global;

/// What stands between quotes and doesn't stand for itself.
#[derive(Clone, Copy)]
pub enum Part {
    /// The quote that ends it.
    Closes,
    /// A character, spelled by so many bytes.
    Char(char, usize),
    /// Nothing that may stand there.
    Broken,
}

/// Whether a byte stands for itself: all but a name's backquotes, and a string's quote and backslash.
fn is_plain(quote: u8, b: u8) -> bool
    ensures { result ≡ is_plain quote b }
{
    b != quote && (b != b'\\' || quote == b'`')
}

/// How many bytes at the front stand for themselves.
fn plain_len(quote: u8, text: &str) -> usize
    requires { quote < 128 }
    ensures value { result ≡ prefix_len (is_plain quote) text.now }
    ensures boundary { IsCharBoundary text.now result }
{
    text.as_bytes()
        .iter()
        .take_while(|b| is_plain(quote, **b))
        .count()
}

/// A character by so many hexadecimal digits.
fn scalar_of(count: usize, bytes: &[u8]) -> Part
    requires { count ≤ 8 }
    ensures { result ≡ scalar_of count bytes.now }
{
    if bytes.len() < count || !all_hexadecimal(&bytes[..count]) {
        return Part::Broken;
    }
    let value = value_in(16, &bytes[..count]);
    if value > 0x10_FFFF {
        return Part::Broken;
    }
    match char::from_u32(value as u32) {
        Some(c) => Part::Char(c, count + 2),
        None => Part::Broken,
    }
}

/// A character by the letter or sign behind a backslash.
fn simple_of(b: u8) -> Part
    ensures { result ≡ simple_of b }
{
    match b {
        b'\\' => Part::Char('\\', 2),
        b'\'' => Part::Char('\'', 2),
        b'"' => Part::Char('"', 2),
        b'b' => Part::Char('\u{8}', 2),
        b'f' => Part::Char('\u{C}', 2),
        b'n' => Part::Char('\n', 2),
        b'r' => Part::Char('\r', 2),
        b't' => Part::Char('\t', 2),
        _ => Part::Broken,
    }
}

/// What an escape stands for, by what is behind its backslash.
fn escape_of(bytes: &[u8]) -> Part
    ensures { result ≡ escape_of bytes.now }
{
    match bytes {
        [] => Part::Broken,
        [b'u', digits @ ..] => scalar_of(4, digits),
        [b'U', digits @ ..] => scalar_of(8, digits),
        [b, ..] => simple_of(*b),
    }
}

/// What a quote stands for: the end, or one backquote of a name, where it is doubled.
fn quote_of(quote: u8, bytes: &[u8]) -> Part
    ensures { result ≡ quote_of quote bytes.now }
{
    if quote == b'`' && matches!(bytes, [b'`', ..]) {
        Part::Char('`', 2)
    } else {
        Part::Closes
    }
}

/// What stands at the front.
fn part_of(quote: u8, bytes: &[u8]) -> Part
    ensures { result ≡ part_of quote bytes.now }
{
    match bytes {
        [] => Part::Broken,
        [b, behind @ ..] if *b == quote => quote_of(quote, behind),
        [_, behind @ ..] => escape_of(behind),
    }
}

/// What a text stands for up to the quote that ends it, and how many bytes it takes with this quote. `None` where nothing ends
/// it, or an escape in it is none.
pub(super) fn inside(
    alloc: Global,
    quote: u8,
    text: &str,
) -> Result<Option<(Text, usize)>, NoMemory>
    requires { quote < 128 }
    ensures value { IfOk result (λ r. r ≡ inside quote 0 text.now) }
    ensures within { IfOk result (λ r. IfSome r (λ x. x.1 ≤ length text.now)) }
{
    let mut value = String::new(alloc);
    let mut rest = text;
    loop {
        let (plain, behind) = rest.split_at(plain_len(quote, rest));
        value.push_str(plain)?;
        match part_of(quote, behind.as_bytes()) {
            Part::Closes => {
                let taken = text.len() - behind.len() + 1;
                return Ok(Some((Text::from_string(value), taken)));
            }
            Part::Char(c, len) => {
                value.push(c)?;
                rest = &behind[len..];
            }
            Part::Broken => return Ok(None),
        }
    }
}
