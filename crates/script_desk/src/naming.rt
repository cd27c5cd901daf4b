//! The name of a session in front of a statement, and in front of each line of a reply.
ghost use Rattle.std.specs.Prelude.{◌≡◌, ◌++◌, MatchOption, None, OnOk, Some, string_bytes};
ghost use Rattle.std.specs.List.{list_all};
ghost use Rattle.script_desk.specs.Naming as spec;

use crate::NoMemory;

fn is_name_byte(byte: &u8) -> bool
    ensures { result ≡ spec.is_name_byte byte.now }
{
    byte.is_ascii_lowercase() || byte.is_ascii_digit() || *byte == b'_'
}

fn are_name_bytes(bytes: &[u8]) -> bool
    ensures { result ≡ list_all spec.is_name_byte bytes.now }
{
    bytes.iter().all(is_name_byte)
}

fn is_name_rest(rest: &[u8]) -> bool
    ensures { result ≡ spec.is_name_rest rest.now }
{
    rest.len() < 16 && are_name_bytes(rest)
}

fn is_name(name: &[u8]) -> bool
    ensures { result ≡ spec.is_name name.now }
{
    match name {
        [first, rest @ ..] => first.is_ascii_lowercase() && is_name_rest(rest),
        [] => false,
    }
}

/// The name in front of a line's first colon, and the statement behind it. `None` where no name stands there.
pub fn named(line: &str) -> Option<(&str, &str)>
    ensures { MatchOption result (spec.named line.now ≡ None) (λ parts.
        spec.named line.now ≡ Some (parts.0.now, parts.1.now)) }
{
    let (name, statement) = line.split_once(':')?;
    if is_name(name.as_bytes()) {
        Some((name, statement))
    } else {
        None
    }
}

/// Appends a line behind a name.
fn push_line(out: &mut String, name: &str, line: &str) -> Result<(), NoMemory>
    ensures ok { OnOk result (string_bytes out.new
        ≡ string_bytes out.old ++ spec.prefixed name.now line.now) }
{
    out.push_str(name)?;
    out.push_str(": ")?;
    out.push_str(line)?;
    out.push_str("\n")
}

/// Appends each line of a reply behind a name.
pub fn push_reply(out: &mut String, name: &str, text: &str) -> Result<(), NoMemory>
    ensures ok { OnOk result (string_bytes out.new
        ≡ string_bytes out.old ++ spec.reply_lines name.now text.now) }
{
    let mut rest = text;
    while let Some((line, behind)) = rest.split_once('\n') {
        push_line(out, name, line)?;
        rest = behind;
    }
    if rest.is_empty() {
        return Ok(());
    }
    push_line(out, name, rest)
}
