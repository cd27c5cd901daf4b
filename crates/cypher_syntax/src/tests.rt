use crate::{Token, TokenRefused, Tokens, What, text_is_its_tokens, tokens};
use graph_value::{NoMemory, Text};
use std::alloc::Global;
use std::fmt::Write;
use std::test::Fail;

/// Texts, and what they are read as: a letter for each token, its place, and in brackets what it holds. Behind `!` stands
/// the place of a fault.
static ROWS: [(&str, &str); 71] = [
    ("", ""),
    (" \t\r\n", ""),
    ("RETURN n", "w0-6 w7-8"),
    ("_a9 Z", "w0-3 w4-5"),
    ("a1b2", "w0-4"),
    ("\u{e9}", "!0"),
    ("a\u{e9}", "w0-1 !1"),
    ("a-\u{e9}", "w0-1 s1-2 !2"),
    ("\u{20ac}", "!0"),
    ("1\u{1f600}", "i0-1[1] !1"),
    ("\0", "!0"),
    ("a $b", "w0-1 !2"),
    ("a @", "w0-1 !2"),
    ("~", "!0"),
    ("a\u{b}b", "w0-1 !1"),
    ("// comment", ""),
    ("a//b\nc", "w0-1 w5-6"),
    ("a//b\rc", "w0-1"),
    ("// \u{e9} \" '\nx", "w10-11"),
    ("/**/", ""),
    ("/* a */b", "w7-8"),
    ("/*/", "!0"),
    ("a /* b", "w0-1 !2"),
    ("/*/*/", ""),
    ("/***/1", "i5-6[1]"),
    ("/* \u{e9}\n*/ /", "s9-10"),
    ("0", "i0-1[0]"),
    ("7", "i0-1[7]"),
    ("10", "i0-2[10]"),
    ("00", "!0"),
    ("01", "!0"),
    ("9223372036854775807", "i0-19[9223372036854775807]"),
    ("9223372036854775808", "m0-19"),
    ("9223372036854775809", "!0"),
    ("18446744073709551616", "!0"),
    ("0x7fffffffffffffff", "i0-18[9223372036854775807]"),
    ("0x8000000000000000", "m0-18"),
    ("0x8000000000000001", "!0"),
    ("0x000000000000000000001F", "i0-24[31]"),
    ("0x", "!0"),
    ("0X1", "!0"),
    ("0xfg", "!0"),
    ("1a", "!0"),
    ("- 1_", "s0-1 !2"),
    ("1.2", "i0-1[1] s1-2 i2-3[2]"),
    ("1..2", "i0-1[1] s1-3 i3-4[2]"),
    ("...", "s0-2 s2-3"),
    ("<=<>=<", "s0-2 s2-4 s4-5 s5-6"),
    (">=>><", "s0-2 s2-3 s3-4 s4-5"),
    ("<-[]->", "s0-1 s1-2 s2-3 s3-4 s4-5 s5-6"),
    (
        "(){},;:|+*/%=",
        "s0-1 s1-2 s2-3 s3-4 s4-5 s5-6 s6-7 s7-8 s8-9 s9-10 s10-11 s11-12 s12-13",
    ),
    ("``", "!0"),
    ("``a`", "!0"),
    ("`a`", "q0-3[a]"),
    ("`a``b`", "q0-6[a`b]"),
    ("`` ` `", "!0"),
    ("`\\n \u{e9}'`x", "q0-8[\\n \u{e9}'] w8-9"),
    ("'a' \"b\"", "t0-3[a] t4-7[b]"),
    ("'\"' \"'`\"", "t0-3[\"] t4-8['`]"),
    (
        "'\\\\\\'\\\"\\b\\f\\n\\r\\t'",
        "t0-18[\\'\"\u{8}\u{c}\n\r\t]",
    ),
    ("'\\u00e9\\U0001F600'", "t0-18[\u{e9}\u{1f600}]"),
    ("x '\\ud800'", "w0-1 !2"),
    ("'\\U00110000' ", "!0"),
    ("1 'a\\x'", "i0-1[1] !2"),
    ("'\\u12g4'", "!0"),
    ("'abc", "!0"),
    ("'\\'", "!0"),
    ("'\\", "!0"),
    ("''", "t0-2[]"),
    ("'a\n\u{e9}'", "t0-6[a\n\u{e9}]"),
    ("`a", "!0"),
];

/// The tokens of a text, as the rows have them.
fn told(alloc: Global, text: &str) -> Result<String, NoMemory> {
    let mut out = String::new(alloc);
    match tokens(alloc, &Text::from_str(alloc, text)?) {
        Ok(tokens) => tell_all(&mut out, tokens)?,
        Err(TokenRefused::Place { place, before }) => {
            tell_all(&mut out, before)?;
            part(&mut out)?;
            write!(out, "!{place}")?;
        }
        Err(TokenRefused::NoMemory) => out.push_str("no memory")?,
    }
    Ok(out)
}

fn part(out: &mut String) -> Result<(), NoMemory> {
    if out.is_empty() {
        return Ok(());
    }
    out.push(' ')
}

fn tell_all(out: &mut String, tokens: Tokens) -> Result<(), NoMemory> {
    let mut tokens = tokens;
    for _ in 0..tokens.len() {
        if let Some(token) = tokens.pop_front() {
            part(out)?;
            tell(out, &token)?;
        }
    }
    Ok(())
}

fn tell(out: &mut String, token: &Token) -> Result<(), NoMemory> {
    let (from, to) = (token.from, token.to);
    match &token.what {
        What::Word => write!(out, "w{from}-{to}"),
        What::Quoted(name) => {
            let name = name.as_str();
            write!(out, "q{from}-{to}[{name}]")
        }
        What::Int(n) => write!(out, "i{from}-{to}[{n}]"),
        What::IntMin => write!(out, "m{from}-{to}"),
        What::Text(text) => {
            let text = text.as_str();
            write!(out, "t{from}-{to}[{text}]")
        }
        What::Sign => write!(out, "s{from}-{to}"),
    }
}

/// Whether a text is read as a row says.
fn reads(alloc: Global, text: &str, wanted: &str) -> Result<bool, NoMemory> {
    Ok(told(alloc, text)?.as_str() == wanted)
}

#[test]
fn texts_and_their_tokens(rt: HostRuntime) -> Result<(), Fail> {
    for (text, wanted) in ROWS.iter() {
        assert!(rt; reads(rt.alloc(), text, wanted)?, "{text:?}");
    }
    Ok(())
}

/// A text that begins with one, and goes on with so many of another.
fn long(alloc: Global, first: &str, piece: &str, times: usize) -> Result<Text, NoMemory> {
    let mut text = String::from_str(alloc, first)?;
    for _ in 0..times {
        text.push_str(piece)?;
    }
    Ok(Text::from_string(text))
}

/// How many tokens there are, and the place of the fault.
fn counted(alloc: Global, text: &Text) -> (usize, Option<u64>) {
    match tokens(alloc, text) {
        Ok(tokens) => (tokens.len(), None),
        Err(TokenRefused::Place { place, before }) => (before.len(), Some(place)),
        Err(TokenRefused::NoMemory) => (0, None),
    }
}

#[test]
fn long_texts(rt: HostRuntime) -> Result<(), Fail> {
    text_is_its_tokens();
    let alloc = rt.alloc();
    assert!(rt; counted(alloc, &long(alloc, "", "(", 65536)?) == (65536, None));
    assert!(rt; counted(alloc, &long(alloc, "a '", "b", 65000)?) == (1, Some(2)));
    assert!(rt; counted(alloc, &long(alloc, "/*", "*", 65000)?) == (0, Some(0)));
    assert!(rt; counted(alloc, &long(alloc, "a", "b", 65000)?) == (1, None));
    assert!(rt; counted(alloc, &long(alloc, "", "``", 32000)?) == (1, None));
    assert!(rt; counted(alloc, &long(alloc, "", "1 ", 32000)?) == (32000, None));
    Ok(())
}
