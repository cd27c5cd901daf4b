//! The texts of faults.
ghost use Rattle.std.specs.Prelude.{◌≡◌, ◌++◌, OnOk, string_bytes};
ghost use Rattle.json.specs.Print.{quoted};
ghost use Rattle.query_reply.specs.Faults.{check_text, fault_text, parse_text};

use crate::Fault;
use cypher_check::CheckRefused;
use cypher_parse::ParseRefused;
use graph_value::{Name, NoMemory};
use json::Writer;
use std::alloc::Global;
use std::fmt::Write;
use std::mem;

/// Appends the text of a fault, under its number.
///
/// The error says that memory was wanting; a part of what is appended may then stand in the text.
pub fn push_fault(alloc: Global, out: &mut String, why: &Fault) -> Result<(), NoMemory>
    ensures ok { OnOk result (string_bytes out.new ≡ string_bytes out.old ++ fault_text why.now) }
{
    match why {
        Fault::Parse(why) => push_parse(out, *why),
        Fault::Check(why) => push_check(alloc, out, why),
    }
}

fn push_parse(out: &mut String, why: ParseRefused) -> Result<(), NoMemory>
    ensures ok { OnOk result (string_bytes out.new ≡ string_bytes out.old ++ parse_text why) }
{
    match why {
        ParseRefused::Syntax { place } => write!(out, "ERR 2 syntax at {place}"),
        ParseRefused::TooDeep { place } => write!(out, "ERR 4 shape too deep at {place}"),
        ParseRefused::NoMemory => out.push_str("ERR 16 no memory"),
    }
}

fn push_check(alloc: Global, out: &mut String, why: &CheckRefused) -> Result<(), NoMemory>
    ensures ok { OnOk result (string_bytes out.new ≡ string_bytes out.old ++ check_text why.now) }
{
    match why {
        CheckRefused::TtWrites => out.push_str("ERR 4 shape write under TT"),
        CheckRefused::BetweenShape => out.push_str("ERR 4 shape not a TT BETWEEN query"),
        CheckRefused::Unbound(name) => {
            out.push_str("ERR 3 unbound ")?;
            push_quoted(alloc, out, name)
        }
        CheckRefused::Redeclared(name) => {
            out.push_str("ERR 4 shape redeclared ")?;
            push_quoted(alloc, out, name)
        }
        CheckRefused::AggregatePlace => out.push_str("ERR 4 shape aggregate place"),
        CheckRefused::NoMemory => out.push_str("ERR 16 no memory"),
    }
}

/// Appends a name as a string of JSON.
fn push_quoted(alloc: Global, out: &mut String, name: &Name) -> Result<(), NoMemory>
    ensures ok { OnOk result (string_bytes out.new ≡ string_bytes out.old ++ quoted name.now) }
{
    let before = mem::replace(out, String::new(alloc));
    let mut writer = Writer::new(before.into_bytes());
    let written = writer.string(name.as_str());
    match String::from_utf8(writer.into_inner()) {
        Ok(after) => *out = after,
        Err(_) => unreachable!(),
    }
    written
}
