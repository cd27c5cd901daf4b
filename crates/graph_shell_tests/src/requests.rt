use crate::told::told;
use event_lines::{NoMemory, is_skipped, read_request};
use std::alloc::Global;
use std::test::Fail;

/// A line, and the request that it is, in other words.
type Row = (&'static str, &'static str);

/// Whether the line is this request.
fn is_told(alloc: Global, row: &Row) -> Result<bool, NoMemory> {
    Ok(told(alloc, row.0.as_bytes())?.as_str() == row.1)
}

/// The first of the lines that isn't its request.
fn first_untold(alloc: Global, rows: &[Row]) -> Result<Option<&'static str>, NoMemory> {
    for row in rows {
        if !is_told(alloc, row)? {
            return Ok(Some(row.0));
        }
    }
    Ok(None)
}

/// Whether the line is no request.
fn is_refused(alloc: Global, line: &[u8]) -> Result<bool, NoMemory> {
    Ok(read_request(alloc, line)?.is_none())
}

/// The first of the lines that is a request.
fn first_taken(alloc: Global, lines: &[&'static str]) -> Result<Option<&'static str>, NoMemory> {
    for line in lines {
        if !is_refused(alloc, line.as_bytes())? {
            return Ok(Some(*line));
        }
    }
    Ok(None)
}

static PLAIN: [Row; 9] = [
    ("1 begin", "1: opens"),
    ("0 begin", "0: opens"),
    ("4294967295 begin", "4294967295: opens"),
    ("7 vertex", "7: new"),
    ("7 commit", "7: commits"),
    ("7 abort", "7: aborts"),
    ("7 mark", "7: marks"),
    ("10 mark", "10: marks"),
    ("7 stats", "7: counts"),
];

#[test]
fn reads_plain_verbs(rt: HostRuntime) -> Result<(), Fail> {
    assert_eq!(rt; first_untold(rt.alloc(), &PLAIN)?, None);
    Ok(())
}

static MOVES: [Row; 4] = [
    ("1 lift v0", "1: lifts vertex 0"),
    ("1 lift e7", "1: lifts edge 7"),
    ("1 install v0", "1: moves vertex 0"),
    (
        "1 install e9223372036854775807",
        "1: moves edge 9223372036854775807",
    ),
];

static NO_MOVES: [&'static str; 8] = [
    "1 lift",
    "1 lift v0 v1",
    "1 lift v0 ",
    "1 lift x0",
    "1 install",
    "1 install v0 5",
    "1 install v00",
    "1 stats v0",
];

#[test]
fn reads_lifts_and_installations(rt: HostRuntime) -> Result<(), Fail> {
    assert_eq!(rt; first_untold(rt.alloc(), &MOVES)?, None);
    assert_eq!(rt; first_taken(rt.alloc(), &NO_MOVES)?, None);
    Ok(())
}

static READS: [Row; 10] = [
    ("1 read v0 own", "1: vertex 0 now"),
    ("1 read e10 own", "1: edge 10 now"),
    ("1 read v0 at 0", "1: vertex 0 then 0"),
    (
        "1 read e9223372036854775807 at 9223372036854775807",
        "1: edge 9223372036854775807 then 9223372036854775807",
    ),
    ("1 next vertex first own", "1: vertices now"),
    ("1 next edge first own", "1: edges now"),
    ("1 next edge first at 7", "1: edges then 7"),
    ("1 next vertex after 0 own", "1: vertices above 0 now"),
    ("1 next edge after 3 at 7", "1: edges above 3 then 7"),
    (
        "1 next vertex after 9223372036854775807 own",
        "1: vertices above 9223372036854775807 now",
    ),
];

#[test]
fn reads_reads(rt: HostRuntime) -> Result<(), Fail> {
    assert_eq!(rt; first_untold(rt.alloc(), &READS)?, None);
    Ok(())
}

static WRITES: [Row; 9] = [
    ("1 delete v0", "1: no vertex 0 "),
    ("1 delete e12", "1: no edge 12 "),
    ("1 label v0 P", "1: mark vertex 0 P"),
    ("1 label v3 label", "1: mark vertex 3 label"),
    ("1 unlabel v0 _9", "1: bare vertex 0 _9"),
    ("1 edge v0 T v1", "1: T from 0 to 1"),
    ("1 edge v7 edge v7", "1: edge from 7 to 7"),
    (
        "1 edge v9223372036854775807 MATCH v0",
        "1: MATCH from 9223372036854775807 to 0",
    ),
    ("1 set v0 commit 1", "1: vertex 0 commit: 1"),
];

#[test]
fn reads_writes(rt: HostRuntime) -> Result<(), Fail> {
    assert_eq!(rt; first_untold(rt.alloc(), &WRITES)?, None);
    Ok(())
}

static VALUES: [Row; 20] = [
    ("1 set v5 k 1", "1: vertex 5 k: 1"),
    ("1 set e5 _k9 0", "1: edge 5 _k9: 0"),
    (
        "1 set v0 k 9223372036854775807",
        "1: vertex 0 k: 9223372036854775807",
    ),
    (
        "1 set v0 k -9223372036854775808",
        "1: vertex 0 k: -9223372036854775808",
    ),
    ("1 set v0 k null", "1: vertex 0 k: null"),
    ("1 set v0 k true", "1: vertex 0 k: yes"),
    ("1 set e0 k false", "1: edge 0 k: no"),
    ("1 set v0 k \"\"", "1: vertex 0 k: <>"),
    ("1 set v0 k \" a  b \"", "1: vertex 0 k: < a  b >"),
    ("1 set v0 k \"\u{e9}\"", "1: vertex 0 k: <\u{e9}>"),
    ("1 set v0 k \"\\u00e9\"", "1: vertex 0 k: <\u{e9}>"),
    (
        "1 set v0 k \"\\ud83d\\ude00\"",
        "1: vertex 0 k: <\u{1f600}>",
    ),
    ("1 set v0 k \"\\u0000\"", "1: vertex 0 k: <\0>"),
    ("1 set v0 k \"\\n\\/\\\"\"", "1: vertex 0 k: <\n/\">"),
    ("1 set v0 k []", "1: vertex 0 k: ()"),
    ("1 set v0 k [ ]", "1: vertex 0 k: ()"),
    ("1 set v0 k [1,\"a\"]", "1: vertex 0 k: (1;<a>;)"),
    ("1 set v0 k [ 1 ,  -2\t]", "1: vertex 0 k: (1;-2;)"),
    ("1 set v0 k [true,false]", "1: vertex 0 k: (yes;no;)"),
    ("1 set v0 k [\"a b\", \"]\"]", "1: vertex 0 k: (<a b>;<]>;)"),
];

#[test]
fn reads_values(rt: HostRuntime) -> Result<(), Fail> {
    assert_eq!(rt; first_untold(rt.alloc(), &VALUES)?, None);
    Ok(())
}

static NO_WORDS: [&str; 24] = [
    "",
    "1",
    "1 ",
    " 1 begin",
    "01 begin",
    "4294967296 begin",
    "18446744073709551617 begin",
    "-1 begin",
    "+1 begin",
    "1  begin",
    "1 begin ",
    "1 begin now",
    "1 Begin",
    "1\tbegin",
    "1 begin\r",
    "1 mark 1",
    "1 abort v0",
    "1 read",
    "1 next",
    "1 set",
    "1 set ",
    "1 delete",
    "1 edge",
    "2 jump",
];

#[test]
fn refuses_other_words(rt: HostRuntime) -> Result<(), Fail> {
    assert_eq!(rt; first_taken(rt.alloc(), &NO_WORDS)?, None);
    Ok(())
}

static NO_READS: [&str; 24] = [
    "1 read v0",
    "1 read v0 own ",
    "1 read v00 own",
    "1 read V0 own",
    "1 read x0 own",
    "1 read v own",
    "1 read v9223372036854775808 own",
    "1 read v0 at",
    "1 read v0 at 01",
    "1 read v0 at -1",
    "1 read v0 at 9223372036854775808",
    "1 read v0 own 1",
    "1 next first own",
    "1 next node first own",
    "1 next vertex own",
    "1 next vertex first",
    "1 next vertex first 1 own",
    "1 next vertex after own",
    "1 next vertex after 0",
    "1 next vertex after v0 own",
    "1 next vertex after 00 own",
    "1 next vertex after 9223372036854775808 own",
    "1 next vertex after 0 at",
    "1 next vertex after 0 at 1 own",
];

#[test]
fn refuses_other_reads(rt: HostRuntime) -> Result<(), Fail> {
    assert_eq!(rt; first_taken(rt.alloc(), &NO_READS)?, None);
    Ok(())
}

static NO_WRITES: [&str; 20] = [
    "1 delete",
    "1 delete 0",
    "1 delete v0 v1",
    "1 label e0 P",
    "1 label v0",
    "1 label v0 P Q",
    "1 label v0 1P",
    "1 label v0 P-Q",
    "1 label v0 `P`",
    "1 label v0 ",
    "1 unlabel e0 P",
    "1 unlabel v0 \"P\"",
    "1 edge v0 T e1",
    "1 edge e0 T v1",
    "1 edge v0 v1",
    "1 edge v0  v1",
    "1 edge v0 T v1 x",
    "1 edge v0 T v01",
    "1 vertex v0",
    "1 commit 1",
];

#[test]
fn refuses_other_writes(rt: HostRuntime) -> Result<(), Fail> {
    assert_eq!(rt; first_taken(rt.alloc(), &NO_WRITES)?, None);
    Ok(())
}

static NO_VALUES: [&str; 30] = [
    "1 set v0 k",
    "1 set v0 k ",
    "1 set v0 k  1",
    "1 set v0 k 1 ",
    "1 set v0 k 1\t",
    "1 set v0 k 1\r",
    "1 set v0  1",
    "1 set v0 1k 1",
    "1 set v0 k-l 1",
    "1 set v0 k\u{e9} 1",
    "1 set v9223372036854775808 k 1",
    "1 set v0 k -0",
    "1 set v0 k 00",
    "1 set v0 k 1.0",
    "1 set v0 k 1e1",
    "1 set v0 k +1",
    "1 set v0 k -",
    "1 set v0 k 9223372036854775808",
    "1 set v0 k -9223372036854775809",
    "1 set v0 k 18446744073709551616",
    "1 set v0 k True",
    "1 set v0 k {}",
    "1 set v0 k [null]",
    "1 set v0 k [[1]]",
    "1 set v0 k [1,]",
    "1 set v0 k [1] 2",
    "1 set v0 k \"a",
    "1 set v0 k \"\\ud800\"",
    "1 set v0 k \"\t\"",
    "1 set v0 k 'a'",
];

#[test]
fn refuses_other_values(rt: HostRuntime) -> Result<(), Fail> {
    assert_eq!(rt; first_taken(rt.alloc(), &NO_VALUES)?, None);
    Ok(())
}

static NO_TEXTS: [&[u8]; 4] = [
    b"1 set v0 k\xff 1",
    b"1 set v0 k \"\xff\"",
    b"1 set v0 k \"\xc3\"",
    b"1 label v0 \xff",
];

#[test]
fn refuses_bytes_that_are_no_text(rt: HostRuntime) -> Result<(), Fail> {
    for line in &NO_TEXTS {
        assert!(rt; is_refused(rt.alloc(), line)?);
    }
    Ok(())
}

/// A line, and whether it is passed over.
static SKIPPED: [(&str, bool); 7] = [
    ("", true),
    ("  \t ", true),
    ("# 1 begin", true),
    ("#", true),
    (" #", false),
    ("1 begin", false),
    ("\r", false),
];

#[test]
fn skips_lines(rt: HostRuntime) {
    for (line, wanted) in &SKIPPED {
        assert!(rt; is_skipped(line.as_bytes()) == *wanted, "at {line}");
    }
}
