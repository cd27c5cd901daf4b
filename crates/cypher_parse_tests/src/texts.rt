use cypher_parse::{ParseRefused, one_answer, one_tree, only_the_tree, parse};
use graph_value::{NoMemory, Text};
use std::alloc::Global;
use std::test::Fail;

/// Texts, and where their first fault is, if they have one.
static ROWS: [(&str, Option<u64>); 16] = [
    ("RETURN 1", None),
    (
        "match (n)<-[:A|`x y`]-(m:End {b: 0x1F}) where n.c in [1] return n, m.key as k skip 1;",
        None,
    ),
    (
        "UNWIND [1, 2] AS x WITH x, x + 1 AS y WHERE y > 2 SET x.a = 3 RETURN x TT BETWEEN 1 AND 2",
        None,
    ),
    ("CREATE (a)-[:B {c: null}]->(d) // e", None),
    ("RETURN -9223372036854775808", None),
    ("RETURN 1 - 9223372036854775808", Some(11)),
    ("MATCH (n RETURN n", Some(9)),
    ("RETURN 1 1", Some(9)),
    ("RETURN", Some(6)),
    ("", Some(0)),
    ("/* nothing */", Some(13)),
    ("RETURN '\u{e9}' \u{e9} 1", Some(12)),
    ("RETURN 01 +", Some(7)),
    ("WITH (a) RETURN a", Some(9)),
    ("MATCH (a)-[b*]-(c) RETURN a", Some(12)),
    ("RETURN `count`(1)", Some(14)),
];

fn refusal(alloc: Global, text: &Text) -> Option<ParseRefused> {
    parse(alloc, text).err()
}

/// Whether this is the answer: a tree, or a fault of syntax at the place.
fn answers(alloc: Global, text: &str, wanted: Option<u64>) -> Result<bool, NoMemory> {
    let found = refusal(alloc, &Text::from_str(alloc, text)?);
    Ok(match wanted {
        Some(place) => found == Some(ParseRefused::Syntax { place }),
        None => found == None,
    })
}

#[test]
fn texts_and_their_first_faults(rt: HostRuntime) -> Result<(), Fail> {
    for (text, wanted) in ROWS.iter() {
        assert!(rt; answers(rt.alloc(), text, *wanted)?, "{text:?}");
    }
    Ok(())
}

/// RETURN 1 between so many parentheses.
fn nested(alloc: Global, times: usize) -> Result<Text, NoMemory> {
    let mut text = String::from_str(alloc, "RETURN ")?;
    for _ in 0..times {
        text.push('(')?;
    }
    text.push('1')?;
    for _ in 0..times {
        text.push(')')?;
    }
    Ok(Text::from_string(text))
}

#[test]
fn at_most_64_open(rt: HostRuntime) -> Result<(), Fail> {
    only_the_tree();
    one_tree();
    one_answer();
    let alloc = rt.alloc();
    assert!(rt; refusal(alloc, &nested(alloc, 64)?) == None);
    assert!(rt; refusal(alloc, &nested(alloc, 65)?) == Some(ParseRefused::TooDeep { place: 71 }));
    assert!(rt;
        refusal(alloc, &nested(alloc, 30000)?) == Some(ParseRefused::TooDeep { place: 71 })
    );
    Ok(())
}
