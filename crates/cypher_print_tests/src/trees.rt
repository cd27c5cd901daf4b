use cypher_parse::parse;
use cypher_print::{
    labels_are_read_back, least_magnitude_is_read_back, long_signs_are_read_back,
    names_are_read_back, numbers_are_read_back, patterns_are_read_back, print_query,
    printing_keeps_expressions, printing_keeps_the_tree, queries_are_read_back,
    readings_are_read_back, schema_names_are_read_back, signs_are_read_back, spaces_are_passed,
    texts_are_read_back, updates_are_read_back, words_are_read_back,
};
use graph_value::{NoMemory, Text};
use std::alloc::Global;
use std::test::Fail;

/// Texts, and the printed forms of their trees.
static ROWS: [(&str, &str); 9] = [
    ("return 1", "RETURN 1 ;"),
    (
        "match (n)<-[:A|`x y`]-(m:End {b: 0x1F}) where n.c in [1] return n, m.key as k skip 1;",
        "MATCH (n)<-[:A|`x y`]-(m:End{b: 31}) WHERE n.c IN [1] RETURN n, m.key AS k SKIP 1 ;",
    ),
    (
        "RETURN ((1 + 2)) * -(3), not (true or false)",
        "RETURN (1 + 2) * -3, NOT (TRUE OR FALSE) ;",
    ),
    (
        "RETURN -9223372036854775808, - -1",
        "RETURN -9223372036854775808, --1 ;",
    ),
    (
        "RETURN 1 - (2 - 3) - 4, (1 < 2) = (3 IS NULL)",
        "RETURN 1 - (2 - 3) - 4, (1 < 2) = 3 IS NULL ;",
    ),
    (
        "UNWIND [1, \"it's\n\"] AS x WITH DISTINCT x, x AS `match` ORDER BY x DESC LIMIT 2 WHERE x STARTS WITH 'a' OPTIONAL MATCH (x)--() RETURN *",
        "UNWIND [1, 'it\\'s\\n'] AS x WITH DISTINCT x, x AS `match` ORDER BY x DESC LIMIT 2 WHERE x STARTS WITH 'a' OPTIONAL MATCH (x)-[]-() RETURN * ;",
    ),
    (
        "CREATE (a:L {})-[:R]->() SET a.k = case 1 when 1 then [] else count(*) end, a:M:N REMOVE a.`end`, a:M DETACH DELETE a",
        "CREATE (a:L{})-[:R]->() SET a.k = CASE 1 WHEN 1 THEN [] ELSE count(*) END, a:M:N REMOVE a.end, a:M DETACH DELETE a ;",
    ),
    (
        "match (a) return (a.b[0]):C:D, (-a).k, sum(distinct a.k) tt between 1 and 2",
        "MATCH (a) RETURN (a.b[0]):C:D, (-a).k, sum(DISTINCT a.k) TT BETWEEN 1 AND 2 ;",
    ),
    (
        "match (`a ``b`:`x y`) return `a ``b`, `match`.`where`, '\u{e9}'",
        "MATCH (`a ``b`:`x y`) RETURN `a ``b`, `match`.where, '\u{e9}' ;",
    ),
];

/// The printed form of a text's tree, if it has one.
fn printed(alloc: Global, text: &str) -> Result<Option<Text>, NoMemory> {
    match parse(alloc, &Text::from_str(alloc, text)?) {
        Ok(tree) => Ok(Some(print_query(alloc, &tree)?)),
        Err(_) => Ok(None),
    }
}

fn prints(alloc: Global, text: &str, wanted: &str) -> Result<bool, NoMemory> {
    let found = printed(alloc, text)?;
    Ok(match found {
        Some(text) => text.as_str() == wanted,
        None => false,
    })
}

/// Each printed form is read as a tree that is printed so too.
#[test]
fn printed_forms_of_trees(rt: HostRuntime) -> Result<(), Fail> {
    let alloc = rt.alloc();
    for (text, wanted) in ROWS.iter() {
        assert!(rt; prints(alloc, text, wanted)?, "{text:?}");
        assert!(rt; prints(alloc, wanted, wanted)?, "{wanted:?}");
    }
    names_are_read_back();
    schema_names_are_read_back();
    texts_are_read_back();
    numbers_are_read_back();
    least_magnitude_is_read_back();
    words_are_read_back();
    signs_are_read_back();
    long_signs_are_read_back();
    spaces_are_passed();
    labels_are_read_back();
    patterns_are_read_back();
    readings_are_read_back();
    updates_are_read_back();
    queries_are_read_back();
    printing_keeps_expressions();
    printing_keeps_the_tree();
    Ok(())
}
