use super::*;
use std::fmt::Write;
use txn_manager::CLOCK_END;
use world_model::ID_END;

/// Where a store begins: its clock, and the numbers of the next vertex and the next edge.
type From = (u64, u64, u64);

/// A run: its name, where its store begins, its lines, and the lines that answer them.
type Row = (&'static str, From, &'static str, &'static str);

static ROWS: [Row; 6] = [
    (
        "the last vertex",
        (1, 4611686018427387903, 0),
        r#"1 begin
1 vertex
1 vertex
1 read v4611686018427387903 own
1 edge v4611686018427387903 T v4611686018427387903
1 next vertex after 4611686018427387902 own
1 next vertex after 9223372036854775807 own"#,
        r#"1 begin 1
1 v4611686018427387903
1 refused 10 id end
1 {"id":4611686018427387903,"ins":[],"labels":[],"outs":[],"properties":{}}
1 e0
1 v4611686018427387903
1 none
"#,
    ),
    (
        "no vertex is left",
        (1, 4611686018427387904, 0),
        r#"1 begin
1 vertex
1 abort
1 vertex"#,
        r#"1 begin 1
1 refused 10 id end
1 abort
1 refused 1 no transaction
"#,
    ),
    (
        "the last edge",
        (1, 0, 4611686018427387903),
        r#"1 begin
1 vertex
1 edge v0 T v0
1 edge v0 T v0
1 edge v9 T v0
1 delete e4611686018427387903
1 edge v0 T v0
1 vertex"#,
        r#"1 begin 1
1 v0
1 e4611686018427387903
1 refused 10 id end
1 refused 3 missing v9
1 done
1 refused 10 id end
1 v1
"#,
    ),
    (
        "a conflict comes before the end of the ids",
        (1, 0, 4611686018427387904),
        r#"1 begin
1 vertex
1 commit
1 begin
2 begin
2 label v0 P
1 edge v0 T v0
2 edge v0 T v0"#,
        r#"1 begin 1
1 v0
1 commit 2
1 begin 3
2 begin 4
2 done
1 refused 4 conflict v0 open 4
2 refused 10 id end
"#,
    ),
    (
        "the last start",
        (4611686018427387902, 0, 0),
        r#"1 begin
1 begin
2 begin
1 vertex
1 commit
1 begin
1 mark"#,
        r#"1 begin 4611686018427387902
1 refused 2 already open
2 refused 7 clock end
1 v0
1 commit 4611686018427387903
1 refused 7 clock end
1 mark 4611686018427387904 clock 4611686018427387904
"#,
    ),
    (
        "no start is left",
        (4611686018427387904, 0, 0),
        r#"1 begin
1 mark
1 commit"#,
        r#"1 refused 7 clock end
1 mark 4611686018427387904 clock 4611686018427387904
1 refused 1 no transaction
"#,
    ),
];

/// Appends the answer to the line.
fn push_answer(
    alloc: Global,
    shell: &mut Shell,
    line: &str,
    all: &mut String,
) -> Result<(), NoMemory> {
    let mut reply = String::new(alloc);
    answer_line(alloc, shell, line.as_bytes(), &mut reply)?;
    all.push_str(reply.as_str())
}

/// The answers to the lines, one behind the other.
fn answers(alloc: Global, shell: &mut Shell, lines: &str) -> Result<String, NoMemory> {
    let mut all = String::new(alloc);
    for line in lines.split('\n') {
        push_answer(alloc, shell, line, &mut all)?;
    }
    Ok(all)
}

/// Whether the lines are answered so, and no other way.
fn are_answered(
    alloc: Global,
    shell: &mut Shell,
    lines: &str,
    wanted: &str,
) -> Result<bool, NoMemory> {
    Ok(answers(alloc, shell, lines)?.as_str() == wanted)
}

/// Whether the row's store may begin there, and its lines are answered so.
fn is_answered_from(alloc: Global, row: &Row) -> Result<bool, NoMemory> {
    let (clock, vertices, edges) = row.1;
    if clock < 1 || clock > CLOCK_END || vertices > ID_END || edges > ID_END {
        return Ok(false);
    }
    let mut shell = Shell::new_at(alloc, 1, clock, vertices, edges)?;
    are_answered(alloc, &mut shell, row.2, row.3)
}

#[test]
fn counters_end(rt: HostRuntime) -> Result<(), Fail> {
    for row in &ROWS {
        assert!(rt; is_answered_from(rt.alloc(), row)?, "{}", row.0);
    }
    Ok(())
}

/// Begins a transaction of the caller.
fn begin(
    alloc: Global,
    shell: &mut Shell,
    caller: u64,
    reply: &mut String,
) -> Result<(), NoMemory> {
    let mut line = String::new(alloc);
    write!(&mut line, "{caller} begin")?;
    answer_line(alloc, shell, line.as_bytes(), reply)
}

/// Begins transactions of 1024 callers, and says whether the last is answered as it has to be.
fn all_begin(alloc: Global, shell: &mut Shell) -> Result<bool, NoMemory> {
    let mut reply = String::new(alloc);
    for caller in 0..1024 {
        begin(alloc, shell, caller, &mut reply)?;
    }
    Ok(reply.as_str() == "1023 begin 1024\n")
}

/// Whether so many transactions may be open, and another one once one of them has ended.
fn places_end(alloc: Global, shell: &mut Shell) -> Result<bool, NoMemory> {
    Ok(
        all_begin(alloc, shell)?
            && are_answered(
                alloc,
                shell,
                "1024 begin\n3 begin\n3 abort\n1024 begin",
                "1024 refused 9 too many\n3 refused 2 already open\n3 abort\n1024 begin 1025\n",
            )?,
    )
}

fn places_end_at_once(alloc: Global) -> Result<bool, NoMemory> {
    let mut shell = Shell::new(alloc, 1)?;
    places_end(alloc, &mut shell)
}

#[test]
fn transactions_are_too_many(rt: HostRuntime) -> Result<(), Fail> {
    assert!(rt; places_end_at_once(rt.alloc())?);
    Ok(())
}
