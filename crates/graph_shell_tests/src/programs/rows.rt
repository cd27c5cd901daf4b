use super::*;

/// A run: its name, its lines, and the lines that answer them.
type Row = (&'static str, &'static str, &'static str);

static ROWS: [Row; 12] = [
    (
        "edges, labels and an abort",
        r#"1 begin
1 vertex
1 vertex
1 edge v0 T v1
1 set e0 w [1,"a"]
1 commit
1 begin
1 delete v0
1 label v0 P
1 delete e0
2 begin
2 read e0 own
2 set v1 k 1
1 vertex
1 abort
2 read v0 own
2 vertex
2 edge v0 T v2
2 commit
2 mark
3 begin
3 read v0 at 1
3 next vertex after 1 own
"#,
        r#"1 begin 1
1 v0
1 v1
1 e0
1 done
1 commit 2
1 begin 3
1 refused 5 has edges v0
1 done
1 done
2 begin 4
2 {"from":0,"id":0,"properties":{"w":[1,"a"]},"to":1,"type":"T"}
2 refused 4 conflict v1 open 3
1 v2
1 abort
2 {"id":0,"ins":[],"labels":[],"outs":[0],"properties":{}}
2 v3
2 refused 3 missing v2
2 commit 5
2 mark 6 clock 6
3 begin 6
3 dead
3 v3
"#,
    ),
    (
        "views and refusals",
        r#"1 begin
1 vertex
1 set v0 k 1
1 set v0 k 1
2 begin
2 read v0 own
1 commit
2 set v0 k 7
2 read v0 at 3
2 abort
2 abort
2 begin
2 next vertex first own
2 next vertex after 0 own
2 jump
"#,
        r#"1 begin 1
1 v0
1 done
1 unchanged
2 begin 2
2 dead
1 commit 3
2 refused 3 missing v0
2 refused 6 time ahead 3 start 2
2 abort
2 refused 1 no transaction
2 begin 4
2 v0
2 none
- refused 12 bad line
"#,
    ),
    (
        "two callers write one vertex",
        r#"1 begin
1 vertex
1 set v0 k 1
1 read v0 own
2 begin
2 set v0 k 2
1 commit
2 commit
1 begin
2 begin
1 set v0 k 2
2 set v0 k 3
1 commit
2 set v0 k 3
2 read v0 own
3 commit
3 jump
"#,
        r#"1 begin 1
1 v0
1 done
1 {"id":0,"ins":[],"labels":[],"outs":[],"properties":{"k":1}}
2 begin 2
2 refused 3 missing v0
1 commit 3
2 commit 2
1 begin 4
2 begin 5
1 done
2 refused 4 conflict v0 open 4
1 commit 6
2 refused 4 conflict v0 committed 6
2 {"id":0,"ins":[],"labels":[],"outs":[],"properties":{"k":1}}
3 refused 1 no transaction
- refused 12 bad line
"#,
    ),
    (
        "an edge from a vertex to itself",
        r#"1 begin
1 vertex
1 edge v0 T v0
1 read v0 own
1 read e0 own
1 delete v0
1 commit
1 begin
1 delete e0
1 read v0 own
1 delete v0
1 commit
1 begin
1 next vertex first own
1 read e0 at 3
1 read e0 own
"#,
        r#"1 begin 1
1 v0
1 e0
1 {"id":0,"ins":[0],"labels":[],"outs":[0],"properties":{}}
1 {"from":0,"id":0,"properties":{},"to":0,"type":"T"}
1 refused 5 has edges v0
1 commit 2
1 begin 3
1 done
1 {"id":0,"ins":[],"labels":[],"outs":[],"properties":{}}
1 done
1 commit 4
1 begin 5
1 none
1 {"from":0,"id":0,"properties":{},"to":0,"type":"T"}
1 dead
"#,
    ),
    (
        "made and deleted in one transaction",
        r#"1 begin
1 vertex
1 set v0 k 1
1 label v0 P
1 delete v0
1 read v0 own
1 delete v0
1 set v0 k 2
1 vertex
1 edge v1 T v1
1 delete e0
1 edge v1 T v1
1 commit
1 begin
1 next vertex first own
1 next edge first own
1 next edge after 1 own
"#,
        r#"1 begin 1
1 v0
1 done
1 done
1 done
1 dead
1 refused 3 missing v0
1 refused 3 missing v0
1 v1
1 e0
1 done
1 e1
1 commit 2
1 begin 3
1 v1
1 e1
1 none
"#,
    ),
    (
        "an abort after each kind of write",
        r#"1 begin
1 vertex
1 vertex
1 vertex
1 edge v0 T v1
1 label v0 P
1 set v0 k 1
1 set e0 w "a"
1 commit
1 begin
1 vertex
1 abort
1 begin
1 edge v0 T v1
1 abort
1 begin
1 delete e0
1 abort
1 begin
1 delete v2
1 abort
1 begin
1 label v0 Q
1 abort
1 begin
1 unlabel v0 P
1 abort
1 begin
1 set v0 k null
1 abort
1 begin
1 set e0 w true
1 abort
1 begin
1 read v0 own
1 read v1 own
1 read v2 own
1 read e0 own
1 vertex
1 edge v0 T v1
1 abort
1 mark
"#,
        r#"1 begin 1
1 v0
1 v1
1 v2
1 e0
1 done
1 done
1 done
1 commit 2
1 begin 3
1 v3
1 abort
1 begin 4
1 e1
1 abort
1 begin 5
1 done
1 abort
1 begin 6
1 done
1 abort
1 begin 7
1 done
1 abort
1 begin 8
1 done
1 abort
1 begin 9
1 done
1 abort
1 begin 10
1 done
1 abort
1 begin 11
1 {"id":0,"ins":[],"labels":["P"],"outs":[0],"properties":{"k":1}}
1 {"id":1,"ins":[0],"labels":[],"outs":[],"properties":{}}
1 {"id":2,"ins":[],"labels":[],"outs":[],"properties":{}}
1 {"from":0,"id":0,"properties":{"w":"a"},"to":1,"type":"T"}
1 v4
1 e2
1 abort
1 mark 12 clock 12
"#,
    ),
    (
        "each write that changes nothing",
        r#"1 begin
1 vertex
1 edge v0 T v0
1 label v0 P
1 label v0 P
1 unlabel v0 P
1 unlabel v0 P
1 set v0 k null
1 set v0 k "a"
1 set v0 k "\u0061"
1 set v0 k ["a", 1]
1 set v0 k [ "a",1 ]
1 set e0 w false
1 set e0 w false
1 commit
1 begin
1 label v0 P
1 unlabel v0 P
1 commit
"#,
        r#"1 begin 1
1 v0
1 e0
1 done
1 unchanged
1 done
1 unchanged
1 unchanged
1 done
1 unchanged
1 done
1 unchanged
1 done
1 unchanged
1 commit 2
1 begin 3
1 done
1 done
1 commit 4
"#,
    ),
    (
        "no transaction comes before all other reasons",
        r#"1 read v0 at 9
1 read e0 own
1 next edge after 0 at 9
1 vertex
1 edge v0 T v1
1 delete v0
1 label v0 P
1 unlabel v0 P
1 set v0 k 1
1 set e0 k 1
1 commit
1 abort
1 mark
1 begin
1 begin
"#,
        r#"1 refused 1 no transaction
1 refused 1 no transaction
1 refused 1 no transaction
1 refused 1 no transaction
1 refused 1 no transaction
1 refused 1 no transaction
1 refused 1 no transaction
1 refused 1 no transaction
1 refused 1 no transaction
1 refused 1 no transaction
1 refused 1 no transaction
1 refused 1 no transaction
1 mark 1 clock 1
1 begin 1
1 refused 2 already open
"#,
    ),
    (
        "what is missing comes before a conflict",
        r#"1 begin
1 vertex
1 vertex
1 commit
1 begin
2 begin
2 set v1 k 1
1 edge v9 T v1
1 edge v1 T v9
1 edge v0 T v1
1 edge v1 T v0
1 label v9 P
1 delete e9
1 label v1 P
2 commit
1 unlabel v1 P
1 read v1 own
"#,
        r#"1 begin 1
1 v0
1 v1
1 commit 2
1 begin 3
2 begin 4
2 done
1 refused 3 missing v9
1 refused 3 missing v9
1 refused 4 conflict v1 open 4
1 refused 4 conflict v1 open 4
1 refused 3 missing v9
1 refused 3 missing e9
1 refused 4 conflict v1 open 4
2 commit 5
1 refused 4 conflict v1 committed 5
1 {"id":1,"ins":[],"labels":[],"outs":[],"properties":{}}
"#,
    ),
    (
        "a conflict comes before edges",
        r#"1 begin
1 vertex
1 edge v0 T v0
1 commit
1 begin
2 begin
2 set v0 k 1
1 delete v0
1 delete e0
2 abort
1 delete v0
1 delete e0
1 delete v0
2 begin
2 delete v0
2 set e0 w 1
1 commit
2 delete v0
2 set e0 w 1
"#,
        r#"1 begin 1
1 v0
1 e0
1 commit 2
1 begin 3
2 begin 4
2 done
1 refused 4 conflict v0 open 4
1 refused 4 conflict v0 open 4
2 abort
1 refused 5 has edges v0
1 done
1 done
2 begin 5
2 refused 4 conflict v0 open 3
2 refused 4 conflict e0 open 3
1 commit 6
2 refused 4 conflict v0 committed 6
2 refused 4 conflict e0 committed 6
"#,
    ),
    (
        "the mark is the oldest start",
        r#"1 begin
2 begin
1 mark
3 mark
1 commit
3 mark
2 abort
3 mark
3 begin
3 vertex
3 commit
3 mark
"#,
        r#"1 begin 1
2 begin 2
1 mark 1 clock 3
3 mark 1 clock 3
1 commit 1
3 mark 2 clock 3
2 abort
3 mark 3 clock 3
3 begin 3
3 v0
3 commit 4
3 mark 5 clock 5
"#,
    ),
    (
        "searches at an instant",
        r#"1 begin
1 vertex
1 vertex
1 edge v0 T v1
1 commit
1 begin
1 delete e0
1 vertex
1 next edge first own
1 next edge first at 2
1 next edge first at 1
1 next vertex after 1 own
1 next vertex after 1 at 3
1 next vertex after 0 at 3
1 next vertex first at 4
1 read e0 at 3
"#,
        r#"1 begin 1
1 v0
1 v1
1 e0
1 commit 2
1 begin 3
1 done
1 v2
1 none
1 e0
1 none
1 v2
1 none
1 v1
1 refused 6 time ahead 4 start 3
1 {"from":0,"id":0,"properties":{},"to":1,"type":"T"}
"#,
    ),
];

/// Runs in which deltas are moved into history.
static HISTORIES: [Row; 4] = [
    (
        "a commit between a lift and the installation",
        r#"1 begin
1 vertex
1 set v0 k 5
1 commit
1 begin
1 set v0 k 6
1 commit
2 begin
1 lift v0
1 begin
1 set v0 k 7
1 commit
1 install v0
1 stats
2 read v0 own
2 read v0 at 3
2 read v0 at 1
1 lift v1
"#,
        r#"1 begin 1
1 v0
1 done
1 commit 2
1 begin 3
1 done
1 commit 4
2 begin 5
1 lifted v0 cut 0 mark 5 deltas 3
1 begin 6
1 done
1 commit 7
1 installed v0 cut 5
1 chain 1 history 3 blocks 3
2 {"id":0,"ins":[],"labels":[],"outs":[],"properties":{"k":6}}
2 {"id":0,"ins":[],"labels":[],"outs":[],"properties":{"k":5}}
2 dead
1 refused 3 missing v1
"#,
    ),
    (
        "a piece is kept by its caller, and sent once",
        r#"1 begin
1 vertex
1 commit
1 install v0
1 lift v0
2 install v0
1 install e0
1 install v0
1 install v0
"#,
        r#"1 begin 1
1 v0
1 commit 2
1 refused 13 no piece
1 lifted v0 cut 0 mark 3 deltas 1
2 refused 13 no piece
1 refused 13 no piece
1 installed v0 cut 3
1 refused 13 no piece
"#,
    ),
    (
        "the later of two pieces is stale, and is kept no longer",
        r#"1 begin
1 vertex
1 commit
1 lift v0
2 lift v0
1 install v0
2 install v0
2 install v0
2 lift v0
2 install v0
1 stats
"#,
        r#"1 begin 1
1 v0
1 commit 2
1 lifted v0 cut 0 mark 3 deltas 1
2 lifted v0 cut 0 mark 3 deltas 1
1 installed v0 cut 3
2 refused 8 stale cut 3
2 refused 13 no piece
2 lifted v0 cut 3 mark 3 deltas 0
2 installed v0 cut 3
1 chain 0 history 1 blocks 1
"#,
    ),
    (
        "a second lift takes the place of the first, and an edge leaves three deltas",
        r#"1 begin
1 vertex
1 vertex
1 edge v0 T v1
1 edge v1 L v1
1 commit
1 lift v1
1 begin
1 set v1 k 1
1 commit
1 lift v1
1 install v1
1 stats
1 lift e0
1 install e0
1 stats
"#,
        r#"1 begin 1
1 v0
1 v1
1 e0
1 e1
1 commit 2
1 lifted v1 cut 0 mark 3 deltas 4
1 begin 3
1 done
1 commit 4
1 lifted v1 cut 0 mark 5 deltas 5
1 installed v1 cut 5
1 chain 4 history 5 blocks 5
1 lifted e0 cut 0 mark 5 deltas 1
1 installed e0 cut 5
1 chain 3 history 6 blocks 6
"#,
    ),
];

/// Whether the source's lines are answered so, and no other way.
fn is_answered_from(
    alloc: Global,
    source: &mut MemorySource,
    output: &str,
) -> Result<bool, NoMemory> {
    let mut sink = MemorySink::with_room(alloc, 2000, 100, Vec::new(alloc))?;
    let status = run_events(alloc, 1, source, &mut sink);
    Ok(status == 0 && sink.bytes() == output.as_bytes())
}

fn is_answered(alloc: Global, row: &Row) -> Result<bool, NoMemory> {
    let bytes = row.1.as_bytes().to_vec(alloc)?;
    let mut source = MemorySource::new(bytes, 100, Vec::new(alloc));
    is_answered_from(alloc, &mut source, row.2)
}

#[test]
fn runs_are_answered(rt: HostRuntime) -> Result<(), Fail> {
    for row in &ROWS {
        assert!(rt; is_answered(rt.alloc(), row)?, "{}", row.0);
    }
    Ok(())
}

#[test]
fn histories_are_answered(rt: HostRuntime) -> Result<(), Fail> {
    for row in &HISTORIES {
        assert!(rt; is_answered(rt.alloc(), row)?, "{}", row.0);
    }
    Ok(())
}
