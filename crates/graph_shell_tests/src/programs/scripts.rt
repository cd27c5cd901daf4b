use super::*;

const SCRIPT: Case = Case {
    word: "script",
    ..PLAIN
};

static SCRIPTS: [Case; 11] = [
    SCRIPT,
    Case {
        name: "nothing is asked of a session",
        input: Input::Bytes(b"# note\n\n \t\n"),
        ..SCRIPT
    },
    Case {
        name: "two sessions, and one is open at the end",
        input: Input::Bytes(b"a: BEGIN\r\na: CREATE (x {k:1})\nb: MATCH (n) RETURN n.k"),
        output: b"a: OK begin at 1\na: OK 0 at 1\nb: OK 0 at 2\n",
        ..SCRIPT
    },
    Case {
        name: "rows, byte by byte",
        input: Input::Bytes(b"a: CREATE (x {k:1}), (y {k:2})\na: MATCH (n) RETURN n.k\n"),
        read: (1, None),
        write: (1, None),
        output: b"a: OK 0 at 2\na: [1]\na: [2]\na: OK 2 at 3\n",
        ..SCRIPT
    },
    Case {
        name: "nothing is answered behind .quit",
        input: Input::Bytes(b"a: .quit\na: .now\n"),
        output: b"a: OK bye\n",
        ..SCRIPT
    },
    Case {
        name: "lines of no session",
        input: Input::Bytes(b"x\n1: .now\na: \xff\na: .now\n"),
        output: b"-: ERR 1 no session name\n-: ERR 1 no session name\n-: ERR 1 not UTF-8\na: OK now 1 mark 1\n",
        ..SCRIPT
    },
    Case {
        name: "a line of 65,537 bytes touches no transaction",
        input: Input::Filled(b"a: BEGIN\na: RETURN ", 65_527, b"\na: .now\n"),
        output: b"a: OK begin at 1\n-: ERR 1 line too long\na: OK now 2 mark 1\n",
        ..SCRIPT
    },
    Case {
        name: "the first read of a script fails",
        input: Input::Bytes(b"a: .now\n"),
        read: (9, Some(0)),
        status: 3,
        ..SCRIPT
    },
    Case {
        name: "the second read of a script fails",
        input: Input::Bytes(b"a: .now\na: .quit\n"),
        read: (9, Some(1)),
        status: 3,
        output: b"a: OK now 1 mark 1\n",
        ..SCRIPT
    },
    Case {
        name: "the second write of a script fails",
        input: Input::Bytes(b"a: .now\na: .quit\n"),
        write: (5, Some(1)),
        status: 4,
        output: b"a: OK",
        ..SCRIPT
    },
    Case {
        name: "the write of the last reply fails",
        input: Input::Bytes(b"a: .quit\na: .now\n"),
        write: (9, Some(1)),
        status: 4,
        output: b"a: OK bye",
        ..SCRIPT
    },
];

#[test]
fn each_status_of_a_script_has_its_cause(rt: HostRuntime) -> Result<(), Fail> {
    for case in &SCRIPTS {
        assert!(rt; holds(rt.alloc(), case)?, "{}", case.name);
    }
    Ok(())
}
