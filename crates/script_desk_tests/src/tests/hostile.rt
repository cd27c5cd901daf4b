//! Lines that ask for much, and long runs of errors.

/// A line, which is given so many times and gets the same reply each time.
#[derive(Clone, Copy)]
pub struct Trial {
    pub times: usize,
    pub front: &'static [u8],
    /// What stands so many times behind the front.
    pub filling: &'static [u8],
    pub count: usize,
    pub middle: &'static [u8],
    /// What stands as many times behind the middle.
    pub closing: &'static [u8],
    pub reply: &'static str,
}

const PLAIN: Trial = Trial {
    times: 1,
    front: b"",
    filling: b"",
    count: 0,
    middle: b"",
    closing: b"",
    reply: "",
};

/// In one script: a line of 65,536 bytes, 64 and 65 levels of nesting, a text that is doubled until it is too large, a
/// table of more than a million rows, and ten thousand errors in a row.
pub static TRIALS: [Trial; 20] = [
    Trial {
        front: b"a: BEGIN",
        reply: "a: OK begin at 1\n",
        ..PLAIN
    },
    Trial {
        front: b"a: CREATE (n {t: 'x'})",
        reply: "a: OK 0 at 1\n",
        ..PLAIN
    },
    Trial {
        front: b"a: RETURN size('",
        filling: b"x",
        count: 65518,
        middle: b"')",
        reply: "a: [65518]\na: OK 1 at 1\n",
        ..PLAIN
    },
    Trial {
        front: b"a: RETURN '\xff'",
        reply: "-: ERR 1 not UTF-8\n",
        ..PLAIN
    },
    Trial {
        front: b"a: RETURN ",
        filling: b"(",
        count: 64,
        middle: b"1",
        closing: b")",
        reply: "a: [1]\na: OK 1 at 1\n",
        ..PLAIN
    },
    Trial {
        front: b"a: RETURN ",
        filling: b"NOT ",
        count: 64,
        middle: b"true",
        reply: "a: [true]\na: OK 1 at 1\n",
        ..PLAIN
    },
    Trial {
        times: 19,
        front: b"a: MATCH (n) SET n.t = n.t + n.t",
        reply: "a: OK 0 at 1\n",
        ..PLAIN
    },
    Trial {
        front: b"a: MATCH (n) RETURN size(n.t)",
        reply: "a: [524288]\na: OK 1 at 1\n",
        ..PLAIN
    },
    Trial {
        front: b"a: MATCH (n) SET n.t = n.t + n.t",
        reply: "a: ERR 14 too large (aborted)\n",
        ..PLAIN
    },
    Trial {
        front: b"a: MATCH (n) RETURN count(*)",
        reply: "a: [0]\na: OK 1 at 2\n",
        ..PLAIN
    },
    Trial {
        front: b"a: BEGIN",
        reply: "a: OK begin at 3\n",
        ..PLAIN
    },
    Trial {
        front: b"a: RETURN ",
        filling: b"(",
        count: 65,
        middle: b"1",
        closing: b")",
        reply: "a: ERR 4 shape too deep at 71 (aborted)\n",
        ..PLAIN
    },
    Trial {
        front: b"a: RETURN ",
        filling: b"NOT ",
        count: 65,
        middle: b"true",
        reply: "a: ERR 4 shape too deep at 263\n",
        ..PLAIN
    },
    Trial {
        front: b"a: COMMIT",
        reply: "a: ERR 12 no transaction\n",
        ..PLAIN
    },
    Trial {
        front: b"a: UNWIND range(1, 1000001) AS i RETURN i",
        reply: "a: ERR 14 row limit\n",
        ..PLAIN
    },
    Trial {
        front: b"a: RETURN size(range(1, 1048575))",
        reply: "a: [1048575]\na: OK 1 at 5\n",
        ..PLAIN
    },
    Trial {
        front: b"a: RETURN size(range(1, 1048576))",
        reply: "a: ERR 14 too large\n",
        ..PLAIN
    },
    Trial {
        front: b"a: .now",
        reply: "a: OK now 7 mark 7\n",
        ..PLAIN
    },
    Trial {
        times: 10000,
        front: b"a: RETURN 1 / 0",
        reply: "a: ERR 7 zero divisor\n",
        ..PLAIN
    },
    Trial {
        front: b"a: .now",
        reply: "a: OK now 10007 mark 10007\n",
        ..PLAIN
    },
];
