use crate::{Answering, Ending, NoMemory, answer_lines};
use std::alloc::Global;
use std::fmt::Write;
use std::test::Fail;
use wire_line::{LINE_LIMIT, MemorySink, MemorySource, Source};

// Says each line again behind its number, and ends at "stop". It skips empty lines.
#[derive(Drop)]
struct Echo {
    lines: u8,
}

impl Answering for Echo {
    ghost answers = { λ _ _ _ _ _. Unit {0} };

    ghost answers_long = { λ _ _ _. Unit {0} };

    fn answer(
        &mut self,
        _alloc: Global,
        line: &[u8],
        reply: &mut String,
    ) -> Result<bool, NoMemory> {
        reply.clear();
        self.lines = self.lines.wrapping_add(1);
        if line.is_empty() {
            return Ok(false);
        }
        let word = str::from_utf8(line).unwrap_or("?");
        writeln!(reply, "{} {word}", self.lines)?;
        Ok(word == "stop")
    }

    fn answer_long(&mut self, _alloc: Global, reply: &mut String) -> Result<(), NoMemory> {
        reply.clear();
        self.lines = self.lines.wrapping_add(1);
        writeln!(reply, "{} too long", self.lines)
    }
}

// The number of a call that is to fail, as a list.
fn failing(alloc: Global, call: Option<u64>) -> Result<Vec<u64>, NoMemory> {
    let mut calls = Vec::new(alloc);
    if let Some(call) = call {
        calls.push(call)?;
    }
    Ok(calls)
}

// How a run over this input ends, and what it wrote. The sink takes two bytes in a call.
fn ran<I: Source>(
    alloc: Global,
    input: &mut I,
    sink_fails: Option<u64>,
) -> Result<(Ending, MemorySink), NoMemory> {
    let mut output = MemorySink::with_room(alloc, 100, 2, failing(alloc, sink_fails)?)?;
    let ending = answer_lines(alloc, &mut Echo { lines: 0 }, input, &mut output);
    Ok((ending, output))
}

struct Case {
    input: &'static [u8],
    piece: usize,
    source_fails: Option<u64>,
    sink_fails: Option<u64>,
    ending: Ending,
    status: u8,
    want: &'static [u8],
}

const CASES: [Case; 8] = [
    Case {
        input: b"",
        piece: 1,
        source_fails: None,
        sink_fails: None,
        ending: Ending::Done,
        status: 0,
        want: b"",
    },
    Case {
        input: b"a\n\nb\n",
        piece: 1,
        source_fails: None,
        sink_fails: None,
        ending: Ending::Done,
        status: 0,
        want: b"1 a\n3 b\n",
    },
    Case {
        input: b"a\r\nlast",
        piece: 3,
        source_fails: None,
        sink_fails: None,
        ending: Ending::Done,
        status: 0,
        want: b"1 a\n2 last\n",
    },
    Case {
        input: b"a\nstop\nb\nstop\n",
        piece: 9,
        source_fails: None,
        sink_fails: None,
        ending: Ending::Quit,
        status: 0,
        want: b"1 a\n2 stop\n",
    },
    Case {
        input: b"stop",
        piece: 2,
        source_fails: None,
        sink_fails: None,
        ending: Ending::Quit,
        status: 0,
        want: b"1 stop\n",
    },
    Case {
        input: b"a\nb\nc\n",
        piece: 3,
        source_fails: Some(1),
        sink_fails: None,
        ending: Ending::SourceFault,
        status: 3,
        want: b"1 a\n",
    },
    Case {
        input: b"a\nb\nc\n",
        piece: 9,
        source_fails: None,
        sink_fails: Some(3),
        ending: Ending::SinkFault,
        status: 4,
        want: b"1 a\n2 ",
    },
    Case {
        input: b"stop\nb\n",
        piece: 9,
        source_fails: None,
        sink_fails: Some(1),
        ending: Ending::SinkFault,
        status: 4,
        want: b"1 ",
    },
];

#[test]
fn lines_are_answered(rt: HostRuntime) -> Result<(), Fail> {
    let alloc = rt.alloc();
    for case in &CASES {
        let fails = failing(alloc, case.source_fails)?;
        let mut input = MemorySource::new(case.input.to_vec(alloc)?, case.piece.max(1), fails);
        let (ending, output) = ran(alloc, &mut input, case.sink_fails)?;
        assert_eq!(rt; ending, case.ending);
        assert_eq!(rt; ending.status(), case.status);
        assert_eq!(rt; output.bytes(), case.want);
    }
    Ok(())
}

#[test]
fn a_line_that_is_too_long_is_answered(rt: HostRuntime) -> Result<(), Fail> {
    let alloc = rt.alloc();
    let mut bytes = vec![in alloc; b'x'; LINE_LIMIT + 1]?;
    bytes.extend_from_slice(b"\nb\n")?;
    let mut input = MemorySource::new(bytes, 9_000, Vec::new(alloc));
    let (ending, output) = ran(alloc, &mut input, None)?;
    assert_eq!(rt; ending, Ending::Done);
    assert_eq!(rt; output.bytes(), b"1 too long\n2 b\n".as_slice());
    Ok(())
}
