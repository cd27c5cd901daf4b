use event_lines::{is_skipped, push_bad_line, read_request};
use graph_shell::{
    Command, NoMemory, Shell, aeong_main, answer_args, answer_line, read_words, run_events,
};
use graph_value::Text;
use std::alloc::Global;
use std::io;
use std::test::Fail;
use wire_line::{MemorySink, MemorySource, SameBytes, Source};

mod ends;
mod rows;
mod scripts;

/// What a source gives.
#[derive(Clone, Copy)]
enum Input {
    Bytes(&'static [u8]),
    /// So many times the filling, between two texts.
    Filled(&'static [u8], usize, &'static [u8]),
    /// So many line ends.
    LineEnds(u64),
}

#[derive(Clone, Copy)]
struct Case {
    name: &'static str,
    word: &'static str,
    input: Input,
    /// The byte that fills an input.
    filling: u8,
    /// The most bytes of a read, and the read that fails, where one does.
    read: (usize, Option<u64>),
    /// The most bytes of a write, and the write that fails, where one does.
    write: (usize, Option<u64>),
    status: u8,
    output: &'static [u8],
}

const PLAIN: Case = Case {
    name: "no line",
    word: "events",
    input: Input::Bytes(b""),
    filling: b'x',
    read: (9, None),
    write: (5, None),
    status: 0,
    output: b"",
};

static CASES: [Case; 18] = [
    PLAIN,
    Case {
        name: "nothing is asked",
        input: Input::Bytes(b"# note\n\n \t\n"),
        ..PLAIN
    },
    Case {
        name: "a run, and a last line without its line end",
        input: Input::Bytes(
            b"1 begin\r\n1 vertex\n1 set v0 k 1\n1 commit\n2 begin\n2 read v0 own\n2 jump",
        ),
        output: b"1 begin 1\n1 v0\n1 done\n1 commit 2\n2 begin 3\n2 {\"id\":0,\"ins\":[],\"labels\":[],\"outs\":[],\"properties\":{\"k\":1}}\n- refused 12 bad line\n",
        ..PLAIN
    },
    Case {
        name: "byte by byte, with carriage returns",
        input: Input::Bytes(b"1 begin\r\n\r\n1 vertex\r\n1 commit\r"),
        read: (1, None),
        output: b"1 begin 1\n1 v0\n1 commit 2\n",
        ..PLAIN
    },
    Case {
        name: "no UTF-8",
        input: Input::Bytes(b"1 set v0 k\xff 1\n\xc3\n1 begin\n"),
        output: b"- refused 12 bad line\n- refused 12 bad line\n1 begin 1\n",
        ..PLAIN
    },
    Case {
        name: "a comment of 65,536 bytes",
        input: Input::Filled(b"#", 65_535, b"\n1 begin\n"),
        output: b"1 begin 1\n",
        ..PLAIN
    },
    Case {
        name: "a comment of 65,537 bytes",
        input: Input::Filled(b"#", 65_536, b"\n1 begin\n"),
        output: b"- refused 12 bad line\n1 begin 1\n",
        ..PLAIN
    },
    Case {
        name: "a request of 65,536 bytes",
        input: Input::Filled(b"1 begin\n1 vertex\n1 set v0 ", 65_525, b" 1\n"),
        output: b"1 begin 1\n1 v0\n1 done\n",
        ..PLAIN
    },
    Case {
        name: "a request of 65,537 bytes",
        input: Input::Filled(b"1 begin\n1 vertex\n1 set v0 ", 65_525, b" 1\r\n"),
        output: b"1 begin 1\n1 v0\n- refused 12 bad line\n",
        ..PLAIN
    },
    Case {
        name: "a bad line of very many words",
        input: Input::Filled(b"1 read v0 own", 65_523, b"\n1 begin\n"),
        filling: b' ',
        output: b"- refused 12 bad line\n1 begin 1\n",
        ..PLAIN
    },
    Case {
        name: "other words",
        word: "event",
        input: Input::Bytes(b"1 begin\n"),
        status: 2,
        output: b"usage: aeong events|script|load|serve\n",
        ..PLAIN
    },
    Case {
        name: "other words, and the first write fails",
        word: "",
        write: (5, Some(0)),
        status: 4,
        ..PLAIN
    },
    Case {
        name: "the first read fails",
        input: Input::Bytes(b"1 begin\n"),
        read: (9, Some(0)),
        status: 3,
        ..PLAIN
    },
    Case {
        name: "the second read fails",
        input: Input::Bytes(b"1 begin\n1 vertex\n"),
        read: (9, Some(1)),
        status: 3,
        output: b"1 begin 1\n",
        ..PLAIN
    },
    Case {
        name: "the first write fails",
        input: Input::Bytes(b"1 begin\n1 vertex\n"),
        write: (5, Some(0)),
        status: 4,
        ..PLAIN
    },
    Case {
        name: "the second write fails",
        input: Input::Bytes(b"1 begin\n1 vertex\n"),
        write: (5, Some(1)),
        status: 4,
        output: b"1 beg",
        ..PLAIN
    },
    Case {
        name: "the fifth write of a byte fails",
        input: Input::Bytes(b"1 begin\n1 vertex\n"),
        write: (1, Some(4)),
        status: 4,
        output: b"1 be",
        ..PLAIN
    },
    Case {
        name: "the input goes on behind its limit",
        input: Input::LineEnds(268_435_457),
        status: 7,
        ..PLAIN
    },
];

fn one_or_none(alloc: Global, call: Option<u64>) -> Result<Vec<u64>, NoMemory> {
    let mut calls = Vec::new(alloc);
    if let Some(call) = call {
        calls.push(call)?;
    }
    Ok(calls)
}

fn filled(
    alloc: Global,
    front: &[u8],
    filling: (u8, usize),
    back: &[u8],
) -> Result<Vec<u8>, NoMemory> {
    let (byte, count) = filling;
    let mut bytes = front.to_vec(alloc)?;
    for _ in 0..count {
        bytes.push(byte)?;
    }
    bytes.extend_from_slice(back)?;
    Ok(bytes)
}

fn sink(alloc: Global, case: &Case) -> Result<MemorySink, NoMemory> {
    let (piece, fault) = case.write;
    MemorySink::with_room(alloc, 400, piece.max(1), one_or_none(alloc, fault)?)
}

/// Whether the case's status is given, and its output is written.
fn ends_so<I: Source>(
    alloc: Global,
    case: &Case,
    words: &[Text],
    input: &mut I,
) -> Result<bool, NoMemory> {
    let mut output = sink(alloc, case)?;
    let status = aeong_main(alloc, words, input, &mut output);
    Ok(status == case.status && output.bytes() == case.output)
}

/// The same, over these bytes.
fn ends_so_over(
    alloc: Global,
    case: &Case,
    words: &[Text],
    bytes: Vec<u8>,
) -> Result<bool, NoMemory> {
    let (piece, fault) = case.read;
    let mut input = MemorySource::new(bytes, piece.max(1), one_or_none(alloc, fault)?);
    ends_so(alloc, case, words, &mut input)
}

fn is_as_wanted(alloc: Global, case: &Case, words: &[Text]) -> Result<bool, NoMemory> {
    match case.input {
        Input::Bytes(bytes) => ends_so_over(alloc, case, words, bytes.to_vec(alloc)?),
        Input::Filled(front, count, back) => {
            let bytes = filled(alloc, front, (case.filling, count), back)?;
            ends_so_over(alloc, case, words, bytes)
        }
        Input::LineEnds(count) => ends_so(alloc, case, words, &mut SameBytes::new(b'\n', count)),
    }
}

fn holds(alloc: Global, case: &Case) -> Result<bool, NoMemory> {
    let words = [Text::from_str(alloc, case.word)?];
    is_as_wanted(alloc, case, &words)
}

#[test]
fn each_status_has_its_cause(rt: HostRuntime) -> Result<(), Fail> {
    for case in &CASES {
        assert!(rt; holds(rt.alloc(), case)?, "{}", case.name);
    }
    Ok(())
}

/// The anchor of the command that the words are.
fn anchor_of(words: &[Text]) -> Option<u64> {
    match read_words(words) {
        Some(Command::Events { anchor } | Command::Script { anchor }) => Some(anchor),
        None => None,
    }
}

fn anchor_of_word(alloc: Global, word: &str) -> Result<Option<u64>, NoMemory> {
    Ok(anchor_of(&[Text::from_str(alloc, word)?]))
}

fn anchor_of_two_words(alloc: Global) -> Result<Option<u64>, NoMemory> {
    let words = [
        Text::from_str(alloc, "events")?,
        Text::from_str(alloc, "more")?,
    ];
    Ok(anchor_of(&words))
}

#[test]
fn words_are_read(rt: HostRuntime) -> Result<(), Fail> {
    let alloc = rt.alloc();
    assert!(rt; anchor_of(&[]).is_none());
    assert!(rt; anchor_of_two_words(alloc)?.is_none());
    assert!(rt; anchor_of_word(alloc, "events")? == Some(1));
    assert!(rt; anchor_of_word(alloc, "script")? == Some(1));
    assert!(rt; anchor_of_word(alloc, "scripts")?.is_none());
    Ok(())
}

/// Why the arguments can't be read, the status that this gives, and what is written.
type ArgumentsRow = (io::ErrorKind, u8, &'static [u8]);

static ARGUMENTS: [ArgumentsRow; 2] = [
    (
        io::ErrorKind::InvalidData,
        2,
        b"usage: aeong events|script|load|serve\n",
    ),
    (io::ErrorKind::OutOfMemory, 5, b""),
];

fn is_args_answer(alloc: Global, row: &ArgumentsRow) -> Result<bool, NoMemory> {
    let mut output = sink(alloc, &PLAIN)?;
    let args = Err(io::Error::from(row.0));
    let status = answer_args(alloc, args, &mut SameBytes::new(b'x', 1), &mut output);
    Ok(status == row.1 && output.bytes() == row.2)
}

#[test]
fn arguments_that_cannot_be_read_are_answered(rt: HostRuntime) -> Result<(), Fail> {
    for row in &ARGUMENTS {
        assert!(rt; is_args_answer(rt.alloc(), row)?, "status {}", row.1);
    }
    Ok(())
}

fn begins_at_another_anchor(alloc: Global) -> Result<bool, NoMemory> {
    let mut input = MemorySource::new(b"1 begin\n".to_vec(alloc)?, 9, Vec::new(alloc));
    begins_from(alloc, &mut input)
}

fn begins_from(alloc: Global, input: &mut MemorySource) -> Result<bool, NoMemory> {
    let mut output = sink(alloc, &PLAIN)?;
    let status = run_events(alloc, 1024, input, &mut output);
    Ok(status == 0 && output.bytes() == b"1 begin 1\n".as_slice())
}

#[test]
fn an_anchor_makes_no_difference(rt: HostRuntime) -> Result<(), Fail> {
    assert!(rt; begins_at_another_anchor(rt.alloc())?);
    Ok(())
}

fn is_request(alloc: Global, line: &[u8]) -> Result<bool, NoMemory> {
    Ok(read_request(alloc, line)?.is_some())
}

#[test]
fn lines_are_told_apart(rt: HostRuntime) -> Result<(), Fail> {
    assert!(rt; is_skipped(b"# note"));
    assert!(rt; is_request(rt.alloc(), b"1 begin")?);
    assert!(rt; !is_request(rt.alloc(), b"1 jump")?);
    Ok(())
}

fn begin_is_answered(alloc: Global, reply: &mut String) -> Result<(), NoMemory> {
    let mut shell = Shell::new(alloc, 16)?;
    answer_line(alloc, &mut shell, b"1 begin", reply)
}

/// The answers to a line and to a bad line, one behind the other.
fn two_answers(alloc: Global) -> Result<String, NoMemory> {
    let mut reply = String::new(alloc);
    begin_is_answered(alloc, &mut reply)?;
    push_bad_line(&mut reply)?;
    Ok(reply)
}

fn are_two_answers(alloc: Global, wanted: &str) -> Result<bool, NoMemory> {
    Ok(two_answers(alloc)?.as_str() == wanted)
}

#[test]
fn lines_are_answered(rt: HostRuntime) -> Result<(), Fail> {
    assert!(rt; are_two_answers(rt.alloc(), "1 begin 1\n- refused 12 bad line\n")?);
    Ok(())
}
