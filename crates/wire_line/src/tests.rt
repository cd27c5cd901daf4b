use crate::{Line, Lines, MemorySink, MemorySource, Reading, Source, Writing, write_whole};
use std::alloc::{AllocError, Global};
use std::test::Fail;

// Each answer as a word, and each line's text, with a bar behind, up to the end or the limit. Behind a fault it goes on.
fn answers<I: Source>(alloc: Global, input: &mut I) -> Result<Vec<u8>, AllocError> {
    let mut lines = Lines::new(alloc)?;
    let mut said = Vec::new(alloc);
    for _ in 0..20 {
        match lines.next(input) {
            Line::Whole(span) => {
                said.extend_from_slice(lines.bytes(span))?;
                said.push(b'|')?;
            }
            Line::TooLong => said.extend_from_slice(b"too long|")?,
            Line::End => {
                said.extend_from_slice(b"end")?;
                return Ok(said);
            }
            Line::Limit => {
                said.extend_from_slice(b"limit")?;
                return Ok(said);
            }
            Line::Fault => said.extend_from_slice(b"fault|")?,
        }
    }
    Ok(said)
}

struct Case {
    input: &'static [u8],
    piece: usize,
    failing: Option<u64>,
    want: &'static [u8],
}

const CASES: [Case; 7] = [
    Case {
        input: b"",
        piece: 1,
        failing: None,
        want: b"end",
    },
    Case {
        input: b"a\nbc\n",
        piece: 1,
        failing: None,
        want: b"a|bc|end",
    },
    Case {
        input: b"a\n\nlast",
        piece: 2,
        failing: None,
        want: b"a||last|end",
    },
    Case {
        input: b"a\r\n\r\nb\r\r\nc\rd\r",
        piece: 3,
        failing: None,
        want: b"a||b\r|c\rd|end",
    },
    Case {
        input: b"\n",
        piece: 9,
        failing: None,
        want: b"|end",
    },
    Case {
        input: b"one\ntwo\n",
        piece: 5,
        failing: Some(1),
        want: b"one|fault|two|end",
    },
    Case {
        input: b"one\ntwo\n",
        piece: 9,
        failing: Some(0),
        want: b"fault|one|two|end",
    },
];

#[test]
fn lines_are_read(rt: HostRuntime) -> Result<(), Fail> {
    let alloc = rt.alloc();
    for case in &CASES {
        let mut failing = Vec::new(alloc);
        if let Some(call) = case.failing {
            failing.push(call)?;
        }
        let mut source = MemorySource::new(case.input.to_vec(alloc)?, case.piece.max(1), failing);
        assert_eq!(rt; answers(alloc, &mut source)?.as_slice(), case.want);
    }
    Ok(())
}

#[test]
fn a_text_is_written(rt: HostRuntime) -> Result<(), Fail> {
    let alloc = rt.alloc();
    let mut sink = MemorySink::with_room(alloc, 9, 2, Vec::new(alloc))?;
    assert_eq!(rt; write_whole(&mut sink, b"abc"), Ok(()));
    assert_eq!(rt; write_whole(&mut sink, b""), Ok(()));
    assert_eq!(rt; write_whole(&mut sink, b"de"), Ok(()));
    assert_eq!(rt; sink.bytes(), b"abcde".as_slice());
    Ok(())
}

#[test]
fn a_front_is_written_before_a_fault(rt: HostRuntime) -> Result<(), Fail> {
    let alloc = rt.alloc();
    let mut failing = Vec::new(alloc);
    failing.push(4)?;
    let mut fifth = MemorySink::with_room(alloc, 100, 1, failing)?;
    assert!(rt; write_whole(&mut fifth, b"abcdefg").is_err());
    assert_eq!(rt; fifth.bytes(), b"abcd".as_slice());
    let mut small = MemorySink::with_room(alloc, 3, 2, Vec::new(alloc))?;
    assert!(rt; write_whole(&mut small, b"abcd").is_err());
    assert_eq!(rt; small.bytes(), b"abc".as_slice());
    Ok(())
}

#[test]
fn readers_and_writers_of_std_serve(rt: HostRuntime) -> Result<(), Fail> {
    let alloc = rt.alloc();
    let mut input = Reading::new(b"a\nb".as_slice());
    assert_eq!(rt;
        answers(alloc, &mut input)?.as_slice(),
        b"a|b|end".as_slice()
    );
    let mut room = [0; 3];
    let mut output = Writing::new(room.as_mut_slice());
    assert!(rt; write_whole(&mut output, b"ab").is_ok());
    // There is room for one byte more, and then none is taken.
    assert!(rt; write_whole(&mut output, b"cd").is_err());
    Ok(())
}
