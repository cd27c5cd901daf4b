//! Lines and their answers.
use graph_value::NoMemory;
use std::alloc::Global;
use wire_line::{Line, Lines, Sink, Source, write_whole};

/// What answers a line.
pub trait Answer {
    /// Makes the text the answer to a line, without its last line end.
    ///
    /// The error says that memory was wanting for the statement or its answer.
    fn answer(&mut self, alloc: Global, line: &[u8], reply: &mut String) -> Result<(), NoMemory>;
}

/// Answers line after line. Status 0: all are answered. 3: the source failed. 4: the sink failed. 5: memory was wanting.
/// 7: the input goes on behind its limit.
pub fn answer_all<A: Answer, I: Source, O: Sink>(
    alloc: Global,
    answer: &mut A,
    input: &mut I,
    output: &mut O,
) -> u8 {
    let mut reply = String::new(alloc);
    let Ok(mut lines) = Lines::new(alloc) else {
        return 5;
    };
    // An input within its limit has fewer lines than there are turns.
    for _ in 0..u64::MAX {
        reply.clear();
        let answered = match lines.next(input) {
            Line::Whole(span) => answer.answer(alloc, lines.bytes(span), &mut reply),
            Line::TooLong => reply.push_str("ERR 1 line too long"),
            Line::End => return 0,
            Line::Fault => return 3,
            Line::Limit => return 7,
        };
        if answered.is_err() || reply.push('\n').is_err() {
            return 5;
        }
        if write_whole(output, reply.as_bytes()).is_err() {
            return 4;
        }
    }
    7
}
