//! `query_bench parse` reads statements from standard input, one a line, and writes a line for each: `ok`, a space and the
//! printed form of the query, where it passes the checks, or else its first fault.
//!
//! `query_bench rows` answers them by a small graph: with a line of JSON for each row and then `OK` and how many there are,
//! or with the first fault or refusal. Statements that write, or ask of another time, aren't run.
//!
//! `query_bench time SIZE` asks a graph of that many vertices, and writes a line for each statement: the microseconds that
//! it took, and the last line of its answer. `query_bench sort SIZE` writes the microseconds that std's sort takes for as
//! many numbers.
#![tactic(auto)]

mod answer;
mod answer_rows;
mod asking;
mod coherence;
mod draft;
mod lines;
mod push;
mod push_rows;
mod running;
mod sample;
mod showing;
mod spread;
#[cfg(test)]
mod tests;
mod timing;

use answer::answer_line;
use answer_rows::answer_rows;
use graph_reader::Graph;
use graph_value::NoMemory;
use lines::{Answer, answer_all};
use sample::sample;
use spread::spread;
use std::alloc::Global;
use std::env;
use std::process::ExitCode;
use timing::{Timing, time_of_sort};
use wire_line::{Reading, Writing};

/// The greatest graph that is measured on.
const MOST: u64 = 1_000_000;

/// What the words behind the program's name ask for.
#[derive(Clone, Copy)]
enum Word {
    Parse,
    Rows,
    Time(u64),
    Sort(u64),
}

/// Answers with the tree of a statement.
#[derive(Drop)]
struct Parsing;

impl Answer for Parsing {
    fn answer(&mut self, alloc: Global, line: &[u8], reply: &mut String) -> Result<(), NoMemory> {
        answer_line(alloc, line, reply)
    }
}

/// Answers with the rows of a statement.
#[derive(Drop)]
struct GraphRows {
    graph: Graph,
}

impl Answer for GraphRows {
    fn answer(&mut self, alloc: Global, line: &[u8], reply: &mut String) -> Result<(), NoMemory> {
        answer_rows(alloc, line, &mut self.graph, reply)
    }
}

fn size(word: &str) -> Option<u64> {
    match word.parse::<u64>() {
        Ok(size) if 0 < size && size <= MOST => Some(size),
        _ => None,
    }
}

fn asked(rt: &HostRuntime) -> Option<Word> {
    let mut words = env::args(rt).ok()?;
    let _ = words.next();
    let first = words.next()?;
    match (first.as_str(), words.next()) {
        ("parse", None) => Some(Word::Parse),
        ("rows", None) => Some(Word::Rows),
        ("time", Some(word)) => Some(Word::Time(size(word.as_str())?)),
        ("sort", Some(word)) => Some(Word::Sort(size(word.as_str())?)),
        _ => None,
    }
}

/// Answers all of standard input.
fn answer_input<A: Answer>(rt: &HostRuntime, answer: &mut A) -> u8 {
    let mut input = Reading::new(rt.stdin());
    let mut output = Writing::new(rt.stdout());
    answer_all(rt.alloc(), answer, &mut input, &mut output)
}

/// The same by a graph, which finds its memory or is status 5.
fn answer_by(rt: &HostRuntime, graph: Result<Option<Graph>, NoMemory>) -> u8 {
    match graph {
        Ok(Some(graph)) => answer_input(rt, &mut GraphRows { graph }),
        Ok(None) | Err(_) => 5,
    }
}

fn time_by(rt: &HostRuntime, graph: Result<Option<Graph>, NoMemory>) -> u8 {
    match graph {
        Ok(Some(graph)) => answer_input(
            rt,
            &mut Timing {
                clock: rt,
                graph,
                rows: String::new(rt.alloc()),
            },
        ),
        Ok(None) | Err(_) => 5,
    }
}

/// Prints what std's sort takes.
fn print_sort(rt: &HostRuntime, size: u64) -> u8 {
    match time_of_sort(rt.alloc(), rt, size) {
        Ok(time) => {
            let micros = time.as_micros();
            match println!(rt; "{micros}") {
                Ok(()) => 0,
                Err(_) => 4,
            }
        }
        Err(_) => 5,
    }
}

fn main(rt: HostRuntime) -> ExitCode {
    let alloc = rt.alloc();
    let status = match asked(&rt) {
        Some(Word::Parse) => answer_input(&rt, &mut Parsing),
        Some(Word::Rows) => answer_by(&rt, sample(alloc)),
        Some(Word::Time(size)) => time_by(&rt, spread(alloc, size)),
        Some(Word::Sort(size)) => print_sort(&rt, size),
        None => {
            let _ = eprintln!(rt; "usage: query_bench parse | rows | time SIZE | sort SIZE");
            2
        }
    };
    ExitCode::from(status)
}
