//! What a statement costs.
use crate::answer_rows::answer_rows;
use crate::lines::Answer;
use crate::spread::scattered;
use graph_reader::Graph;
use graph_value::{NoMemory, Value, order};
use std::alloc::Global;
use std::fmt::Write;
use std::io;
use std::rt::Clock;
use std::time::{Duration, Instant};

/// Answers a line with the microseconds that its rows took, and the last line of their answer.
#[derive(Drop)]
pub struct Timing<'a, C: Clock> {
    pub clock: &'a C,
    pub graph: Graph,
    pub rows: String,
}

fn push_time(reply: &mut String, time: Duration, last: &str) -> Result<(), NoMemory> {
    let micros = time.as_micros();
    write!(reply, "{micros} {last}")
}

/// The text behind the last line end.
fn last_line(text: &str) -> &str {
    match text.rsplit_once('\n') {
        Some((_, last)) => last,
        None => text,
    }
}

impl<'a, C: Clock> Answer for Timing<'a, C> {
    fn answer(&mut self, alloc: Global, line: &[u8], reply: &mut String) -> Result<(), NoMemory> {
        let start = Instant::now(self.clock);
        answer_rows(alloc, line, &mut self.graph, &mut self.rows)?;
        match start.and_then(|start| start.elapsed(self.clock)) {
            Ok(time) => push_time(reply, time, last_line(self.rows.as_str())),
            Err(_) => reply.push_str("no clock"),
        }
    }
}

/// The numbers k of the vertices of a graph of that size.
fn keys(alloc: Global, size: u64) -> Result<Vec<Value>, NoMemory> {
    let mut keys = Vec::new(alloc);
    for n in 0..size {
        keys.push(Value::Int(scattered(n)))?;
    }
    Ok(keys)
}

/// What std's sort takes for as many keys of a query's order.
pub fn time_of_sort(alloc: Global, clock: &impl Clock, size: u64) -> io::Result<Duration> {
    let mut keys = keys(alloc, size)?;
    let start = Instant::now(clock)?;
    keys.sort_by(|a, b| order(a, b))?;
    start.elapsed(clock)
}
