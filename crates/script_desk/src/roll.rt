//! The sessions of a script.
ghost use Rattle.std.specs.Prelude.{◌≡◌, IfOk, None, OnErr, OnOk, [], length, string_bytes};
ghost use Rattle.script_desk.specs.Roll as spec;
ghost use Rattle.script_desk.specs.Stands.{roll_of};

use crate::NoMemory;
use indexmap::IndexMap;
use std::alloc::Global;

/// The sessions in the order in which they appeared first, each with the start of its open transaction. A session's number
/// is its place.
#[derive(Drop)]
pub struct Roll {
    entries: IndexMap<String, Option<u64>>,
}

impl Roll {
    /// No session. Takes no memory.
    pub fn new(alloc: Global) -> Roll
        ensures { roll_of result ≡ [] }
    {
        Roll {
            entries: IndexMap::new(alloc),
        }
    }

    fn insert(&mut self, name: String) -> Result<usize, NoMemory>
        ensures number { IfOk result (λ n. n ≡ spec.number_of (string_bytes name)
            (roll_of self.old)) }
        ensures ok { OnOk result (roll_of self.new
            ≡ spec.with_running (string_bytes name) None (roll_of self.old)) }
        ensures err { OnErr result (roll_of self.new ≡ roll_of self.old) }
    {
        let (number, _) = self.entries.insert_full(name, None)?;
        Ok(number)
    }

    fn enroll(&mut self, alloc: Global, name: &str) -> Result<usize, NoMemory>
        ensures number { IfOk result (λ n. n ≡ spec.number_of name.now (roll_of self.old)) }
        ensures ok { OnOk result (roll_of self.new
            ≡ spec.with_running name.now None (roll_of self.old)) }
        ensures err { OnErr result (roll_of self.new ≡ roll_of self.old) }
    {
        let mut owned = String::new(alloc);
        owned.push_str(name)?;
        self.insert(owned)
    }

    /// A session's number. One that hasn't appeared yet gets the next one. Without memory all stays as it was.
    pub fn number(&mut self, alloc: Global, name: &str) -> Result<usize, NoMemory>
        ensures number { IfOk result (λ n. n ≡ spec.number_of name.now (roll_of self.old)) }
        ensures ok { OnOk result (roll_of self.new ≡ spec.enrolled name.now (roll_of self.old)) }
        ensures err { OnErr result (roll_of self.new ≡ roll_of self.old) }
    {
        match self.entries.get_index_of(name) {
            Some(number) => Ok(number),
            None => self.enroll(alloc, name),
        }
    }

    /// The start of the open transaction of the session with this number.
    pub fn running(&self, number: usize) -> Option<u64>
        ensures { result ≡ spec.running_at number (roll_of self.now) }
    {
        match self.entries.get_index(number) {
            Some((_, running)) => *running,
            None => None,
        }
    }

    /// The transaction of the session with this number is this one now. Takes no memory.
    pub fn set(&mut self, number: usize, running: Option<u64>)
        ensures { roll_of self.new ≡ spec.with_running_at number running (roll_of self.old) }
    {
        if let Some(place) = self.entries.get_index_mut(number) {
            *place = running;
        }
    }

    /// How many sessions have appeared.
    pub fn len(&self) -> usize
        ensures { result ≡ length (roll_of self.now) }
    {
        self.entries.len()
    }
}
