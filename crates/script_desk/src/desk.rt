//! Many sessions over one store.
ghost use Rattle.std.specs.Prelude.{◌≡◌, ◌≤◌, List, [], IfOk, None, OnOk, codes, string_bytes, true};
ghost use Rattle.front_core.specs.Keeps.{StandsFor, first_start, open_in};
ghost use Rattle.session_core.specs.Says.{Aborts, Adds};
ghost use Rattle.store_pass.specs.Solo.{core_of};
ghost use Rattle.world_model.specs.History.{Entry};
ghost use Rattle.world_model.specs.World.{Start};
ghost use Rattle.script_desk.specs.Script as spec;
ghost use Rattle.script_desk.specs.Stands.{IsAsked, IsEnded, Stands, TellsLine};
ghost use Rattle.script_desk.specs.Naming.{named};

use crate::NoMemory;
use crate::naming::{named, push_reply};
use crate::roll::Roll;
use event_lines::is_skipped;
use front_core::Core;
use session_core::{Reply, Session};
use std::alloc::Global;
use std::marker::Model;
use std::str;
use store_pass::Solo;

/// A store and the sessions that use it, each line by its session.
#[derive(Drop)]
pub struct Desk {
    store: Solo,
    roll: Roll,
}

impl Model for Desk {
    ghost use Rattle.graph_value.specs.contracts.value.Value as property_value;
    ghost use Rattle.script_desk.specs.Stands.{DeskParts, StandsSome, roll_of};
    ghost use Rattle.std.specs.Coded.{codes};
    ghost use Rattle.store_pass.specs.Solo.{core_of};

    ghost Value = { DeskParts };

    ghost coded = { Prim.hlevel (codes, property_value.the_row.coded) };

    ghost view = { λ d. record { core = core_of d.store; sessions = roll_of d.roll } };

    ghost invariant = { λ d. StandsSome (record { core = core_of d.store; sessions = roll_of d.roll }) };
}

impl Desk {
    /// A store in which nothing has happened, and no session. `anchor` is the number of deltas in a block of history, from
    /// 1 to 1,024.
    ///
    /// The error says that memory was wanting.
    pub fn new(alloc: Global, anchor: u64) -> Result<Desk, NoMemory>
        requires anchor { (1 ≤ anchor) × (anchor ≤ 1024) }
        ensures { IfOk result (λ desk. Stands desk (spec.nothing_yet (first_start anchor))) }
    {
        let core = Core::new(alloc, anchor)?;
        Ok(Desk {
            store: Solo::over(core, 0),
            roll: Roll::new(alloc),
        })
    }

    /// Answers a line that isn't too long, given without its line end and carriage return: the text then holds the reply
    /// and nothing else, each of its lines with a line end. Whether the script ends behind it.
    ///
    /// For each past that the desk stands for, the reply is the one of the line, and the desk stands for what the line
    /// makes of it. The error says that the program's own memory was wanting.
    pub fn answer(
        &mut self,
        alloc: Global,
        line: &[u8],
        reply: &mut String,
    ) -> Result<bool, NoMemory>
        ensures { (past : spec.Past) → Stands self.old past → TellsLine result
            (λ text quits after. spec.AnswersLine past line.now text quits after)
            (Stands self.new) (string_bytes reply.new) }
    {
        reply.clear();
        if is_skipped(line) {
            return Ok(false);
        }
        match str::from_utf8(line) {
            Ok(line) => self.answer_named(alloc, line, reply),
            Err(_) => {
                push_reply(reply, "-", "ERR 1 not UTF-8")?;
                Ok(false)
            }
        }
    }

    /// Answers a line that is too long.
    pub fn answer_long(&mut self, reply: &mut String) -> Result<(), NoMemory>
        ensures desk { self.new ≡ self.old }
        ensures told { OnOk result (string_bytes reply.new
            ≡ spec.nobody_told (codes "ERR 1 line too long")) }
    {
        reply.clear();
        push_reply(reply, "-", "ERR 1 line too long")
    }

    fn answer_named(
        &mut self,
        alloc: Global,
        line: &str,
        reply: &mut String,
    ) -> Result<bool, NoMemory>
        requires { string_bytes reply.old ≡ [] }
        ensures { (past : spec.Past) → Stands self.old past → TellsLine result
            (λ text quits after. spec.ByName past (named line.now) text quits after)
            (Stands self.new) (string_bytes reply.new) }
    {
        match named(line) {
            Some((name, statement)) => self.answer_session(alloc, name, statement, reply),
            None => {
                push_reply(reply, "-", "ERR 1 no session name")?;
                Ok(false)
            }
        }
    }

    /// Asks a session a statement.
    fn ask(&mut self, alloc: Global, name: &str, statement: &str) -> Result<Reply, NoMemory>
        ensures { IfOk result (λ reply. (past : spec.Past) → Stands self.old past →
            IsAsked past name.now statement.now reply (Stands self.new)) }
    {
        let number = self.roll.number(alloc, name)?;
        self.store.turn_to(number as u64);
        let mut session = Session::resumed(self.roll.running(number));
        let reply = session.answer(&(), alloc, statement.as_bytes(), &mut self.store);
        self.roll.set(number, session.paused());
        Ok(reply)
    }

    fn answer_session(
        &mut self,
        alloc: Global,
        name: &str,
        statement: &str,
        reply: &mut String,
    ) -> Result<bool, NoMemory>
        requires { string_bytes reply.old ≡ [] }
        ensures { (past : spec.Past) → Stands self.old past → TellsLine result
            (λ text quits after. spec.SessionAnswers past name.now statement.now text quits after)
            (Stands self.new) (string_bytes reply.new) }
    {
        let told = self.ask(alloc, name, statement)?;
        push_reply(reply, name, told.text.as_str())?;
        Ok(told.quit)
    }

    /// Ends the script: open transactions are aborted. Takes no memory.
    pub fn end(self, alloc: Global)
        ensures { (past : spec.Past) → Stands self past → IsEnded past }
    {
        let Desk { store, roll } = self;
        let mut store = store;
        for number in 0..roll.len() {
            close(&mut store, alloc, number as u64, roll.running(number));
        }
    }
}

/// Aborts a session's open transaction, where there is one.
fn close(store: &mut Solo, alloc: Global, number: u64, running: Option<u64>)
    requires { open_in (core_of store.old) number ≡ running }
    ensures aborts { (s : Start) (es : List Entry) → StandsFor s (core_of store.old) es →
        Adds (λ s es. StandsFor s (core_of store.new) es) true (Aborts running) number s es }
    ensures closed { open_in (core_of store.new) number ≡ None }
{
    store.turn_to(number);
    Session::resumed(running).end(&(), alloc, store);
}
