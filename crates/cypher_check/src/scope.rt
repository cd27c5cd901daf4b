ghost use Rattle.std.specs.Prelude.{◌≡◌, ◌∷◌, ◌++◌, [], OnOk, IfOk};

use crate::CheckRefused;
use crate::names::fault::Fault;
use crate::names::lists::{add, add_all, copies, has, push};
use graph_value::{Name, NoMemory};
use sqlite_items::Items;
use std::alloc::Global;
use std::mem;

/// What is known of the names at a place of a query. All lists of names are in the order in which the names came.
#[derive(Drop)]
pub struct Scope {
    /// The names that expressions see.
    pub names: Items<Name>,
    /// The names in the patterns of the clause that is read.
    pub here: Items<Name>,
    /// Those of them that are edges.
    pub edges: Items<Name>,
    /// The names that the projection that is read gives.
    pub given: Items<Name>,
    /// The first fault so far.
    pub fault: Option<CheckRefused>,
}

impl Scope {
    ghost use Rattle.cypher_check.specs.Asks.{Reads, Vertex, Edge, NewVertex, NewEdge, Closes, Unwinds, Star, Gives, Widens, Narrows, failed, read, step, start, answer_of};
    ghost use Rattle.cypher_check.specs.Faults.{refused, refusal_of};

    /// Nothing is known.
    pub fn new(alloc: Global) -> Scope
        ensures { result ≡ start }
    {
        Scope {
            names: Items::new(alloc),
            here: Items::new(alloc),
            edges: Items::new(alloc),
            given: Items::new(alloc),
            fault: None,
        }
    }

    /// The first fault.
    pub fn fail(&mut self, fault: CheckRefused)
        ensures { self.new ≡ failed self.old fault }
    {
        self.fault = Some(fault);
    }

    /// A vertex in MATCH.
    #[tactic(auto, unfolding(crate::specs::Asks::step))]
    pub fn vertex(&mut self, name: &Name) -> Result<(), NoMemory>
        ensures { OnOk result (self.new ≡ step self.old (Vertex name.now)) }
    {
        if self.fault.is_some() {
            return Ok(());
        }
        if has(self.edges.as_slice(), name) {
            self.fail(CheckRefused::Redeclared(name.copy()?));
        } else {
            add(&mut self.here, name)?;
        }
        Ok(())
    }

    /// An edge in MATCH.
    #[tactic(auto, unfolding(crate::specs::Asks::step))]
    pub fn edge(&mut self, name: &Name) -> Result<(), NoMemory>
        ensures { OnOk result (self.new ≡ step self.old (Edge name.now)) }
    {
        if self.fault.is_some() {
            return Ok(());
        }
        if has(self.here.as_slice(), name) {
            self.fail(CheckRefused::Redeclared(name.copy()?));
        } else {
            push(&mut self.here, name)?;
            push(&mut self.edges, name)?;
        }
        Ok(())
    }

    /// A vertex in CREATE, which may be one that is there where it is `bare`.
    #[tactic(auto, unfolding(crate::specs::Asks::step))]
    pub fn new_vertex(&mut self, bare: bool, name: &Name) -> Result<(), NoMemory>
        ensures { OnOk result (self.new ≡ step self.old (NewVertex bare name.now)) }
    {
        if self.fault.is_some() {
            return Ok(());
        }
        let bound = has(self.names.as_slice(), name) || has(self.here.as_slice(), name);
        if bound && !bare || has(self.edges.as_slice(), name) {
            self.fail(CheckRefused::Redeclared(name.copy()?));
        } else {
            add(&mut self.here, name)?;
        }
        Ok(())
    }

    /// An edge in CREATE.
    #[tactic(auto, unfolding(crate::specs::Asks::step))]
    pub fn new_edge(&mut self, name: &Name) -> Result<(), NoMemory>
        ensures { OnOk result (self.new ≡ step self.old (NewEdge name.now)) }
    {
        if self.fault.is_some() {
            return Ok(());
        }
        if has(self.names.as_slice(), name) || has(self.here.as_slice(), name) {
            self.fail(CheckRefused::Redeclared(name.copy()?));
        } else {
            push(&mut self.here, name)?;
            push(&mut self.edges, name)?;
        }
        Ok(())
    }

    /// The end of the patterns of a clause.
    #[tactic(auto, unfolding(crate::specs::Asks::step))]
    pub fn close(&mut self, alloc: Global) -> Result<(), NoMemory>
        ensures { OnOk result (self.new ≡ step self.old Closes) }
    {
        if self.fault.is_some() {
            return Ok(());
        }
        add_all(&mut self.names, self.here.as_slice())?;
        self.here = Items::new(alloc);
        self.edges = Items::new(alloc);
        Ok(())
    }

    /// The name that UNWIND gives.
    #[tactic(auto, unfolding(crate::specs::Asks::step))]
    pub fn unwind(&mut self, name: &Name) -> Result<(), NoMemory>
        ensures { OnOk result (self.new ≡ step self.old (Unwinds name.now)) }
    {
        if self.fault.is_some() {
            return Ok(());
        }
        if has(self.names.as_slice(), name) {
            self.fail(CheckRefused::Redeclared(name.copy()?));
        } else {
            push(&mut self.names, name)?;
        }
        Ok(())
    }

    /// `*` in a projection.
    #[tactic(auto, unfolding(crate::specs::Asks::step))]
    pub fn star(&mut self, alloc: Global) -> Result<(), NoMemory>
        ensures { OnOk result (self.new ≡ step self.old Star) }
    {
        if self.fault.is_some() {
            return Ok(());
        }
        if self.names.is_empty() {
            self.fail(CheckRefused::Unbound(Name::from_str(alloc, "*")?));
        } else {
            self.given = copies(alloc, self.names.as_slice())?;
        }
        Ok(())
    }

    /// A name that an item gives.
    #[tactic(auto, unfolding(crate::specs::Asks::step))]
    pub fn give(&mut self, name: &Name) -> Result<(), NoMemory>
        ensures { OnOk result (self.new ≡ step self.old (Gives name.now)) }
    {
        if self.fault.is_some() {
            return Ok(());
        }
        if has(self.given.as_slice(), name) {
            self.fail(CheckRefused::Redeclared(name.copy()?));
        } else {
            push(&mut self.given, name)?;
        }
        Ok(())
    }

    /// The names given come into scope.
    #[tactic(auto, unfolding(crate::specs::Asks::step))]
    pub fn widen(&mut self) -> Result<(), NoMemory>
        ensures { OnOk result (self.new ≡ step self.old Widens) }
    {
        if self.fault.is_some() {
            return Ok(());
        }
        add_all(&mut self.names, self.given.as_slice())?;
        Ok(())
    }

    /// The names given are in scope, and no others.
    #[tactic(auto, unfolding(crate::specs::Asks::step))]
    pub fn narrow(&mut self, alloc: Global) -> Result<(), NoMemory>
        ensures { OnOk result (self.new ≡ step self.old Narrows) }
    {
        if self.fault.is_some() {
            return Ok(());
        }
        self.names = mem::replace(&mut self.given, Items::new(alloc));
        Ok(())
    }

    /// What was found in expressions, of which these are the marks.
    pub fn read(&mut self, found: Option<Fault<'_>>) -> Result<(), NoMemory>
        ensures { OnOk result (self.new ≡ read self.old (refused found.entry)) }
    {
        match found {
            None => {}
            Some(Fault::Unbound(name)) => self.fail(CheckRefused::Unbound(name.copy()?)),
            Some(Fault::AggregatePlace) => self.fail(CheckRefused::AggregatePlace),
        }
        Ok(())
    }

    /// The first fault, if there was one.
    pub fn into_answer(self) -> Result<(), CheckRefused>
        ensures { result ≡ answer_of self.fault }
    {
        let Scope { fault, .. } = self;
        match fault {
            Some(fault) => Err(fault),
            None => Ok(()),
        }
    }
}
