ghost use Rattle.std.specs.Prelude.{◌≡◌, ◌+◌, ◌<◌, ◌≤◌, List, [], ℕ, length, slice_range, false, IfSome, IfNone, IfOk, IfErr, OnOk, OnErr, IsErrOf};
ghost use Rattle.wire_line.specs.Calls.{Reads, SourceRose, WhereLeft};
ghost use Rattle.wire_line.specs.Intake.{GivesWaiting, HasLine, IfWhole, IsLimitAnswer, IsLine, IsSpan, Says, StillAhead, StillWaits};
ghost use Rattle.wire_line.specs.Lines.{HasNoEnd, first_line};
ghost use Rattle.wire_line.specs.Buffer.{Grows, IsDry, IsFound, IsLastAnswer, IsMore, IsStoppedBy, SameAhead, StopsBy};
ghost use Rattle.wire_line.specs.Failures.{FailsByRise};

mod place;

use crate::lines::place::{asked, first_len, is_too_long, read_at, without_return};
use crate::stop::Stop;
use crate::{Failed, INPUT_LIMIT, LINE_LIMIT, Line, LineSpan, NoMemory, Source};
use std::alloc::Global;
use std::marker::Model;

/// The size of the buffer.
const CAPACITY: usize = 131_072;

/// A reader of the lines of one source. Contracts see the bytes that were taken from the source and wait to be given,
/// how many were taken so far, the buffer, in which the spans lie, and whether a line that is too long is being passed
/// over.
#[derive(Drop)]
pub struct Lines {
    // What waits is `bytes[start..end]`. No line ends before `searched`.
    bytes: Vec<u8>,
    start: usize,
    searched: usize,
    end: usize,
    taken: u64,
    passing: bool,
}

impl Model for Lines {
    ghost use Rattle.std.specs.Prelude.{◌-◌, slice_range};
    ghost use Rattle.wire_line.specs.Intake.{Intake};

    ghost Value = { Intake };

    ghost use Rattle.wire_line.specs.Buffer.{IsPart};
    ghost use Rattle.wire_line.specs.declared.lines.TheConstants.{CAPACITY};

    ghost view = { λ l. record {
      waiting = slice_range l.bytes.items l.start l.end;
      taken = l.taken;
      buffer = l.bytes.items;
      passing = l.passing;
      room = CAPACITY - l.end;
    } };

    ghost invariant = { λ l. IsPart l.bytes.items l.start l.searched l.end l.taken };
}

impl Lines {
    /// A reader that has taken nothing yet. It reserves all its memory here.
    pub fn new(alloc: Global) -> Result<Lines, NoMemory>
        ensures waiting { IfOk result (λ l. l.waiting ≡ []) }
        ensures taken { IfOk result (λ l. l.taken ≡ 0) }
        ensures passing { IfOk result (λ l. l.passing ≡ false) }
    {
        let bytes = vec![in alloc; 0; CAPACITY]?;
        Ok(Lines {
            bytes,
            start: 0,
            searched: 0,
            end: 0,
            taken: 0,
            passing: false,
        })
    }

    /// The next line of the source, or why there is none. It takes no memory.
    ///
    /// It reads only where no line waits with its line end. A byte behind the limit of the input is taken only then too,
    /// and the answer is `Limit` from then on. After `Fault` what waited still waits, so the next call goes on.
    pub fn next<I: Source>(&mut self, input: &mut I) -> Line
        ensures reads { Reads I.Source input.old input.new self.old self.new }

        // What the answer says of the bytes that wait, and of those that the source has left.
        ensures says { WhereLeft I.Source input.old input.new (Says result self.old self.new) }

        // A line that waits whole is given, and nothing is read for it.
        ensures waiting { HasLine self.old → GivesWaiting result self.old self.new }
        ensures unread { HasLine self.old → input.new ≡ input.old }

        ensures span { IfWhole result (λ span. IsSpan span self.new.buffer) }
        ensures most { self.new.taken ≤ INPUT_LIMIT + 1 }
        ensures limit { IsLimitAnswer result self.new.taken }
        ensures fault { result ≡ Line.Fault → SourceRose I.Source input.old input.new }
        ensures still { result ≡ Line.Fault → StillWaits self.old self.new }
    {
        if self.taken > INPUT_LIMIT {
            return Line::Limit;
        }
        if let Some(len) = self.search() {
            return self.give(len);
        }
        match self.find(input) {
            Ok(len) => self.give(len),
            Err(Stop::Ended) => self.give_last(),
            Err(Stop::Limit) => Line::Limit,
            Err(Stop::Fault) => Line::Fault,
        }
    }

    /// The bytes of a line, until the next call of `next`.
    pub fn bytes(&self, span: LineSpan) -> &[u8]
        requires ordered { span.from ≤ span.to }
        requires inside { span.to ≤ length self.now.buffer }
        ensures { result.now ≡ slice_range self.now.buffer span.from span.to }
    {
        &self.bytes[span.from as usize..span.to as usize]
    }

    /// The length of the line that waits with its line end.
    fn search(&mut self) -> Option<usize>
        ensures same { self.new ≡ self.old }
        ensures found { IfSome result (λ len.
            (len ≡ length (first_line self.old.waiting)) × (len < length self.old.waiting)) }
        ensures none { IfNone result (HasNoEnd self.old.waiting) }
    {
        let at = self.searched + first_len(&self.bytes[self.searched..self.end]);
        self.searched = at;
        if at < self.end {
            Some(at - self.start)
        } else {
            None
        }
    }

    /// Takes what it needs to find the line end that comes next, and answers the length of the line. It gives nothing
    /// away but the front of a line that is too long.
    fn find<I: Source>(&mut self, input: &mut I) -> Result<usize, Stop>
        requires limit { self.old.taken ≤ INPUT_LIMIT }
        requires none { HasNoEnd self.old.waiting }
        ensures reads { Reads I.Source input.old input.new self.old self.new }
        ensures ahead { WhereLeft I.Source input.old input.new (StillAhead self.old self.new) }
        ensures found { IfOk result (λ len. IsFound len self.new) }
        ensures stopped { IfErr result (λ why. IsStoppedBy why self.new) }
        ensures told { IfErr result (λ why.
            WhereLeft I.Source input.old input.new (StopsBy why self.old)) }
        ensures fault { IsErrOf result Stop.Fault → SourceRose I.Source input.old input.new }
        ensures still { IsErrOf result Stop.Fault → StillWaits self.old self.new }
    {
        'fill: loop {
            self.pass_over();
            self.refill(input)?;
            if let Some(len) = self.search() {
                return Ok(len);
            }
        }
    }

    /// Drops what waits, where it is the front of a line that is too long, or more of such a line.
    fn pass_over(&mut self)
        requires none { HasNoEnd self.old.waiting }
        ensures ahead { StillAhead self.old self.new [] [] }
        ensures short { length self.new.waiting ≤ LINE_LIMIT }
        ensures none { HasNoEnd self.new.waiting }
        ensures waits { self.new.passing ≡ false → self.new.waiting ≡ self.old.waiting }
        ensures taken { self.new.taken ≡ self.old.taken }
    {
        if self.passing || self.end - self.start > LINE_LIMIT {
            self.start = self.end;
            self.searched = self.end;
            self.passing = true;
        }
    }

    /// Takes what the source gives next.
    fn refill<I: Source>(&mut self, input: &mut I) -> Result<(), Stop>
        requires short { length self.old.waiting ≤ LINE_LIMIT }
        requires limit { self.old.taken ≤ INPUT_LIMIT }
        ensures reads { Reads I.Source input.old input.new self.old self.new }
        ensures grows { Grows self.old self.new }
        ensures ahead { WhereLeft I.Source input.old input.new (SameAhead self.old self.new) }
        ensures more { OnOk result (IsMore self.old self.new) }
        ensures dry { IfErr result (λ why. IsDry why self.old self.new) }
        ensures ended { WhereLeft I.Source input.old input.new (λ _ left'.
            IsErrOf result Stop.Ended → left' ≡ []) }
        ensures fault { IsErrOf result Stop.Fault → SourceRose I.Source input.old input.new }
    {
        self.make_room();
        let most = asked(CAPACITY - self.end, self.taken);
        match self.take(input, most) {
            Ok(0) => Err(Stop::Ended),
            Ok(_) => {
                if self.taken > INPUT_LIMIT {
                    Err(Stop::Limit)
                } else {
                    Ok(())
                }
            }
            Err(_) => Err(Stop::Fault),
        }
    }

    /// Moves what waits to the front of the buffer, where nothing waits or there is no room behind it.
    fn make_room(&mut self)
        requires short { length self.old.waiting ≤ LINE_LIMIT }
        ensures room { 0 < self.new.room }
        ensures waiting { self.new.waiting ≡ self.old.waiting }
        ensures taken { self.new.taken ≡ self.old.taken }
        ensures passing { self.new.passing ≡ self.old.passing }
    {
        if self.start == self.end || self.end == CAPACITY {
            self.bytes.copy_within(self.start..self.end, 0);
            self.end -= self.start;
            self.searched -= self.start;
            self.start = 0;
        }
    }

    /// Takes at most `most` bytes of the source.
    fn take<I: Source>(&mut self, input: &mut I, most: usize) -> Result<usize, Failed>
        requires some { 1 ≤ most }
        requires room { most ≤ self.old.room }
        requires limit { self.old.taken + most ≤ INPUT_LIMIT + 1 }
        ensures reads { Reads I.Source input.old input.new self.old self.new }
        ensures grows { Grows self.old self.new }
        ensures ahead { WhereLeft I.Source input.old input.new (SameAhead self.old self.new) }
        ensures taken { IfOk result (λ n. (n ≤ most) × (self.new.taken ≡ self.old.taken + n)) }
        ensures ended { WhereLeft I.Source input.old input.new (λ _ left'.
            IfOk result (λ n. n ≡ 0 → left' ≡ [])) }
        ensures failed { OnErr result (self.new.taken ≡ self.old.taken) }
        ensures cause { FailsByRise (I.faults input.old) (I.faults input.new) result }
    {
        let count = read_at(&mut self.bytes, self.end, most, input)?;
        self.end += count;
        self.taken += count as u64;
        Ok(count)
    }

    /// Gives the line of this length that waits, and drops it with its line end.
    fn give(&mut self, len: usize) -> Line
        requires place { IsFound len self.old }
        ensures says { (left : List ℕ) → Says result self.old self.new left left }
        ensures line { IsLine result }
        ensures span { IfWhole result (λ span. IsSpan span self.new.buffer) }
        ensures taken { self.new.taken ≡ self.old.taken }
    {
        let at = self.start + len;
        let line = if is_too_long(self.passing, len) {
            Line::TooLong
        } else {
            Line::Whole(without_return(&self.bytes, self.start, at))
        };
        self.start = at + 1;
        self.searched = at + 1;
        self.passing = false;
        line
    }

    /// Gives all that waits as the last line, which lacks its line end. Where nothing waits, there is no line.
    fn give_last(&mut self) -> Line
        requires none { HasNoEnd self.old.waiting }
        requires short { length self.old.waiting ≤ LINE_LIMIT }
        ensures says { Says result self.old self.new [] [] }
        ensures span { IfWhole result (λ span. IsSpan span self.new.buffer) }
        ensures taken { self.new.taken ≡ self.old.taken }
        ensures answer { IsLastAnswer result }
    {
        let line = if self.passing {
            Line::TooLong
        } else if self.start == self.end {
            Line::End
        } else {
            Line::Whole(without_return(&self.bytes, self.start, self.end))
        };
        self.start = self.end;
        self.searched = self.end;
        self.passing = false;
        line
    }
}
