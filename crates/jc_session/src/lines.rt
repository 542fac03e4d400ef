//! The lines of a source, read one by one up to the limits of a session. Sessions answer them.

ghost use Rattle.std.specs.Prelude.{◌≡◌, ◌≢◌, ℕ, ◌+◌, ◌-◌, ◌<◌, ◌≤◌, ◌==◌, if◌then◌else◌, List, [], ◌∷◌, ◌++◌, length, take, Option, Some, None, Ok, IfOk, OnOk, OnErr, IfSome, ◌⊎◌};
ghost use Rattle.std.specs.Io.KnownBytes.{Consumes, IsAtEnd, prepend_known};
ghost use Rattle.jc_io.specs.Streams.{failures_of};
ghost use Rattle.jc_rules.specs.declared.limits.TheConstants.{MAX_LINE, MAX_LINES, MAX_SESSION};
ghost use Rattle.jc_session.specs.Lines.{Lacks};
ghost use Rattle.jc_session.specs.LineReading.{ReadStopsAt};

use crate::ahead::Ahead;
use crate::line_buffer::Line;
use jc_io::{Failed, Source};
use jc_rules::limits::{MAX_LINES, MAX_SESSION};

/// How the reading of a line ended.
#[derive(Clone, Copy)]
pub enum Next {
    /// An LF ended it.
    Whole,
    /// The end of the input ended it.
    Last,
    /// No line was left.
    End,
    /// A byte past one of the limits was read.
    TooMany,
}

/// Reads a line from a source, and from the bytes that were read ahead of it: up to an LF or the end, and as many bytes
/// as there is room for. It takes the room of what it read. The source isn't read again once an LF is found, and at most
/// one byte past the room is taken.
pub fn read_line<S: Source>(
    ahead: &mut Ahead,
    line: &mut Line,
    room: &mut u64,
    source: &mut S,
) -> Result<Next, Failed>
    ensures whole { result ≡ Ok Next.Whole → (raw : List ℕ) × Lacks 10 raw
        × Consumes (prepend_known ahead.old (S.left source.old)) (prepend_known ahead.new (S.left source.new))
        (raw ++ 10 ∷ [])
        × (line.new ≡ take (MAX_LINE + 1) raw) × (room.new + length raw + 1 ≡ room.old) }
    ensures last { result ≡ Ok Next.Last → (raw : List ℕ) × Lacks 10 raw × (raw ≢ [])
        × Consumes (prepend_known ahead.old (S.left source.old)) (prepend_known ahead.new (S.left source.new)) raw
        × IsAtEnd (prepend_known ahead.new (S.left source.new))
        × (line.new ≡ take (MAX_LINE + 1) raw) × (room.new + length raw ≡ room.old) }
    ensures end { result ≡ Ok Next.End → IsAtEnd (prepend_known ahead.old (S.left source.old))
        × Consumes (prepend_known ahead.old (S.left source.old)) (prepend_known ahead.new (S.left source.new)) []
        × (room.new ≡ room.old) }
    ensures too_many { result ≡ Ok Next.TooMany → (raw : List ℕ) × (b : ℕ) × Lacks 10 raw
        × Consumes (prepend_known ahead.old (S.left source.old)) (prepend_known ahead.new (S.left source.new))
        (raw ++ b ∷ [])
        × (length raw ≡ room.old) }
    ensures err { OnErr result ((raw : List ℕ) × Lacks 10 raw × (ahead.new ≡ []) × (length raw ≤ room.old)
        × ReadStopsAt (prepend_known ahead.old (S.left source.old)) (S.left source.new) raw) }
    ensures room { room.new ≤ room.old }
    ensures few { OnOk result (length ahead.new < MAX_LINE) }
    ensures failures { S.failures source.new ≡ S.failures source.old + failures_of result }
{
    line.clear();
    let mut some = false;
    'bytes: loop {
        let Some(byte) = ahead.next(source)? else {
            return Ok(if some { Next::Last } else { Next::End });
        };
        if *room == 0 {
            return Ok(Next::TooMany);
        }
        *room -= 1;
        if byte == b'\n' {
            return Ok(Next::Whole);
        }
        line.push(byte);
        some = true;
    }
}

/// The reading of lines: the bytes read ahead, the line, and how many bytes and lines were read so far.
#[derive(Drop)]
pub struct Lines {
    pub ahead: Ahead,
    pub line: Line,
    pub bytes: u64,
    pub count: u64,
}

impl Lines {
    pub fn new() -> Self
        ensures ahead { result.ahead ≡ [] }
        ensures none { (result.bytes ≡ 0) × (result.count ≡ 0) }
    {
        Lines {
            ahead: Ahead::new(),
            line: Line::new(),
            bytes: 0,
            count: 0,
        }
    }

    /// How many bytes the next line may have, with its LF: none where no line may come.
    fn room(&self) -> u64
        requires { self.now.bytes ≤ MAX_SESSION }
        ensures { result ≡ (if self.now.count == MAX_LINES then 0 else MAX_SESSION - self.now.bytes) }
    {
        if self.count == MAX_LINES {
            return 0;
        }
        MAX_SESSION - self.bytes
    }

    /// Reads the next line. The source isn't read again once an LF is found, and at most one byte past the limits is
    /// taken.
    pub fn next<S: Source>(&mut self, source: &mut S) -> Result<Next, Failed>
        requires bytes { self.old.bytes ≤ MAX_SESSION }
        requires count { self.old.count ≤ MAX_LINES }
        ensures whole { result ≡ Ok Next.Whole → (raw : List ℕ) × Lacks 10 raw
            × Consumes (prepend_known self.old.ahead (S.left source.old))
            (prepend_known self.new.ahead (S.left source.new)) (raw ++ 10 ∷ [])
            × (self.new.line ≡ take (MAX_LINE + 1) raw)
            × (self.new.bytes ≡ self.old.bytes + length raw + 1) × (self.new.bytes ≤ MAX_SESSION)
            × (self.new.count ≡ self.old.count + 1) × (self.new.count ≤ MAX_LINES) }
        ensures last { result ≡ Ok Next.Last → (raw : List ℕ) × Lacks 10 raw × (raw ≢ [])
            × Consumes (prepend_known self.old.ahead (S.left source.old))
            (prepend_known self.new.ahead (S.left source.new)) raw
            × IsAtEnd (prepend_known self.new.ahead (S.left source.new))
            × (self.new.line ≡ take (MAX_LINE + 1) raw)
            × (self.old.bytes + length raw ≤ MAX_SESSION) × (self.old.count < MAX_LINES) }
        ensures end { result ≡ Ok Next.End
            → IsAtEnd (prepend_known self.old.ahead (S.left source.old))
            × Consumes (prepend_known self.old.ahead (S.left source.old))
            (prepend_known self.new.ahead (S.left source.new)) [] }
        ensures too_many { result ≡ Ok Next.TooMany → (raw : List ℕ) × (b : ℕ) × Lacks 10 raw
            × Consumes (prepend_known self.old.ahead (S.left source.old))
            (prepend_known self.new.ahead (S.left source.new)) (raw ++ b ∷ [])
            × (self.old.bytes + length raw ≤ MAX_SESSION)
            × ((self.old.bytes + length raw ≡ MAX_SESSION) ⊎ ((self.old.count ≡ MAX_LINES) × (raw ≡ []))) }
        ensures err { OnErr result ((raw : List ℕ) × Lacks 10 raw × (self.new.ahead ≡ [])
            × (self.old.bytes + length raw ≤ MAX_SESSION)
            × ReadStopsAt (prepend_known self.old.ahead (S.left source.old)) (S.left source.new) raw) }
        ensures few { OnOk result (length self.new.ahead < MAX_LINE) }
        ensures failures { S.failures source.new ≡ S.failures source.old + failures_of result }
    {
        let room = self.room();
        let mut left = room;
        let next = read_line(&mut self.ahead, &mut self.line, &mut left, source)?;
        self.bytes += room - left;
        match next {
            Next::Whole => {
                self.count += 1;
                Ok(Next::Whole)
            }
            Next::Last => Ok(Next::Last),
            Next::End => Ok(Next::End),
            Next::TooMany => Ok(Next::TooMany),
        }
    }
}
