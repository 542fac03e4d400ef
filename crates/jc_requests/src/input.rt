//! The requests of an input, read one by one up to its limits. The command `serve` answers each before the next is read.

ghost use Rattle.std.specs.Prelude.{◌≡◌, ℕ, ◌+◌, ◌<◌, ◌≤◌, ◌⊎◌, ◌==◌, if◌then◌else◌, List, [], ◌∷◌, ◌++◌, length, Vec, None, Some, Ok, OnOk, IfSome, IsErrOf};
ghost use Rattle.std.specs.Io.KnownBytes.{Consumes, IsAtEnd, prepend_known};
ghost use Rattle.jc_rules.specs.declared.limits.TheConstants.{MAX_LINE};
ghost use Rattle.jc_session.specs.LineReading.{ReadStopsAt};
ghost use Rattle.jc_session.specs.Views.{line_of_bytes};
ghost use Rattle.jc_requests.specs.Asked.{asked};
ghost use Rattle.jc_requests.specs.Input.{kept, size_of, IsTurn, IsPart, IsTextPart, IsCutShort};
ghost use Rattle.jc_requests.specs.InputViews.{line_by, turn_of};

use crate::forms::asked;
use crate::kinds::Asked;
use crate::text::{TextEnd, read_text};
use crate::turn::Turn;
use jc_io::{ReadFault, Source};
use jc_session::{Ahead, Line, Next, read_line};
use std::alloc::Global;

/// Requests of an input.
pub const MAX_REQUESTS: u64 = 4_294_967_296;

/// Bytes of the requests and texts of an input.
pub const MAX_INPUT: u64 = 1_099_511_627_776;

/// The reading of requests: the bytes read ahead, the line that was read last and whether an LF ended it, and how many
/// bytes and requests may be read yet.
#[derive(Drop)]
pub struct Input {
    pub ahead: Ahead,
    pub line: Line,
    pub ended: bool,
    pub bytes: u64,
    pub requests: u64,
}

impl Input {
    pub fn new() -> Self
        ensures ahead { result.ahead ≡ [] }
        ensures limits { (result.bytes ≡ MAX_INPUT) × (result.requests ≡ MAX_REQUESTS) }
    {
        Input {
            ahead: Ahead::new(),
            line: Line::new(),
            ended: false,
            bytes: MAX_INPUT,
            requests: MAX_REQUESTS,
        }
    }

    /// The line that was read last, without its end. `None` is one that is too long.
    pub fn line(&self) -> Option<&[u8]>
        ensures { line_of_bytes result ≡ line_by self.now.ended self.now.line }
    {
        self.line.content(self.ended)
    }

    /// How many bytes the next request may have: none where none may come.
    fn room(&self) -> u64
        ensures { result ≡ (if self.now.requests == 0 then 0 else self.now.bytes) }
    {
        if self.requests == 0 { 0 } else { self.bytes }
    }

    /// How many bytes behind the line are a text, where it says so.
    fn size(&self) -> Option<u64>
        ensures { result ≡ size_of (asked (line_by self.now.ended self.now.line)) }
    {
        match asked(self.line()) {
            Some(Asked::Scenario(size)) => Some(size),
            _ => None,
        }
    }

    /// Reads what is behind a line that an LF ended.
    fn read_behind<S: Source>(&mut self, alloc: Global, source: &mut S) -> Result<Turn, ReadFault>
        ensures line { result ≡ Ok Turn.Line → (size_of (asked (line_by self.old.ended self.old.line)) ≡ None)
            × (self.new ≡ self.old) × (source.new ≡ source.old) }
        ensures text { (v : Vec ℕ Global) → result ≡ Ok (Turn.Text v) → (text : List ℕ)
            × (size_of (asked (line_by self.old.ended self.old.line)) ≡ Some (length text))
            × Consumes (prepend_known self.old.ahead (S.left source.old))
            (prepend_known self.new.ahead (S.left source.new)) text
            × (v.items ≡ kept text) × (self.new.bytes + length text ≡ self.old.bytes)
            × (self.new.requests ≡ self.old.requests) }
        ensures cut_short { result ≡ Ok Turn.CutShort → (part : List ℕ) × (n : ℕ)
            × (size_of (asked (line_by self.old.ended self.old.line)) ≡ Some n) × (length part < n)
            × Consumes (prepend_known self.old.ahead (S.left source.old))
            (prepend_known self.new.ahead (S.left source.new)) part
            × IsAtEnd (prepend_known self.new.ahead (S.left source.new)) × (length part ≤ self.old.bytes) }
        ensures too_many { result ≡ Ok Turn.TooMany → (part : List ℕ) × (b : ℕ) × (n : ℕ)
            × (size_of (asked (line_by self.old.ended self.old.line)) ≡ Some n) × (length part < n)
            × Consumes (prepend_known self.old.ahead (S.left source.old))
            (prepend_known self.new.ahead (S.left source.new)) (part ++ b ∷ [])
            × (length part ≡ self.old.bytes) }
        ensures never { result ≡ Ok Turn.End → ⊥ }
        ensures failed { IsErrOf result ReadFault.Failed → (part : List ℕ) × (n : ℕ)
            × (size_of (asked (line_by self.old.ended self.old.line)) ≡ Some n) × (length part < n)
            × (self.new.ahead ≡ []) × (length part ≤ self.old.bytes)
            × ReadStopsAt (prepend_known self.old.ahead (S.left source.old)) (S.left source.new) part
            × (S.failures source.new ≡ S.failures source.old + 1) }
        ensures memory { IsErrOf result ReadFault.Memory → (part : List ℕ) × (n : ℕ)
            × (size_of (asked (line_by self.old.ended self.old.line)) ≡ Some n) × (length part ≤ n)
            × Consumes (prepend_known self.old.ahead (S.left source.old))
            (prepend_known self.new.ahead (S.left source.new)) part
            × (length part ≤ self.old.bytes) × (S.failures source.new ≡ S.failures source.old) }
        ensures ok { OnOk result (S.failures source.new ≡ S.failures source.old) }
        ensures few { length self.old.ahead < MAX_LINE → length self.new.ahead < MAX_LINE }
    {
        let Some(size) = self.size() else {
            return Ok(Turn::Line);
        };
        match read_text(alloc, size, &mut self.ahead, &mut self.bytes, source)? {
            TextEnd::Whole(text) => Ok(Turn::Text(text)),
            TextEnd::CutShort => Ok(Turn::CutShort),
            TextEnd::TooMany => Ok(Turn::TooMany),
        }
    }

    /// What a line is that the end of the input ended, behind which no text can be.
    fn at_end(&self, alloc: Global) -> Turn
        ensures line { result ≡ Turn.Line → size_of (asked (line_by self.now.ended self.now.line)) ≡ None }
        ensures text { (v : Vec ℕ Global) → result ≡ Turn.Text v
            → (v.items ≡ []) × (size_of (asked (line_by self.now.ended self.now.line)) ≡ Some 0) }
        ensures cut_short { result ≡ Turn.CutShort → (n : ℕ)
            × (size_of (asked (line_by self.now.ended self.now.line)) ≡ Some n) × (0 < n) }
        ensures never { (result ≡ Turn.End → ⊥) × (result ≡ Turn.TooMany → ⊥) }
    {
        match self.size() {
            None => Turn::Line,
            Some(0) => Turn::Text(Vec::new(alloc)),
            Some(_) => Turn::CutShort,
        }
    }

    /// Reads the next request: a line, or a text with the line before it. A line is read up to its LF and no further. A
    /// text is read whole, however long it is, and at most `MAX_TEXT + 1` of its bytes are kept. At most one byte past
    /// the limits is taken.
    ///
    /// After a failed read, past a limit and without memory the request is lost of which something was read.
    pub fn next<S: Source>(&mut self, alloc: Global, source: &mut S) -> Result<Turn, ReadFault>
        ensures turn { IfSome (turn_of result (line_by self.new.ended self.new.line)) (λ turn. (read : List ℕ)
            × IsTurn (prepend_known self.new.ahead (S.left source.new)) read turn
            × Consumes (prepend_known self.old.ahead (S.left source.old))
            (prepend_known self.new.ahead (S.left source.new)) read
            × (self.new.bytes + length read ≡ self.old.bytes) × (self.new.requests + 1 ≡ self.old.requests)) }
        ensures end { result ≡ Ok Turn.End → IsAtEnd (prepend_known self.old.ahead (S.left source.old))
            × Consumes (prepend_known self.old.ahead (S.left source.old))
            (prepend_known self.new.ahead (S.left source.new)) [] }
        ensures cut_short { result ≡ Ok Turn.CutShort → (read : List ℕ) × IsCutShort read
            × Consumes (prepend_known self.old.ahead (S.left source.old))
            (prepend_known self.new.ahead (S.left source.new)) read
            × IsAtEnd (prepend_known self.new.ahead (S.left source.new))
            × (length read ≤ self.old.bytes) × (0 < self.old.requests) }
        ensures too_many { result ≡ Ok Turn.TooMany → (read : List ℕ) × (b : ℕ) × IsPart read
            × Consumes (prepend_known self.old.ahead (S.left source.old))
            (prepend_known self.new.ahead (S.left source.new)) (read ++ b ∷ [])
            × (((length read ≡ self.old.bytes) × (0 < self.old.requests))
            ⊎ ((self.old.requests ≡ 0) × (read ≡ []))) }
        ensures failed { IsErrOf result ReadFault.Failed → (read : List ℕ) × IsPart read × (self.new.ahead ≡ [])
            × (length read ≤ self.old.bytes)
            × ReadStopsAt (prepend_known self.old.ahead (S.left source.old)) (S.left source.new) read
            × (S.failures source.new ≡ S.failures source.old + 1) }
        ensures memory { IsErrOf result ReadFault.Memory → (read : List ℕ) × IsTextPart read
            × Consumes (prepend_known self.old.ahead (S.left source.old))
            (prepend_known self.new.ahead (S.left source.new)) read
            × (length read ≤ self.old.bytes) × (S.failures source.new ≡ S.failures source.old) }
        ensures ok { OnOk result (S.failures source.new ≡ S.failures source.old) }
        ensures few { length self.new.ahead < MAX_LINE }
    {
        let mut room = self.room();
        match read_line(&mut self.ahead, &mut self.line, &mut room, source)? {
            Next::Whole => {
                self.ended = true;
                self.bytes = room;
                self.requests -= 1;
                self.read_behind(alloc, source)
            }
            Next::Last => {
                self.ended = false;
                self.bytes = room;
                self.requests -= 1;
                Ok(self.at_end(alloc))
            }
            Next::End => Ok(Turn::End),
            Next::TooMany => Ok(Turn::TooMany),
        }
    }
}
