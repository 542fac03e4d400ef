//! Bytes that were read ahead of the current line. `Lines` takes each byte of a source from here.

ghost use Rattle.std.specs.Prelude.{◌≡◌, ◌≢◌, ℕ, ◌+◌, ◌<◌, ◌≤◌, List, [], ◌∷◌, ◌++◌, length, take, drop, Option, Some, None, Ok, IfOk, OnOk, OnErr, IsTrue, ◌↔◌};
ghost use Rattle.std.specs.Io.KnownBytes.{Consumes, IsAtEnd, prepend_known};
ghost use Rattle.jc_io.specs.Streams.{StaysIfKnown, failures_of};
ghost use Rattle.jc_rules.specs.declared.limits.TheConstants.{MAX_LINE};

use jc_io::{Failed, Source};
use jc_rules::limits::MAX_LINE;
use std::marker::Model;

/// The bytes that were read from a source and not yet taken. A read takes at most as many as a line may have.
#[derive(Drop)]
pub struct Ahead {
    buf: [u8; MAX_LINE],
    start: usize,
    stop: usize,
}

impl Model for Ahead {
    ghost use Rattle.std.specs.Prelude.{List, ℕ, ◌≤◌, slice_range};
    ghost use Rattle.jc_rules.specs.declared.limits.TheConstants.{MAX_LINE};

    ghost Value = { List ℕ };

    ghost view = { λ a. slice_range a.buf a.start a.stop };

    ghost invariant = { λ a. (a.start ≤ a.stop) × (a.stop ≤ MAX_LINE) };
}

impl Ahead {
    pub fn new() -> Self
        ensures { result ≡ [] }
    {
        Ahead {
            buf: [0; MAX_LINE],
            start: 0,
            stop: 0,
        }
    }

    fn is_empty(&self) -> bool
        ensures is { IsTrue result ↔ (self.now ≡ []) }
        ensures few { length self.now ≤ MAX_LINE }
    {
        self.start == self.stop
    }

    /// Reads some bytes, and none only at the end.
    fn fill<S: Source>(&mut self, source: &mut S) -> Result<(), Failed>
        requires { self.old ≡ [] }
        ensures ok { OnOk result (Consumes (S.left source.old) (S.left source.new) self.new
            × (self.new ≡ [] → IsAtEnd (S.left source.new))) }
        ensures err { OnErr result ((self.new ≡ []) × StaysIfKnown (S.left source.old) (S.left source.new)) }
        ensures failures { S.failures source.new ≡ S.failures source.old + failures_of result }
    {
        self.start = 0;
        self.stop = 0;
        let n = source.read(&mut self.buf)?;
        self.stop = n;
        Ok(())
    }

    /// Takes the first byte.
    fn first(&mut self) -> u8
        requires { self.old ≢ [] }
        ensures { self.old ≡ result ∷ self.new }
    {
        let byte = self.buf[self.start];
        self.start += 1;
        byte
    }

    /// The next byte, and `None` at the end. The source is read only where no byte is left of the last read.
    pub fn next<S: Source>(&mut self, source: &mut S) -> Result<Option<u8>, Failed>
        ensures some { (b : ℕ) → result ≡ Ok (Some b)
            → Consumes (prepend_known self.old (S.left source.old)) (prepend_known self.new (S.left source.new))
            (b ∷ []) }
        ensures none { result ≡ Ok None
            → IsAtEnd (prepend_known self.old (S.left source.old))
            × IsAtEnd (prepend_known self.new (S.left source.new))
            × Consumes (prepend_known self.old (S.left source.old)) (prepend_known self.new (S.left source.new)) [] }
        ensures err { OnErr result
            ((self.old ≡ []) × (self.new ≡ []) × StaysIfKnown (S.left source.old) (S.left source.new)) }
        ensures failures { S.failures source.new ≡ S.failures source.old + failures_of result }
        ensures kept { self.old ≢ [] → source.new ≡ source.old }
        ensures few { OnOk result (length self.new < MAX_LINE) }
    {
        if self.is_empty() {
            self.fill(source)?;
            if self.is_empty() {
                return Ok(None);
            }
        }
        Ok(Some(self.first()))
    }
}
