//! The bytes of the line that is being read. `Lines` pushes them, and sessions answer the content.

ghost use Rattle.std.specs.Prelude.{◌≡◌, ◌+◌, ◌<◌, ◌≤◌, [], ◌∷◌, ◌++◌, length, take, MatchOption, if◌then◌else◌};
ghost use Rattle.jc_rules.specs.declared.limits.TheConstants.{MAX_LINE};
ghost use Rattle.jc_session.specs.Lines.{without_cr};

use jc_rules::limits::MAX_LINE;
use std::marker::Model;

/// Bytes of a line that are kept: one more than it may have.
const KEPT: usize = MAX_LINE + 1;

/// The bytes of a line so far. One byte more than a line may have is kept, by which a line is known to be too long;
/// the bytes after it are dropped.
#[derive(Drop)]
pub struct Line {
    bytes: [u8; KEPT],
    len: usize,
}

impl Model for Line {
    ghost use Rattle.std.specs.Prelude.{List, ℕ, ◌≤◌, ◌+◌, take};
    ghost use Rattle.jc_rules.specs.declared.limits.TheConstants.{MAX_LINE};

    ghost Value = { List ℕ };

    ghost view = { λ s. take s.len s.bytes };

    ghost invariant = { λ s. s.len ≤ MAX_LINE + 1 };
}

impl Line {
    pub fn new() -> Self
        ensures { result ≡ [] }
    {
        Line {
            bytes: [0; KEPT],
            len: 0,
        }
    }

    pub fn clear(&mut self)
        ensures { self.new ≡ [] }
    {
        self.len = 0;
    }

    pub fn push(&mut self, byte: u8)
        ensures { self.new ≡ take (MAX_LINE + 1) (self.old ++ byte ∷ []) }
    {
        if self.len < KEPT {
            self.bytes[self.len] = byte;
            self.len += 1;
        }
    }

    /// The line, and `None` where it is too long. Where an LF ended it, a CR before that is no part of it.
    pub fn content(&self, ended: bool) -> Option<&[u8]>
        ensures { MatchOption result (MAX_LINE < length self.now) (λ s.
            (length self.now ≤ MAX_LINE) × (s.now ≡ (if ended then without_cr self.now else self.now))) }
    {
        if self.len > MAX_LINE {
            return None;
        }
        let mut stop = self.len;
        if ended && stop > 0 && self.bytes[stop - 1] == b'\r' {
            stop -= 1;
        }
        Some(&self.bytes[..stop])
    }
}
