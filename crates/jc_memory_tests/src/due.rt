//! Sinks that compare what is written with what is due, and take no memory. Commands and sessions use them.

ghost use Rattle.std.specs.Prelude.{None};

use jc_io::{Failed, Sink};

/// A sink that compares what is written with what is due. It takes no memory.
#[derive(Drop)]
pub struct Due<'a> {
    all: &'a [u8],
    /// The bytes that are due yet.
    left: &'a [u8],
    /// The number of bytes that were due yet at the last flush.
    waiting: usize,
    /// Whether anything else was written.
    differs: bool,
}

impl<'a> Due<'a> {
    pub fn new(all: &'a str) -> Self {
        Due {
            all: all.as_bytes(),
            left: all.as_bytes(),
            waiting: all.len(),
            differs: false,
        }
    }

    /// Whether nothing was written.
    pub fn is_unused(&self) -> bool {
        !self.differs && self.left.len() == self.all.len()
    }

    /// Whether a prefix of what is due was written, and nothing else.
    pub fn is_front(&self) -> bool {
        !self.differs
    }

    /// Whether all that was due was written, and nothing else.
    pub fn is_whole(&self) -> bool {
        !self.differs && self.left.is_empty()
    }

    /// The number of bytes that are due yet; `None` where some weren't flushed, or anything else was written.
    pub fn flushed_to(&self) -> Option<usize> {
        if self.differs || self.waiting != self.left.len() {
            return None;
        }
        Some(self.waiting)
    }

    pub fn take(&mut self, bytes: &[u8]) {
        match self.left.strip_prefix(bytes) {
            Some(rest) => self.left = rest,
            None => self.differs = true,
        }
    }
}

impl<'a> Sink for Due<'a> {
    ghost taken = { λ _. None };

    ghost failures = { λ _. 0 };

    fn write(&mut self, bytes: &[u8]) -> Result<usize, Failed> {
        self.take(bytes);
        Ok(bytes.len())
    }

    fn flush(&mut self) -> Result<(), Failed> {
        self.waiting = self.left.len();
        Ok(())
    }
}

/// A sink that compares what is written with five texts, of which one is due.
#[derive(Drop)]
pub struct AnyOf<'a> {
    each: [Due<'a>; 5],
}

impl<'a> AnyOf<'a> {
    pub fn new(all: [&'a str; 5]) -> Self {
        let [first, second, third, fourth, fifth] = all;
        AnyOf {
            each: [
                Due::new(first),
                Due::new(second),
                Due::new(third),
                Due::new(fourth),
                Due::new(fifth),
            ],
        }
    }

    /// Whether the text with this number was written.
    pub fn is_whole(&self, number: usize) -> bool {
        match self.each.get(number) {
            Some(due) => due.is_whole(),
            None => false,
        }
    }

    /// Whether one of the texts was written.
    pub fn is_one(&self) -> bool {
        self.each.iter().any(|due| due.is_whole())
    }
}

impl<'a> Sink for AnyOf<'a> {
    ghost taken = { λ _. None };

    ghost failures = { λ _. 0 };

    fn write(&mut self, bytes: &[u8]) -> Result<usize, Failed> {
        for due in self.each.iter_mut() {
            due.take(bytes);
        }
        Ok(bytes.len())
    }

    fn flush(&mut self) -> Result<(), Failed> {
        Ok(())
    }
}
