//! Sources and sinks in memory, for the crates of tests: whole, in pieces, and with failures.
#![tactic(auto)]

ghost use Rattle.std.specs.Prelude.{◌≡◌, ℕ, ◌+◌, ◌-◌, ◌^◌, ◌<◌, ◌≤◌, ◌↔◌, min, List, [], length, replicate, Some, None, Ok, Err, IsTrue, IsOk, IsErr, IfOk, OnOk, OnErr};
ghost use Rattle.std.specs.Io.{ReadsAtMost, WritesAtMost};
ghost use Rattle.std.specs.Io.KnownBytes.{Keeps};
ghost use Rattle.jc_io.specs.Streams.{ReadsBytes, WritesBytes, StaysIfKnown, failures_of, write_failures, known_if_counted};
ghost use Rattle.jc_fakes.specs.Fakes.{one_call_on, failures_made, result_of_fake};

use jc_io::{Failed, Sink, Source};
use std::alloc::Global;
use std::marker::Model;

/// A source of bytes in memory. A read returns as many as fit, and never fails.
///
/// Contracts see it as the bytes that are left.
#[derive(Drop)]
pub struct Bytes<'a> {
    left: &'a [u8],
}

impl<'a> Model for Bytes<'a> {
    ghost Value = { List ℕ };

    ghost view = { λ s. s.left.now };
}

impl<'a> Bytes<'a> {
    pub fn new(bytes: &'a [u8]) -> Self
        ensures { result ≡ bytes.now }
    {
        Bytes { left: bytes }
    }
}

impl<'a> Source for Bytes<'a> {
    ghost left = { λ s. Some s };

    ghost failures = { λ _. 0 };

    fn read(&mut self, buf: &mut [u8]) -> Result<usize, Failed>
        ensures bound { ReadsAtMost result buf.new }
        ensures bytes { ReadsBytes (Some self.old) (Some self.new) result buf.new }
        ensures count { result ≡ Ok (min (length self.old) (length buf.old)) }
    {
        let n = buf.len().min(self.left.len());
        let (front, rest) = self.left.split_at(n);
        buf[..n].copy_from_slice(front);
        self.left = rest;
        Ok(n)
    }
}

/// A source or a sink that moves at most one byte at a call.
#[derive(Drop)]
pub struct OneByte<T> {
    pub inner: T,
}

impl<T> OneByte<T> {
    pub fn new(inner: T) -> Self
        ensures { result ≡ record { inner = inner } }
    {
        OneByte { inner }
    }
}

impl<S: Source> Source for OneByte<S> {
    ghost left = { λ s. S.left s.inner };

    ghost failures = { λ s. S.failures s.inner };

    fn read(&mut self, buf: &mut [u8]) -> Result<usize, Failed>
        ensures bound { ReadsAtMost result buf.new }
        ensures bytes { ReadsBytes (S.left self.old.inner) (S.left self.new.inner) result buf.new }
        ensures failures { S.failures self.new.inner ≡ S.failures self.old.inner + failures_of result }
        ensures one { IfOk result (λ n. n ≤ 1) }
    {
        let room = buf.len().min(1);
        self.inner.read(&mut buf[..room])
    }
}

impl<K: Sink> Sink for OneByte<K> {
    ghost taken = { λ s. K.taken s.inner };

    ghost failures = { λ s. K.failures s.inner };

    fn write(&mut self, bytes: &[u8]) -> Result<usize, Failed>
        ensures bound { WritesAtMost result bytes.now }
        ensures bytes { WritesBytes (K.taken self.old.inner) (K.taken self.new.inner) result bytes.now }
        ensures failures { K.failures self.new.inner
            ≡ K.failures self.old.inner + write_failures result bytes.now }
        ensures one { IfOk result (λ n. n ≤ 1) }
    {
        let most = bytes.len().min(1);
        self.inner.write(&bytes[..most])
    }

    fn flush(&mut self) -> Result<(), Failed> {
        self.inner.flush()
    }
}

/// A source of one byte again and again, without end. Contracts don't know its bytes.
#[derive(Drop)]
pub struct Endless {
    pub byte: u8,
}

impl Endless {
    pub fn new(byte: u8) -> Self
        ensures { result ≡ record { byte = byte } }
    {
        Endless { byte }
    }
}

impl Source for Endless {
    ghost left = { λ _. None };

    ghost failures = { λ _. 0 };

    fn read(&mut self, buf: &mut [u8]) -> Result<usize, Failed>
        ensures full { result ≡ Ok (length buf.old) }
        ensures given { buf.new ≡ replicate (length buf.old) self.old.byte }
        ensures same { self.new ≡ self.old }
    {
        buf.fill(self.byte);
        Ok(buf.len())
    }
}

/// What a write of some bytes returns once a sink has no room.
#[derive(Clone, Copy)]
pub enum Then {
    /// `Failed`.
    Fails,
    /// 0.
    TakesNone,
}

/// A source or a sink that fails once, at its call number `at`, and goes on after it.
///
/// Calls count from 0, whatever they do: reads, or writes and flushes. The call that fails doesn't
/// reach what is inside.
#[derive(Drop)]
pub struct FailsAt<T> {
    pub inner: T,
    /// The number of calls before the one that fails; `None` once it has failed.
    pub at: Option<u64>,
}

impl<T> FailsAt<T> {
    pub fn new(inner: T, at: u64) -> Self
        ensures { result ≡ record { inner = inner; at = Some at } }
    {
        FailsAt {
            inner,
            at: Some(at),
        }
    }

    // Counts a call, and returns whether it is the one that fails.
    fn is_due(&mut self) -> bool
        ensures due { IsTrue result ↔ (self.old.at ≡ Some 0) }
        ensures counted { self.new ≡ record self.old { at = one_call_on self.old.at } }
    {
        let at = self.at;
        self.at = at.and_then(|n| n.checked_sub(1));
        at == Some(0)
    }
}

impl<S: Source> Source for FailsAt<S> {
    ghost left = { λ s. S.left s.inner };

    ghost failures = { λ s. S.failures s.inner + failures_made s.at };

    fn read(&mut self, buf: &mut [u8]) -> Result<usize, Failed>
        ensures bound { ReadsAtMost result buf.new }
        ensures bytes { ReadsBytes (S.left self.old.inner) (S.left self.new.inner) result buf.new }
        ensures failures { S.failures self.new.inner + failures_made self.new.at
            ≡ S.failures self.old.inner + failures_made self.old.at + failures_of result }
        ensures due { self.old.at ≡ Some 0 → IsErr result × (self.new.inner ≡ self.old.inner) }
        ensures counted { self.new.at ≡ one_call_on self.old.at }
    {
        if self.is_due() {
            return Err(Failed);
        }
        self.inner.read(buf)
    }
}

impl<K: Sink> Sink for FailsAt<K> {
    ghost taken = { λ s. K.taken s.inner };

    ghost failures = { λ s. K.failures s.inner + failures_made s.at };

    fn write(&mut self, bytes: &[u8]) -> Result<usize, Failed>
        ensures bound { WritesAtMost result bytes.now }
        ensures bytes { WritesBytes (K.taken self.old.inner) (K.taken self.new.inner) result bytes.now }
        ensures failures { K.failures self.new.inner + failures_made self.new.at
            ≡ K.failures self.old.inner + failures_made self.old.at + write_failures result bytes.now }
        ensures due { self.old.at ≡ Some 0 → IsErr result × (self.new.inner ≡ self.old.inner) }
        ensures counted { self.new.at ≡ one_call_on self.old.at }
    {
        if self.is_due() {
            return Err(Failed);
        }
        self.inner.write(bytes)
    }

    fn flush(&mut self) -> Result<(), Failed>
        ensures bytes { OnOk result (Keeps (K.taken self.old.inner) (K.taken self.new.inner)) }
        ensures stays { OnErr result (StaysIfKnown (K.taken self.old.inner) (K.taken self.new.inner)) }
        ensures failures { K.failures self.new.inner + failures_made self.new.at
            ≡ K.failures self.old.inner + failures_made self.old.at + failures_of result }
        ensures due { self.old.at ≡ Some 0 → IsErr result × (self.new.inner ≡ self.old.inner) }
        ensures counted { self.new.at ≡ one_call_on self.old.at }
    {
        if self.is_due() {
            return Err(Failed);
        }
        self.inner.flush()
    }
}

/// A sink that keeps what it took. Want of memory is `Failed`.
///
/// Contracts see it as the bytes that it keeps and the number of its failures. After 2^64 - 1 failures it drops the
/// bytes, and contracts don't know what it took.
#[derive(Drop)]
pub struct Taken {
    bytes: Vec<u8>,
    failures: u64,
}

impl Model for Taken {
    ghost use Rattle.jc_fakes.specs.Fakes.{Kept};

    ghost Value = { Kept };

    ghost view = { λ s. record { bytes = s.bytes.items; failures = s.failures } };
}

impl Taken {
    pub fn new(alloc: Global) -> Self
        ensures { result ≡ record { bytes = []; failures = 0 } }
    {
        Taken {
            bytes: Vec::new(alloc),
            failures: 0,
        }
    }

    /// The bytes that it took, in order.
    pub fn as_slice(&self) -> &[u8]
        ensures { result.now ≡ self.now.bytes }
    {
        self.bytes.as_slice()
    }
}

impl Sink for Taken {
    ghost taken = { λ s. known_if_counted s.failures (Some s.bytes) };

    ghost failures = { λ s. s.failures };

    fn write(&mut self, bytes: &[u8]) -> Result<usize, Failed>
        ensures bound { WritesAtMost result bytes.now }
        ensures bytes { WritesBytes (known_if_counted self.old.failures (Some self.old.bytes))
            (known_if_counted self.new.failures (Some self.new.bytes)) result bytes.now }
        ensures failures { self.new.failures ≡ self.old.failures + write_failures result bytes.now }
        ensures whole { IfOk result (λ n. n ≡ length bytes.now) }
    {
        // No further failure could be counted, so none may come: the bytes are dropped.
        if self.failures == u64::MAX {
            return Ok(bytes.len());
        }
        if self.bytes.extend_from_slice(bytes).is_err() {
            self.failures += 1;
            return Err(Failed);
        }
        Ok(bytes.len())
    }

    fn flush(&mut self) -> Result<(), Failed>
        ensures ok { IsOk result }
        ensures same { self.new ≡ self.old }
    {
        Ok(())
    }
}

/// A sink that counts its flushes.
#[derive(Drop)]
pub struct CountsFlushes<K> {
    pub sink: K,
    /// The number of its flushes, 2^64 - 1 at most.
    pub flushes: u64,
}

impl<K: Sink> CountsFlushes<K> {
    pub fn new(sink: K) -> Self
        ensures { result ≡ record { sink = sink; flushes = 0 } }
    {
        CountsFlushes { sink, flushes: 0 }
    }
}

impl<K: Sink> Sink for CountsFlushes<K> {
    ghost taken = { λ s. K.taken s.sink };

    ghost failures = { λ s. K.failures s.sink };

    fn write(&mut self, bytes: &[u8]) -> Result<usize, Failed>
        ensures bound { WritesAtMost result bytes.now }
        ensures bytes { WritesBytes (K.taken self.old.sink) (K.taken self.new.sink) result bytes.now }
        ensures failures { K.failures self.new.sink
            ≡ K.failures self.old.sink + write_failures result bytes.now }
        ensures same { self.new.flushes ≡ self.old.flushes }
    {
        self.sink.write(bytes)
    }

    fn flush(&mut self) -> Result<(), Failed>
        ensures bytes { OnOk result (Keeps (K.taken self.old.sink) (K.taken self.new.sink)) }
        ensures stays { OnErr result (StaysIfKnown (K.taken self.old.sink) (K.taken self.new.sink)) }
        ensures failures { K.failures self.new.sink ≡ K.failures self.old.sink + failures_of result }
        ensures counted { self.new.flushes ≡ min (self.old.flushes + 1) (2 ^ 64 - 1) }
    {
        self.flushes = self.flushes.saturating_add(1);
        self.sink.flush()
    }
}

/// A sink that takes `room` bytes in all, and then refuses.
///
/// Empty writes and flushes succeed without room. After 2^64 - 1 refusals it passes all writes on, and contracts don't
/// know what it took.
#[derive(Drop)]
pub struct TakesUpTo<K> {
    pub sink: K,
    /// The number of bytes that it takes yet.
    pub room: usize,
    pub then: Then,
    /// The number of writes that it refused.
    pub refused: u64,
}

impl<K: Sink> TakesUpTo<K> {
    pub fn new(sink: K, room: usize, then: Then) -> Self
        ensures { result ≡ record { sink = sink; room = room; then = then; refused = 0 } }
    {
        TakesUpTo {
            sink,
            room,
            then,
            refused: 0,
        }
    }
}

impl<K: Sink> Sink for TakesUpTo<K> {
    ghost taken = { λ s. known_if_counted s.refused (K.taken s.sink) };

    ghost failures = { λ s. K.failures s.sink + s.refused };

    fn write(&mut self, bytes: &[u8]) -> Result<usize, Failed>
        ensures bound { WritesAtMost result bytes.now }
        ensures bytes { WritesBytes (known_if_counted self.old.refused (K.taken self.old.sink))
            (known_if_counted self.new.refused (K.taken self.new.sink)) result bytes.now }
        ensures failures { K.failures self.new.sink + self.new.refused
            ≡ K.failures self.old.sink + self.old.refused + write_failures result bytes.now }
        ensures room { self.old.refused < 2 ^ 64 - 1
            → IfOk result (λ n. self.new.room + n ≡ self.old.room) }
        ensures refuses { self.old.refused < 2 ^ 64 - 1 → self.old.room ≡ 0 → 0 < length bytes.now
            → (result ≡ result_of_fake self.old.then)
            × (self.new ≡ record self.old { refused = self.old.refused + 1 }) }
        ensures takes { 0 < self.old.room → self.new.refused ≡ self.old.refused }
        ensures lasting { OnErr result (self.new.room ≡ self.old.room) }
        ensures same { self.new.then ≡ self.old.then }
    {
        // No further refusal could be counted, so none may come.
        if self.refused == u64::MAX {
            return self.sink.write(bytes);
        }
        if self.room == 0 && !bytes.is_empty() {
            self.refused += 1;
            return match self.then {
                Then::Fails => Err(Failed),
                Then::TakesNone => Ok(0),
            };
        }
        let most = bytes.len().min(self.room);
        let n = self.sink.write(&bytes[..most])?;
        self.room -= n;
        Ok(n)
    }

    fn flush(&mut self) -> Result<(), Failed>
        ensures bytes { OnOk result (Keeps (known_if_counted self.old.refused (K.taken self.old.sink))
            (known_if_counted self.new.refused (K.taken self.new.sink))) }
        ensures stays { OnErr result (StaysIfKnown (known_if_counted self.old.refused (K.taken self.old.sink))
            (known_if_counted self.new.refused (K.taken self.new.sink))) }
        ensures failures { K.failures self.new.sink + self.new.refused
            ≡ K.failures self.old.sink + self.old.refused + failures_of result }
        ensures same { self.new ≡ record self.old { sink = self.new.sink } }
    {
        self.sink.flush()
    }
}
