//! An output over a sink. What it is given is held back and written many bytes at a time; after a write that failed
//! nothing more is written.

ghost use Rattle.std.specs.Prelude.{◌≡◌, ◌+◌, ℕ, List, [], true, false, not, take, OnOk, OnErr};
ghost use Rattle.std.specs.Io.KnownBytes.{Keeps};
ghost use Rattle.jc_io.specs.Streams.{StaysIfKnown, failures_of};
ghost use Rattle.jc_io.specs.Written.{Stream, sink};
ghost use Rattle.jc_out.specs.Out.{output, AddsText, GaveText};
ghost use Rattle.jc_out.specs.Pieces.{pieces_text, EndsAfter};

use jc_io::{Failed, Sink, write_all};
use std::alloc::Global;

/// So many bytes and more are sent; fewer are held.
const FULL: usize = 65_536;

/// The first room: for so many, and for a text that goes beyond them where it is short.
const ROOM: usize = FULL + 4_096;

/// Room for what an output holds, where there is memory for it. It grows where more is needed.
pub fn room(alloc: Global) -> Vec<u8>
    ensures { result.items ≡ [] }
{
    match Vec::with_capacity(alloc, ROOM) {
        Ok(room) => room,
        Err(_) => Vec::new(alloc),
    }
}

/// An output over a sink, with the bytes that aren't sent yet. After a failed write it takes no more.
///
/// It has references alone and owns no memory, so who made it over a sink knows, once it is gone, what was done to that.
#[derive(Drop)]
pub struct Out<'a, K> {
    sink: &'a mut K,
    /// The bytes that aren't sent yet. A text that is put behind them is given too.
    pub held: &'a mut Vec<u8>,
    is_broken: bool,
}

impl<'a, K: Sink> Out<'a, K> {
    /// An output over the sink. What `held` has, as a rule nothing (`room`), is what it is given first.
    pub fn new(to: &'a mut K, held: &'a mut Vec<u8>) -> Out<'a, K>
        ensures same_reference { result.sink.ghost_name ≡ to.entry.ghost_name }
        ensures given { GaveText held.old.items (sink K.Sink to.old) (output K.Sink result) }
    {
        Out {
            sink: to,
            held,
            is_broken: false,
        }
    }

    /// Whether a write failed.
    pub fn is_broken(&self) -> bool
        ensures { result ≡ self.now.is_broken }
    {
        self.is_broken
    }

    /// Sends what is held. After a failed write it does nothing.
    pub fn send(&mut self)
        ensures added { AddsText [] (output K.Sink self.old) (output K.Sink self.new) }
        ensures none { self.new.is_broken ≡ false → self.new.held.now.items ≡ [] }
    {
        if self.is_broken {
            return;
        }
        match write_all(self.sink, self.held.as_slice()) {
            Ok(()) => self.held.clear(),
            Err(Failed) => self.is_broken = true,
        }
    }

    /// Writes bytes, where none are held. After a failed write it does nothing.
    fn write(&mut self, bytes: &[u8])
        requires { self.old.is_broken ≡ false → self.old.held.now.items ≡ [] }
        ensures { AddsText bytes.now (output K.Sink self.old) (output K.Sink self.new) }
    {
        if self.is_broken {
            return;
        }
        match write_all(self.sink, bytes) {
            Ok(()) => {}
            Err(Failed) => self.is_broken = true,
        }
    }

    /// Holds bytes behind the others, where they are few and there is memory for them. Returns whether it does.
    fn hold(&mut self, bytes: &[u8]) -> bool
        requires { self.old.is_broken ≡ false }
        ensures held { result ≡ true → AddsText bytes.now (output K.Sink self.old) (output K.Sink self.new) }
        ensures same { result ≡ false → output K.Sink self.new ≡ output K.Sink self.old }
    {
        bytes.len() < FULL && self.held.extend_from_slice(bytes).is_ok()
    }

    /// Writes bytes at once, behind those that are held. After a failed write it does nothing.
    pub fn pass(&mut self, bytes: &[u8])
        ensures { AddsText bytes.now (output K.Sink self.old) (output K.Sink self.new) }
    {
        self.send();
        self.write(bytes);
    }

    /// Takes bytes: holds them, or writes them behind those that are held, where they are many or there is no memory to
    /// hold them. After a failed write it does nothing.
    pub fn push(&mut self, bytes: &[u8])
        ensures { AddsText bytes.now (output K.Sink self.old) (output K.Sink self.new) }
    {
        if self.is_broken {
            return;
        }
        if self.hold(bytes) {
            self.send_much();
        } else {
            self.pass(bytes);
        }
    }

    /// Sends what is held, where it is much.
    pub fn send_much(&mut self)
        ensures { AddsText [] (output K.Sink self.old) (output K.Sink self.new) }
    {
        if self.held.len() >= FULL {
            self.send();
        }
    }

    /// Sends what is held, and from now on holds in this room what it is given. After a failed write it sends nothing.
    pub fn change_room(&mut self, room: Vec<u8>)
        requires { room.items ≡ [] }
        ensures { AddsText [] (output K.Sink self.old) (output K.Sink self.new) }
    {
        self.send();
        *self.held = room;
    }

    /// The end of a task that has given the first n of its pieces, whatever these are: sends what is held, and returns
    /// whether no write failed.
    pub fn end(&mut self) -> bool
        ensures same_reference { self.new.sink.ghost_name ≡ self.old.sink.ghost_name }
        ensures pieces { (n : ℕ) (pieces : List (List ℕ)) (first : Stream)
            → GaveText (pieces_text (take n pieces)) first (output K.Sink self.old)
            → EndsAfter n pieces first (output K.Sink self.new) }
        ensures whole { result ≡ not self.new.is_broken }
    {
        self.send();
        !self.is_broken
    }

    /// Flushes the sink, of which all was sent. A failure isn't one of a write.
    pub fn flush(&mut self) -> Result<(), Failed>
        ensures same_reference { self.new.sink.ghost_name ≡ self.old.sink.ghost_name }
        ensures held { self.new.held.now ≡ self.old.held.now }
        ensures broken { self.new.is_broken ≡ self.old.is_broken }
        ensures bytes { OnOk result (Keeps (K.taken self.old.sink.now) (K.taken self.new.sink.now)) }
        ensures stays { OnErr result (StaysIfKnown (K.taken self.old.sink.now) (K.taken self.new.sink.now)) }
        ensures failures { K.failures self.new.sink.now ≡ K.failures self.old.sink.now + failures_of result }
    {
        self.sink.flush()
    }
}
