//! Gates for the tests of threads, and the flags by which they meet.

ghost use Rattle.std.specs.Prelude.{None, Some, if◌then◌else◌};
ghost use Rattle.jc_runner.specs.Asked.{questions_of};

use jc_runner::Gate;
use std::alloc::{AllocError, Global};
use std::sync::Wait;
use std::sync::atomic::{AtomicBool, AtomicU64, Ordering};

/// How many times a flag is looked at.
const LOOKS: u64 = 1_000_000_000;

/// Whether the flag is seen raised.
pub fn is_seen(flag: &AtomicBool) -> bool {
    for _ in 0..LOOKS {
        if flag.load(Ordering::SeqCst) {
            return true;
        }
    }
    false
}

/// A gate that is open.
#[derive(Drop)]
pub struct Open;

impl Gate for Open {
    ghost asked = { λ _. None };

    fn before<R: Wait>(&mut self, _rt: &R, _replica: u16, _step: u64) {}
}

pub fn open_gates(alloc: Global, count: usize) -> Result<Vec<Open>, AllocError> {
    let mut gates = Vec::new(alloc);
    for _ in 0..count {
        gates.push(Open)?;
    }
    Ok(gates)
}

/// At one step of its replica it raises its flag. At another one it looks for the other flag, and raises the last flag
/// where it saw that.
#[derive(Drop)]
pub struct Signal<'a> {
    pub raises: Option<(u64, &'a AtomicBool)>,
    pub looks: Option<(u64, &'a AtomicBool, &'a AtomicBool)>,
}

impl<'a> Gate for Signal<'a> {
    ghost asked = { λ _. None };

    fn before<R: Wait>(&mut self, _rt: &R, _replica: u16, step: u64) {
        if let Some((at, flag)) = self.raises {
            if at == step {
                flag.store(true, Ordering::SeqCst);
            }
        }
        if let Some((at, flag, found)) = self.looks {
            if at == step && is_seen(flag) {
                found.store(true, Ordering::SeqCst);
            }
        }
    }
}

/// The gate of one replica. It counts its calls and stores the count. It raises a flag where a call has another
/// replica's number, or another number of events than calls before. Its ghost lists the calls as long as none has.
#[derive(Drop)]
pub struct Own<'a> {
    pub replica: u16,
    pub times: u64,
    pub right: bool,
    pub count: &'a AtomicU64,
    pub wrong: &'a AtomicBool,
}

impl<'a> Gate for Own<'a> {
    ghost asked = { λ g. if g.right then Some (questions_of g.replica g.times) else None };

    #[tactic(auto, using(crate::proofs::GatingLemmas::one_more, crate::proofs::GatingLemmas::no_more))]
    fn before<R: Wait>(&mut self, _rt: &R, replica: u16, step: u64) {
        if self.right && replica == self.replica && step == self.times && step < u64::MAX {
            self.times += 1;
            self.count.store(self.times, Ordering::SeqCst);
        } else {
            self.right = false;
            self.wrong.store(true, Ordering::SeqCst);
        }
    }
}
