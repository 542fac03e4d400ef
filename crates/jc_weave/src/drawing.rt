//! The draw: which replica makes the next event.

ghost use Rattle.std.specs.Prelude.{◌≡◌, ◌≢◌, [], map, IfOk};
ghost use Rattle.jc_syntax.specs.Trees.{cmd_of};
ghost use Rattle.rand_pcg.specs.Pcg.{pcg32};
ghost use Rattle.jc_weave.specs.Looms.{is_last_yield, has_sent, is_waiting, phase_at, eager_of, pool, drawn_of};

use jc_choice::{Phase, yields};
use jc_network::Net;
use jc_syntax::Cmd;
use rand_core::utils::NextWord;
use rand_pcg::Pcg32;
use std::alloc::{AllocError, Global};

/// Returns whether one command is left, and it is a yield.
fn is_last_yield(left: &[Cmd]) -> bool
    ensures { result ≡ is_last_yield (map cmd_of left.now) }
{
    match left.split_first() {
        Some((cmd, rest)) => rest.is_empty() && yields(cmd),
        None => false,
    }
}

/// Returns whether a replica in this phase has sent at its yield.
fn has_sent(phase: Phase) -> bool
    ensures { result ≡ has_sent phase }
{
    match phase {
        Phase::Start => false,
        Phase::Receiving(_) | Phase::Applying => true,
    }
}

/// The phase of the replica.
pub(crate) fn phase_at(phases: &[Phase], p: u16) -> Phase
    ensures { result ≡ phase_at phases.now p }
{
    match phases.get(usize::from(p)) {
        Some(phase) => *phase,
        None => Phase::Start,
    }
}

/// Returns whether the replica has sent at a yield that is its last command.
fn is_waiting(net: &Net, phases: &[Phase], p: u16) -> bool
    ensures { result ≡ is_waiting net.now.history.now.states phases.now p }
{
    match net.replica(p) {
        Some(replica) => is_last_yield(replica.left()) && has_sent(phase_at(phases, p)),
        None => false,
    }
}

/// Those of the replicas that don't wait.
fn eager_of(
    alloc: Global,
    net: &Net,
    phases: &[Phase],
    live: &[u16],
) -> Result<Vec<u16>, AllocError>
    ensures { IfOk result (λ ps. ps.items ≡ eager_of net.now.history.now.states phases.now live.now) }
{
    let mut some = Vec::new(alloc);
    let mut rest = live;
    while let Some((p, others)) = rest.split_first() {
        if !is_waiting(net, phases, *p) {
            some.push(*p)?;
        }
        rest = others;
    }
    Ok(some)
}

/// The one at the generator's next word, modulo their number.
fn at_word(ps: &[u16], rng: &mut Pcg32) -> u16
    requires { ps.now ≢ [] }
    ensures drawn { result ≡ drawn_of ps.now rng.old }
    ensures moved { rng.new ≡ (pcg32 rng.old).1 }
{
    let word = rng.next_word();
    ps[word as usize % ps.len()]
}

/// Draws one of those that don't wait, or of all where each waits. The generator moves by one word.
pub(crate) fn draw(
    alloc: Global,
    net: &Net,
    phases: &[Phase],
    live: &[u16],
    rng: &mut Pcg32,
) -> Result<u16, AllocError>
    requires { live.now ≢ [] }
    ensures drawn { IfOk result (λ p. p ≡ drawn_of (pool net.now.history.now.states phases.now live.now) rng.old) }
    ensures moved { IfOk result (λ p. rng.new ≡ (pcg32 rng.old).1) }
{
    let some = eager_of(alloc, net, phases, live)?;
    if some.is_empty() {
        Ok(at_word(live, rng))
    } else {
        Ok(at_word(&some, rng))
    }
}
