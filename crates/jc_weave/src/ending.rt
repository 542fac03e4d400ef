//! How each replica ended, and how many events it made.

ghost use Rattle.std.specs.Prelude.{◌≡◌, ◌≤◌, length, map, slice_get, IfOk};
ghost use Rattle.jc_rules.specs.declared.limits.TheConstants.{MAX_EVENTS};
ghost use Rattle.jc_choice.specs.Legal.{own_events};
ghost use Rattle.jc_weave.specs.Weaving.{end_of_state, end_in};

use jc_choice::End;
use jc_network::{Net, Stuck};
use jc_rules::Event;
use std::alloc::{AllocError, Global};

/// The number of events of the replica.
fn count_of(schedule: &[Event], p: u16) -> u64
    requires { length schedule.now ≤ MAX_EVENTS }
    ensures { result ≡ length (own_events schedule.now p) }
{
    let mut count = 0;
    let mut rest = schedule;
    while let Some((event, others)) = rest.split_first() {
        if event.replica() == p {
            count += 1;
        }
        rest = others;
    }
    count
}

/// The number of events of each replica.
pub(crate) fn counts_of(
    alloc: Global,
    schedule: &[Event],
    numbers: &[u16],
) -> Result<Vec<u64>, AllocError>
    requires { length schedule.now ≤ MAX_EVENTS }
    ensures { IfOk result (λ made. made.items ≡ map (λ p. length (own_events schedule.now p)) numbers.now) }
{
    let mut made = Vec::new(alloc);
    let mut rest = numbers;
    while let Some((p, others)) = rest.split_first() {
        made.push(count_of(schedule, *p))?;
        rest = others;
    }
    Ok(made)
}

/// How a replica ended that didn't get stuck.
fn end_of_state(net: &Net, p: u16) -> End
    ensures { result ≡ end_of_state (slice_get net.now.history.now.states p) }
{
    match net.replica(p) {
        Some(replica) => {
            if replica.left().is_empty() {
                End::Finished
            } else {
                End::LimitReached
            }
        }
        None => End::Finished,
    }
}

/// How the replica ended: the stuck event among these that is its own says so, or what is left to it.
fn end_of(net: &Net, stucks: &[Stuck], p: u16) -> Result<End, AllocError>
    ensures { IfOk result (λ end. end ≡ end_in stucks.now net.now.history.now.states p) }
{
    let mut rest = stucks;
    while let Some((stuck, others)) = rest.split_first() {
        if stuck.event.replica() == p {
            return Ok(End::StuckAt(stuck.copy()?));
        }
        rest = others;
    }
    Ok(end_of_state(net, p))
}

/// How each replica ended.
pub(crate) fn ends_of(
    alloc: Global,
    net: &Net,
    stucks: &[Stuck],
    numbers: &[u16],
) -> Result<Vec<End>, AllocError>
    ensures { IfOk result (λ ends. ends.items ≡ map (end_in stucks.now net.now.history.now.states) numbers.now) }
{
    let mut ends = Vec::new(alloc);
    let mut rest = numbers;
    while let Some((p, others)) = rest.split_first() {
        let end = end_of(net, stucks, *p)?;
        ends.push(end)?;
        rest = others;
    }
    Ok(ends)
}
