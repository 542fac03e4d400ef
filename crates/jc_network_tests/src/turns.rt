//! The calls that tests make on a network. A network is owned here alone, since each owner of one costs much to prove.

use crate::choices::chooses;
use crate::documents::documents_are_shown;
use crate::hundred::have_all;
use crate::meanings::{have_run, is_meant_as};
use crate::nets::{after, has_dumps, run};
use crate::networks::{
    all_is_told, counts_none_given, missing_replicas, takes_100_000, takes_are_refused,
};
use crate::places::places_are_shown;
use crate::undoing::{last_steps, there_and_back};
use jc_choice::Phase;
use jc_network::Net;
use jc_rules::Event;
use std::alloc::Global;
use std::cell::Cell;
use std::process::Abort;
use std::test::Fail;

/// What a test does with a network.
#[derive(Clone, Copy)]
pub enum Turn<'a> {
    MissingReplicas,
    TakesAreRefused,
    Full,
    NoneGivenIsCounted,
    ToldIsMade,
    Documents,
    Places,
    /// A replica chooses in a phase: the event, and its phase after it.
    Choice(u16, Phase, Option<(Event, Phase)>),
    /// The events lead there and back, and there once more.
    ThereAndBack(&'a [Event]),
    /// The last step after some events, and on the way back.
    LastSteps,
    /// The tree that the operations of a replica mean.
    Meaning(u16, &'a str),
    /// Events at random, by a seed that each of them changes.
    Random(&'a Cell<u64>),
    HasAll,
    /// The dump lines of all replicas.
    Dumps(&'a str),
}

fn take(rt: &impl Abort, alloc: Global, net: &mut Net, turn: &Turn) -> Result<(), Fail> {
    match turn {
        Turn::MissingReplicas => missing_replicas(rt, alloc, net),
        Turn::TakesAreRefused => takes_are_refused(rt, net),
        Turn::Full => takes_100_000(rt, net),
        Turn::NoneGivenIsCounted => counts_none_given(rt, net),
        Turn::ToldIsMade => all_is_told(rt, net),
        Turn::Documents => documents_are_shown(rt, alloc, net),
        Turn::Places => places_are_shown(rt, alloc, net)?,
        Turn::Choice(p, phase, want) => chooses(rt, net, *p, *phase, want),
        Turn::ThereAndBack(events) => there_and_back(rt, alloc, net, events)?,
        Turn::LastSteps => last_steps(rt, net),
        Turn::Meaning(p, want) => is_meant_as(rt, alloc, net, *p, want)?,
        Turn::Random(seed) => have_run(rt, alloc, net, seed)?,
        Turn::HasAll => have_all(rt, alloc, net),
        Turn::Dumps(want) => has_dumps(rt, alloc, net, want)?,
    }
    Ok(())
}

/// The network after the events, or after the scenario's own where there are none.
fn network(
    rt: &impl Abort,
    alloc: Global,
    text: &str,
    events: Option<&[Event]>,
) -> Result<Net, Fail> {
    match events {
        Some(events) => after(rt, alloc, text, events),
        None => run(rt, alloc, text),
    }
}

fn begin(
    rt: &impl Abort,
    alloc: Global,
    text: &str,
    events: Option<&[Event]>,
    turn: &Turn,
) -> Result<(), Fail> {
    let mut net = network(rt, alloc, text, events)?;
    take(rt, alloc, &mut net, turn)
}

/// Takes the turn in the network after the events, in place of the scenario's schedule.
pub fn in_network(
    rt: &impl Abort,
    alloc: Global,
    text: &str,
    events: &[Event],
    turn: &Turn,
) -> Result<(), Fail> {
    begin(rt, alloc, text, Some(&*events), turn)
}

/// Takes the turn in the network after the scenario's own schedule.
pub fn in_run(rt: &impl Abort, alloc: Global, text: &str, turn: &Turn) -> Result<(), Fail> {
    begin(rt, alloc, text, None, turn)
}
