//! The tests by their names. The keys have one owner here, and two new stores another, since an owner of much is dear to
//! prove.

use crate::chains::change_chains;
use crate::documents::all_work;
use crate::keys::Keys;
use crate::large::hold_many;
use crate::replicas::{deepest_cursor, last_steps, meeting, takings};
use crate::steps::Step;
use crate::tables::{change_and_undo, many_changes, worked_steps};
use crate::texts::{keys_and_identifiers, show_members};
use crate::twins::Twins;
use crate::walk::walk_all;
use std::alloc::{AllocError, Global};
use std::process::Abort;
use std::test::Fail;

/// Steps as tables have them.
pub type Steps = &'static [Step<'static>];

/// What is done with two new stores.
#[derive(Clone, Copy)]
pub enum Turn {
    /// Steps by their title, at the place to which a way leads.
    Steps(&'static str, Steps, Steps),
    Changes(Steps),
    Walk,
    Chains,
    ManyKeys,
    Members,
}

fn take(rt: &impl Abort, keys: &Keys, twins: &mut Twins, turn: &Turn) -> Result<(), AllocError> {
    match turn {
        Turn::Steps(title, way, steps) => twins.play_there(rt, keys, title, way, steps),
        Turn::Changes(way) => change_and_undo(rt, keys, twins, way),
        Turn::Walk => walk_all(rt, keys, twins),
        Turn::Chains => change_chains(rt, keys, twins),
        Turn::ManyKeys => hold_many(rt, keys, twins),
        Turn::Members => show_members(rt, keys, twins),
    }
}

pub fn in_new_stores(rt: &impl Abort, keys: &Keys, turn: &Turn) -> Result<(), AllocError> {
    let mut twins = Twins::new(keys.alloc)?;
    take(rt, keys, &mut twins, turn)
}

/// A test below.
#[derive(Clone, Copy)]
enum Test {
    WorkedSteps,
    ManyChanges,
    StoresWalkAlike,
    ListsGoOnAlike,
    ManyKeys,
    KeysAndIdentifiers,
    Trees,
    Documents,
    Meeting,
    DeepestCursor,
    Takings,
    LastSteps,
}

fn run(rt: &impl Abort, keys: &Keys, test: Test) -> Result<(), AllocError> {
    match test {
        Test::WorkedSteps => worked_steps(rt, keys),
        Test::ManyChanges => many_changes(rt, keys),
        Test::StoresWalkAlike => in_new_stores(rt, keys, &Turn::Walk),
        Test::ListsGoOnAlike => in_new_stores(rt, keys, &Turn::Chains),
        Test::ManyKeys => in_new_stores(rt, keys, &Turn::ManyKeys),
        Test::KeysAndIdentifiers => keys_and_identifiers(rt, keys),
        Test::Trees => in_new_stores(rt, keys, &Turn::Members),
        Test::Documents => all_work(rt, keys),
        Test::Meeting => meeting(rt, keys),
        Test::DeepestCursor => deepest_cursor(rt, keys),
        Test::Takings => takings(rt, keys),
        Test::LastSteps => last_steps(rt, keys),
    }
}

fn run_with_keys(rt: &impl Abort, alloc: Global, test: Test) -> Result<(), AllocError> {
    let keys = Keys::new(alloc)?;
    run(rt, &keys, test)
}

#[test]
fn worked_steps_are_answered(rt: HostRuntime) -> Result<(), Fail> {
    Ok(run_with_keys(&rt, rt.alloc(), Test::WorkedSteps)?)
}

#[test]
fn many_changes_are_taken_back(rt: HostRuntime) -> Result<(), Fail> {
    Ok(run_with_keys(&rt, rt.alloc(), Test::ManyChanges)?)
}

#[test]
fn stores_walk_alike(rt: HostRuntime) -> Result<(), Fail> {
    Ok(run_with_keys(&rt, rt.alloc(), Test::StoresWalkAlike)?)
}

#[test]
fn lists_go_on_alike(rt: HostRuntime) -> Result<(), Fail> {
    Ok(run_with_keys(&rt, rt.alloc(), Test::ListsGoOnAlike)?)
}

#[test]
fn many_keys(rt: HostRuntime) -> Result<(), Fail> {
    Ok(run_with_keys(&rt, rt.alloc(), Test::ManyKeys)?)
}

#[test]
fn texts_of_keys_and_identifiers(rt: HostRuntime) -> Result<(), Fail> {
    Ok(run_with_keys(&rt, rt.alloc(), Test::KeysAndIdentifiers)?)
}

#[test]
fn trees(rt: HostRuntime) -> Result<(), Fail> {
    Ok(run_with_keys(&rt, rt.alloc(), Test::Trees)?)
}

#[test]
fn documents(rt: HostRuntime) -> Result<(), Fail> {
    Ok(run_with_keys(&rt, rt.alloc(), Test::Documents)?)
}

#[test]
fn replicas_meet(rt: HostRuntime) -> Result<(), Fail> {
    Ok(run_with_keys(&rt, rt.alloc(), Test::Meeting)?)
}

#[test]
fn the_deepest_cursor(rt: HostRuntime) -> Result<(), Fail> {
    Ok(run_with_keys(&rt, rt.alloc(), Test::DeepestCursor)?)
}

#[test]
fn last_steps_are_returned(rt: HostRuntime) -> Result<(), Fail> {
    Ok(run_with_keys(&rt, rt.alloc(), Test::LastSteps)?)
}

#[test]
fn operations_are_taken_one_at_a_time(rt: HostRuntime) -> Result<(), Fail> {
    Ok(run_with_keys(&rt, rt.alloc(), Test::Takings)?)
}
