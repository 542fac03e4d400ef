//! Tests of the copies of faults: those of networks and of debuggers.

use crate::nets::{after, holds, scene};
use jc_debug::{DebugFault, Debugger, RunEnd};
use jc_network::{StepFault, Stuck};
use jc_rules::Event;
use std::alloc::{AllocError, Global};
use std::process::Abort;
use std::test::Fail;

/// A replica alone, whose command is stuck for a tagged key.
const NOTHING: &str = "jsoncrdt 1 replica a { let x = doc.get(\"a\").idx(0) } schedule { a.exec }";

fn are_alike(one: &Stuck, other: &Stuck) -> bool {
    one.number == 25
        && one.key.is_some()
        && one.number == other.number
        && one.key == other.key
        && one.event == other.event
}

fn is_net_fault_copied(fault: &StepFault) -> Result<bool, AllocError> {
    match (fault, &fault.copy()?) {
        (StepFault::Stuck(stuck), StepFault::Stuck(copy)) => Ok(are_alike(stuck, copy)),
        _ => Ok(false),
    }
}

fn is_debug_fault_copied(fault: &DebugFault) -> Result<bool, AllocError> {
    match (fault, &fault.copy()?) {
        (DebugFault::Stuck(stuck), DebugFault::Stuck(copy)) => Ok(are_alike(stuck, copy)),
        _ => Ok(false),
    }
}

fn is_run_end_copied(end: &RunEnd) -> Result<bool, AllocError> {
    match (end, &end.copy()?) {
        (RunEnd::Stuck(stuck), RunEnd::Stuck(copy)) => Ok(are_alike(stuck, copy)),
        _ => Ok(false),
    }
}

#[test]
fn of_networks(rt: HostRuntime) -> Result<(), Fail> {
    let mut net = after(&rt, rt.alloc(), NOTHING, &[])?;
    let copied = match net.step(&Event::Exec(0)) {
        Ok(_) => false,
        Err(fault) => is_net_fault_copied(&fault)?,
    };
    holds(&rt, copied);
    Ok(())
}

/// A debugger before an event that is stuck.
fn begun(rt: &impl Abort, alloc: Global) -> Result<Debugger, Fail> {
    let scenario = scene(alloc, NOTHING)?;
    Ok(Debugger::new(alloc, scenario).ok().expect(rt, "a debugger"))
}

fn are_moves_copied(debugger: &mut Debugger) -> Result<bool, AllocError> {
    let stepped = match debugger.step(1) {
        Ok(()) => false,
        Err(fault) => is_debug_fault_copied(&fault)?,
    };
    let gone = match debugger.goto(1) {
        Ok(()) => false,
        Err(fault) => is_debug_fault_copied(&fault)?,
    };
    Ok(stepped && gone)
}

fn are_ends_copied(debugger: &mut Debugger) -> Result<bool, AllocError> {
    let ran = match debugger.run() {
        Ok(end) => is_run_end_copied(&end)?,
        Err(_) => false,
    };
    let acted = match debugger.act(&Event::Exec(0)) {
        Ok(()) => false,
        Err(fault) => is_debug_fault_copied(&fault)?,
    };
    Ok(ran && acted)
}

#[test]
fn of_debuggers(rt: HostRuntime) -> Result<(), Fail> {
    let mut debugger = begun(&rt, rt.alloc())?;
    holds(&rt, are_moves_copied(&mut debugger)?);
    holds(&rt, are_ends_copied(&mut debugger)?);
    Ok(())
}
