//! The breakpoints of `serve`: those of a session, of an operation, and of a place of a document.

ghost use Rattle.std.specs.Prelude.{◌≡◌, ◌≢◌, ◌+◌, ◌↔◌, ℕ, List, length, slice_get, slice_set, replicate, Some, None, IsTrue, IsFalse, IfOk, IfSome, IfNone};
ghost use Rattle.jc_rules.specs.declared.limits.TheConstants.{MAX_BREAKS};
ghost use Rattle.jc_rules.specs.declared.rule.Rule.{Rule as AnyRule};
ghost use Rattle.jc_rules.specs.Step.{StepIn};
ghost use Rattle.jc_debug.specs.DebuggerState.{IsLeast};
ghost use Rattle.jc_debug.specs.Invariant.{start_of, IsDebugger};
ghost use Rattle.jc_journal.specs.EventLine.{IsBeforeLast};
ghost use Rattle.jc_serve.specs.InMemory.{mark_of, marks_of, IsBehind, Led};
ghost use Rattle.jc_serve.specs.Marks.{Mark as AnyMark, MarkNames, Changes, operation, place};
ghost use Rattle.jc_serve.specs.Moves.{IsNamedBy};

use jc_debug::{Break, Debugger};
use jc_effects::differs_at;
use jc_journal::{event_effects, event_op_id};
use jc_rules::limits::MAX_BREAKS;
use jc_rules::{Cursor, Event, Id};
use std::alloc::{AllocError, Global};

/// A breakpoint: the positions that it names.
#[derive(Drop)]
pub(crate) enum Mark {
    /// Those that a breakpoint of a session names.
    Session(Break),
    /// Each position whose event makes or applies the operation.
    Operation(Id),
    /// Each position whose event is of the replica and has effects at the cursor or below it.
    Place { replica: u16, cursor: Cursor },
}

/// Places for breakpoints, all free.
pub(crate) fn no_marks(alloc: Global) -> Result<Vec<Option<Mark>>, AllocError>
    ensures { IfOk result (λ marks. (marks_of marks.items ≡ replicate MAX_BREAKS None)
        × (length marks.items ≡ MAX_BREAKS)) }
{
    let mut marks = Vec::new(alloc);
    for place in 0..MAX_BREAKS {
        marks.push(None)?;
    }
    Ok(marks)
}

/// The least place that is free.
fn free_place(marks: &[Option<Mark>]) -> Option<usize>
    ensures some { IfSome result (λ j. IsLeast (λ i. slice_get (marks_of marks.now) i ≡ Some None) j) }
    ensures none { IfNone result ((j : ℕ) → slice_get (marks_of marks.now) j ≢ Some None) }
{
    for place in 0..marks.len() {
        if marks[place].is_none() {
            return Some(place);
        }
    }
    None
}

/// Puts a breakpoint at the least free place, and returns that; or none, where no place is free.
pub(crate) fn set_mark(marks: &mut Vec<Option<Mark>>, mark: Mark) -> Option<usize>
    ensures some { IfSome result (λ j. IsLeast (λ i. slice_get (marks_of marks.old.items) i ≡ Some None) j
        × (marks_of marks.new.items ≡ slice_set (marks_of marks.old.items) j (Some (mark_of mark)))) }
    ensures none { IfNone result (((j : ℕ) → slice_get (marks_of marks.old.items) j ≢ Some None)
        × (marks_of marks.new.items ≡ marks_of marks.old.items)) }
    ensures length { length marks.new.items ≡ length marks.old.items }
{
    let place = free_place(marks)?;
    marks[place] = Some(mark);
    Some(place)
}

/// Takes the breakpoint with this number away, and returns whether there was one.
pub(crate) fn clear_mark(marks: &mut Vec<Option<Mark>>, number: u64) -> bool
    ensures cleared { IsTrue result → (j : ℕ) × (b : AnyMark) × (number ≡ j + 1)
        × (slice_get (marks_of marks.old.items) j ≡ Some (Some b))
        × (marks_of marks.new.items ≡ slice_set (marks_of marks.old.items) j None) }
    ensures none { IsFalse result → ((j : ℕ) (b : AnyMark) → number ≡ j + 1
        → slice_get (marks_of marks.old.items) j ≢ Some (Some b)) × (marks.new ≡ marks.old) }
    ensures length { length marks.new.items ≡ length marks.old.items }
{
    if number == 0 || number > marks.len() as u64 {
        return false;
    }
    let place = number as usize - 1;
    if marks[place].is_none() {
        return false;
    }
    marks[place] = None;
    true
}

// ---- what they name

/// The event that led to the position. `aside` is before that event.
fn last_event(aside: &Debugger, here: &Debugger) -> Event
    requires { IsBehind aside.now here.now }
    ensures led { Led aside.now here.now result }
    ensures trail { IsDebugger here.now }
{
    // For its contract: the debugger is on its trail.
    let _ = here.position();
    here.schedule()[aside.position() as usize]
}

/// Whether the event that led to the position made or applied the operation. `aside` is before that event.
fn has_made(aside: &Debugger, here: &Debugger, id: Id) -> bool
    requires { IsBehind aside.now here.now }
    ensures { IsTrue result
        ↔ MarkNames (start_of here.now) here.now.schedule (operation id) (length here.now.traces) }
{
    // For its contract: the event led from the one network to the other.
    let _event = last_event(aside, here);
    match event_op_id(here.net()) {
        Some(made) => made == id,
        None => false,
    }
}

/// Whether the event that led to the position has effects at the cursor or below it. `aside` is before that event.
fn changes_at(
    alloc: Global,
    aside: &Debugger,
    here: &Debugger,
    event: &Event,
    cursor: &Cursor,
) -> Result<bool, AllocError>
    requires made { (rows : List (AnyRule × ℕ))
        × StepIn aside.now.net.history.now event.now here.now.net.history.now rows }
    requires last { IsBeforeLast aside.now.net.history.now here.now.net.history }
    ensures { IfOk result (λ changes. (rows : List (AnyRule × ℕ))
        → (made : StepIn aside.now.net.history.now event.now here.now.net.history.now rows)
        → IsTrue changes ↔ Changes event.now made.step.before made.step.after cursor.now) }
{
    match event_effects(alloc, aside.net(), here.net(), event)? {
        Some(effects) => Ok(differs_at(&effects, cursor.path.as_slice(), &cursor.last)),
        None => Ok(false),
    }
}

/// Whether the event that led to the position is of the replica and has effects at the cursor or below it. `aside` is
/// before that event.
fn has_changed(
    alloc: Global,
    aside: &Debugger,
    here: &Debugger,
    replica: u16,
    cursor: &Cursor,
) -> Result<bool, AllocError>
    requires { IsBehind aside.now here.now }
    ensures { IfOk result (λ names. IsTrue names
        ↔ MarkNames (start_of here.now) here.now.schedule (place replica cursor.now) (length here.now.traces)) }
{
    let event = last_event(aside, here);
    if event.replica() != replica {
        return Ok(false);
    }
    changes_at(alloc, aside, here, &event, cursor)
}

/// Whether the breakpoint names the position, where `aside` is before the event that led there.
fn names_here(
    alloc: Global,
    aside: &Debugger,
    here: &Debugger,
    mark: &Mark,
) -> Result<bool, AllocError>
    requires { IsBehind aside.now here.now }
    ensures { IfOk result (λ names. IsTrue names
        ↔ MarkNames (start_of here.now) here.now.schedule (mark_of mark.now) (length here.now.traces)) }
{
    match mark {
        Mark::Session(b) => Ok(here.names(*b)),
        Mark::Operation(id) => Ok(has_made(aside, here, *id)),
        Mark::Place { replica, cursor } => has_changed(alloc, aside, here, *replica, cursor),
    }
}

/// The least place of a breakpoint that names the position, where `aside` is before the event that led there.
pub(crate) fn named(
    alloc: Global,
    aside: &Debugger,
    here: &Debugger,
    marks: &[Option<Mark>],
) -> Result<Option<usize>, AllocError>
    requires { IsBehind aside.now here.now }
    ensures { IfOk result (IsNamedBy here.now marks.now) }
{
    for place in 0..marks.len() {
        if let Some(mark) = &marks[place] {
            if names_here(alloc, aside, here, mark)? {
                return Ok(Some(place));
            }
        }
    }
    Ok(None)
}
