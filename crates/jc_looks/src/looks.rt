//! What is shown of the replicas of a network: views, states and values of expressions.

ghost use Rattle.std.specs.Prelude.{◌≡◌, ◌<◌, Some, length, slice_get, IfOk};
ghost use Rattle.jc_rules.specs.ReplicaNames.{name_at};
ghost use Rattle.jc_rules.specs.State.{State};
ghost use Rattle.jc_syntax.specs.Trees.{expr_of};
ghost use Rattle.jc_cursor.specs.Bounds.{bound_of};
ghost use Rattle.jc_dump.specs.Dump.{bound_text, brief_text};
ghost use Rattle.jc_answers.specs.JsonTexts.{array_text};
ghost use Rattle.jc_looks.specs.LookFaults.{AnswersBy};
ghost use Rattle.jc_looks.specs.Looks.{OfReplica, ShowsValue, ShowsLook, IsWithin, view_text, state_text, texts_from, viewed_text};

use crate::fault::LookFault;
use crate::values::value_of;
use jc_answers::{ArrayText, unended};
use jc_cursor::Bound;
use jc_dump::{bound_text, brief_replica, dump_replica};
use jc_network::{CompareFault, Net};
use jc_syntax::Expr;
use jc_view::{view_place, view_replica};
use std::alloc::{AllocError, Global};

/// What is asked to be shown, by the numbers of replicas.
#[derive(Drop)]
pub enum Look {
    /// The view of one replica or of each.
    View(Option<u16>),
    /// What is at the place that an expression gives at a replica.
    ViewPlace(u16, Expr),
    /// The state of one replica or of each.
    State(Option<u16>),
    /// A state without its tree.
    Brief(u16),
    /// What an expression gives at a replica.
    Eval(u16, Expr),
}

/// The view of a replica that is there.
fn view_of(alloc: Global, net: &Net, p: u16) -> Result<Vec<u8>, AllocError>
    requires { p < length net.now.history.now.states }
    ensures { IfOk result (λ answer.
        (A : State) → slice_get net.now.history.now.states p ≡ Some A
        → answer.items ≡ view_text net.now.names (name_at net.now.names p) A) }
{
    match view_replica(alloc, net, p) {
        Ok(line) => Ok(unended(line)),
        Err(CompareFault::Memory) => Err(AllocError),
        Err(CompareFault::NoSuchReplica) => unreachable!(),
    }
}

/// The state of a replica that is there. Refused for want of memory alone.
pub fn state_of(alloc: Global, net: &Net, p: u16) -> Result<Vec<u8>, AllocError>
    requires { p < length net.now.history.now.states }
    ensures { IfOk result (λ answer.
        (A : State) → slice_get net.now.history.now.states p ≡ Some A
        → answer.items ≡ state_text net.now.names (name_at net.now.names p) A) }
{
    match dump_replica(alloc, net, p) {
        Ok(line) => Ok(unended(line.into_bytes())),
        Err(CompareFault::Memory) => Err(AllocError),
        Err(CompareFault::NoSuchReplica) => unreachable!(),
    }
}

/// The same without its tree.
fn brief_of(alloc: Global, net: &Net, p: u16) -> Result<Vec<u8>, AllocError>
    requires { p < length net.now.history.now.states }
    ensures { IfOk result (λ answer.
        (A : State) → slice_get net.now.history.now.states p ≡ Some A
        → answer.items ≡ brief_text net.now.names (name_at net.now.names p) A) }
{
    match brief_replica(alloc, net, p) {
        Ok(text) => Ok(text.into_bytes()),
        Err(CompareFault::Memory) => Err(AllocError),
        Err(CompareFault::NoSuchReplica) => unreachable!(),
    }
}

/// The views of all replicas.
fn views(alloc: Global, net: &Net) -> Result<Vec<u8>, AllocError>
    ensures { IfOk result (λ answer. answer.items
        ≡ array_text (texts_from view_text 0 net.now.names net.now.history.now.states)) }
{
    let mut all = ArrayText::new(alloc)?;
    let count = net.names().len() as u16;
    for p in 0..count {
        let view = view_of(alloc, net, p)?;
        all.push(view.as_slice())?;
    }
    all.end()
}

/// The states of all replicas. Refused for want of memory alone.
pub fn states(alloc: Global, net: &Net) -> Result<Vec<u8>, AllocError>
    ensures { IfOk result (λ answer. answer.items
        ≡ array_text (texts_from state_text 0 net.now.names net.now.history.now.states)) }
{
    let mut all = ArrayText::new(alloc)?;
    let count = net.names().len() as u16;
    for p in 0..count {
        let state = state_of(alloc, net, p)?;
        all.push(state.as_slice())?;
    }
    all.end()
}

/// The view of one replica, or of each.
fn views_of(alloc: Global, net: &Net, p: Option<u16>) -> Result<Vec<u8>, AllocError>
    requires { IsWithin (length net.now.history.now.states) (Look.View p) }
    ensures { IfOk result (λ answer. ShowsLook net.now.names net.now.history.now.states (Look.View p) answer.items) }
{
    match p {
        Some(p) => view_of(alloc, net, p),
        None => views(alloc, net),
    }
}

/// The state of one replica, or of each.
fn states_of(alloc: Global, net: &Net, p: Option<u16>) -> Result<Vec<u8>, AllocError>
    requires { IsWithin (length net.now.history.now.states) (Look.State p) }
    ensures { IfOk result (λ answer. ShowsLook net.now.names net.now.history.now.states (Look.State p) answer.items) }
{
    match p {
        Some(p) => state_of(alloc, net, p),
        None => states(alloc, net),
    }
}

fn bound_answer(alloc: Global, net: &Net, bound: &Bound) -> Result<Vec<u8>, AllocError>
    ensures { IfOk result (λ answer. answer.items ≡ bound_text net.now.names (bound_of bound.now)) }
{
    let text = bound_text(alloc, net.names(), bound)?;
    Ok(text.into_bytes())
}

/// What is at a cursor of a replica that is there, or else the value.
fn viewed(alloc: Global, net: &Net, p: u16, bound: &Bound) -> Result<Vec<u8>, AllocError>
    requires { p < length net.now.history.now.states }
    ensures { IfOk result (λ answer.
        (A : State) → slice_get net.now.history.now.states p ≡ Some A
        → answer.items ≡ viewed_text net.now.names (name_at net.now.names p) A (bound_of bound.now)) }
{
    let Bound::Cursor(cursor) = bound else {
        return bound_answer(alloc, net, bound);
    };
    match view_place(alloc, net, p, cursor) {
        Ok(line) => Ok(unended(line)),
        Err(CompareFault::Memory) => Err(AllocError),
        Err(CompareFault::NoSuchReplica) => unreachable!(),
    }
}

fn place_shown(alloc: Global, net: &Net, p: u16, expression: &Expr) -> Result<Vec<u8>, LookFault>
    requires { p < length net.now.history.now.states }
    ensures { AnswersBy (λ answer. OfReplica net.now.history.now.states p (λ A.
        ShowsValue (viewed_text net.now.names (name_at net.now.names p) A) net.now.names A (expr_of expression.now) answer))
        result }
{
    let bound = value_of(alloc, net, p, expression)?;
    Ok(viewed(alloc, net, p, &bound)?)
}

fn value_shown(alloc: Global, net: &Net, p: u16, expression: &Expr) -> Result<Vec<u8>, LookFault>
    requires { p < length net.now.history.now.states }
    ensures { AnswersBy (λ answer. OfReplica net.now.history.now.states p (λ A.
        ShowsValue (bound_text net.now.names) net.now.names A (expr_of expression.now) answer))
        result }
{
    let bound = value_of(alloc, net, p, expression)?;
    Ok(bound_answer(alloc, net, &bound)?)
}

/// What a look shows of a network. An expression that gives nothing is refused.
pub fn shown(alloc: Global, net: &Net, look: &Look) -> Result<Vec<u8>, LookFault>
    requires { IsWithin (length net.now.history.now.states) look.now }
    ensures { AnswersBy (ShowsLook net.now.names net.now.history.now.states look.now) result }
{
    match look {
        Look::View(p) => Ok(views_of(alloc, net, *p)?),
        Look::State(p) => Ok(states_of(alloc, net, *p)?),
        Look::Brief(p) => Ok(brief_of(alloc, net, *p)?),
        Look::ViewPlace(p, expression) => place_shown(alloc, net, *p, expression),
        Look::Eval(p, expression) => value_shown(alloc, net, *p, expression),
    }
}
