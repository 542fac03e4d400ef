//! What expressions give at a replica, or why they give nothing.

ghost use Rattle.std.specs.Prelude.{◌≡◌, ◌<◌, Some, length, slice_get, IfOk};
ghost use Rattle.jc_rules.specs.Refused.{Cause, no_node};
ghost use Rattle.jc_rules.specs.State.{State};
ghost use Rattle.jc_syntax.specs.Trees.{expr_of};
ghost use Rattle.jc_cursor.specs.Bounds.{bound_of};
ghost use Rattle.jc_cursor.specs.Evaluates.{IsEvalRefused, eval_cause_of};
ghost use Rattle.jc_looks.specs.LookFaults.{Finds};
ghost use Rattle.jc_looks.specs.Looks.{Gives, OfReplica, no_value_answer};

use crate::fault::{LookFault, refused_with};
use jc_answers::{Member, refused};
use jc_cursor::{Bound, EvalFault, eval_in_map};
use jc_json::tagged_text;
use jc_network::Net;
use jc_rules::{Refusal, Tagged, Text, Trace};
use jc_syntax::Expr;
use std::alloc::{AllocError, Global};

/// That a node isn't there.
fn no_node(alloc: Global, names: &[Text], key: &Tagged) -> Result<Vec<u8>, AllocError>
    ensures { IfOk result (λ answer. answer.items ≡ no_value_answer names.now (no_node key.now)) }
{
    let key = tagged_text(alloc, names, key)?;
    refused_with(
        alloc,
        Member::string("key", key.as_str()),
        Refusal::NoSuchNode,
        Member::absent(),
    )
}

/// Why an expression gives nothing. Want of memory is no such answer.
fn no_value(alloc: Global, names: &[Text], fault: &EvalFault) -> Result<Vec<u8>, AllocError>
    ensures { IfOk result (λ answer. (why : Cause) × (eval_cause_of fault.now ≡ Some why)
        × (answer.items ≡ no_value_answer names.now why)) }
{
    match fault {
        EvalFault::NoSuchNode(key) => no_node(alloc, names, key),
        EvalFault::UnboundVariable => refused(alloc, Refusal::UnboundVariable),
        EvalFault::GetOnHead => refused(alloc, Refusal::GetOnHead),
        EvalFault::NotACursor => refused(alloc, Refusal::NotACursor),
        EvalFault::PastEnd => refused(alloc, Refusal::PastEnd),
        EvalFault::NoMap => refused(alloc, Refusal::NoMap),
        EvalFault::NoRegister => refused(alloc, Refusal::NoRegister),
        EvalFault::TooDeep => refused(alloc, Refusal::TooDeep),
        EvalFault::Memory => Err(AllocError),
    }
}

/// What the expression gives at a replica of the network. Where it gives nothing it is refused.
pub fn value_of(alloc: Global, net: &Net, p: u16, expression: &Expr) -> Result<Bound, LookFault>
    requires { p < length net.now.history.now.states }
    ensures { Finds
        (λ bound. OfReplica net.now.history.now.states p (λ A. Gives A (expr_of expression.now) (bound_of bound)))
        (λ answer. OfReplica net.now.history.now.states p (λ A. (why : Cause)
        × IsEvalRefused A.tree A.vars (expr_of expression.now) why
        × (answer ≡ no_value_answer net.now.names why)))
        result }
{
    // For its contract: events have led to the network from a start, so lists are chained.
    let _steps = net.steps();
    let Some(replica) = net.replica(p) else {
        unreachable!();
    };
    let mut trace = Trace::new(alloc);
    match eval_in_map(
        alloc,
        replica.tree(),
        replica.vars(),
        expression,
        &mut trace,
    ) {
        Ok(bound) => Ok(bound),
        Err(fault) => Err(LookFault::Refused(no_value(alloc, net.names(), &fault)?)),
    }
}
