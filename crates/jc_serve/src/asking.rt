//! What is asked to be shown, by the names of replicas and the texts of expressions.

ghost use Rattle.std.specs.Prelude.{◌≤◌, length};
ghost use Rattle.jc_rules.specs.declared.limits.TheConstants.{MAX_REPLICAS};
ghost use Rattle.jc_session.specs.Answers.{IsNamed};
ghost use Rattle.jc_requests.specs.Views.{asked_view, word_view};
ghost use Rattle.jc_looks.specs.LookFaults.{Finds};
ghost use Rattle.jc_serve.specs.Asking.{IsOneOrEach, IsExpressionAt, IsStrangeAnswer, IsBadName, IsBadExpression, IsBadLook, IsFoundLook};

use jc_looks::{Look, LookFault};
use jc_parser::parse_expr;
use jc_requests::{Asked, Position};
use jc_rules::{Refusal, Text};
use jc_session::number_of;
use jc_syntax::Expr;
use std::alloc::Global;

/// The number of the replica with the name.
pub(crate) fn replica_named(alloc: Global, names: &[Text], name: &[u8]) -> Result<u16, LookFault>
    requires { length names.now ≤ MAX_REPLICAS }
    ensures { Finds (IsNamed names.now name.now) (IsStrangeAnswer names.now name.now) result }
{
    match number_of(names, name) {
        Some(p) => Ok(p),
        None => Err(LookFault::of(alloc, Refusal::UnknownReplica)),
    }
}

/// The replica with the name, if one is named, and else each.
fn one_or_each(alloc: Global, names: &[Text], name: Option<&[u8]>) -> Result<Option<u16>, LookFault>
    requires { length names.now ≤ MAX_REPLICAS }
    ensures { Finds (IsOneOrEach names.now (word_view name.entry)) (IsBadName names.now (word_view name.entry)) result }
{
    match name {
        Some(name) => Ok(Some(replica_named(alloc, names, name)?)),
        None => Ok(None),
    }
}

/// The replica with the name, and the expression that the text is. The first of these that is none is refused.
pub(crate) fn expression_at(
    alloc: Global,
    names: &[Text],
    name: &[u8],
    text: &str,
) -> Result<(u16, Expr), LookFault>
    requires { length names.now ≤ MAX_REPLICAS }
    ensures { Finds (IsExpressionAt names.now name.now text.now) (IsBadExpression names.now name.now text.now) result }
{
    let p = replica_named(alloc, names, name)?;
    match parse_expr(alloc, text) {
        Ok(expression) => Ok((p, expression)),
        Err(fault) => Err(LookFault::of_text(
            alloc,
            text.as_bytes(),
            fault.refusal(),
            fault.place(),
        )),
    }
}

/// What a request asks to be shown, and at which position, if it asks for something that a look shows. A name that no
/// replica has is refused, and then a text that is no expression.
pub(crate) fn look_of(
    alloc: Global,
    names: &[Text],
    request: Asked<'_>,
) -> Result<Option<(Option<Position>, Look)>, LookFault>
    requires { length names.now ≤ MAX_REPLICAS }
    ensures { Finds (IsFoundLook names.now (asked_view request.entry)) (IsBadLook names.now (asked_view request.entry))
        result }
{
    match request {
        Asked::View { at, name } => {
            let p = one_or_each(alloc, names, name)?;
            Ok(Some((at, Look::View(p))))
        }
        Asked::StateAt { at, name } => {
            let p = one_or_each(alloc, names, name)?;
            Ok(Some((Some(at), Look::State(p))))
        }
        Asked::Brief { at, name } => {
            let p = replica_named(alloc, names, name)?;
            Ok(Some((at, Look::Brief(p))))
        }
        Asked::ViewPlace {
            at,
            name,
            expression,
        } => {
            let (p, expression) = expression_at(alloc, names, name, expression)?;
            Ok(Some((at, Look::ViewPlace(p, expression))))
        }
        Asked::Eval {
            at,
            name,
            expression,
        } => {
            let (p, expression) = expression_at(alloc, names, name, expression)?;
            Ok(Some((at, Look::Eval(p, expression))))
        }
        _ => Ok(None),
    }
}
