//! Evaluating expressions, and why one is refused: replicas do it for the commands of scripts.

ghost use Rattle.std.specs.Prelude.{◌≡◌, IfOk, IfErr, IfSome, OnErr};
ghost use Rattle.jc_rules.specs.Context.{Context as AnyContext};
ghost use Rattle.jc_rules.specs.WellFormed.{IsChained};
ghost use Rattle.jc_rules.specs.Syntax.{Variable};
ghost use Rattle.jc_syntax.specs.Trees.{expr_of};
ghost use Rattle.jc_cursor.specs.declared.evaluating.EvalFault.TheVariants.{Memory as NoMemory};
ghost use Rattle.jc_cursor.specs.Bounds.{bound_of, vars_of, vars_in};
ghost use Rattle.jc_cursor.specs.Evaluates.{Evaluates, IsEvalRefused, eval_cause_of, rule_of};
ghost use Rattle.jc_cursor.specs.WayDown.{IsGrown};

use crate::bound::{Bound, Variables, bound_to};
use crate::select::select;
use jc_rules::{Cursor, Key, Path, Rule, Tagged, Text, Trace};
use jc_syntax::Expr;
use jc_tree::TreeStore;
use std::alloc::{AllocError, Global};
use std::collections::BTreeMap;

/// Why an expression was refused.
#[derive(Debug, PartialEq, Eq, Drop)]
pub enum EvalFault {
    /// The variable isn't bound.
    UnboundVariable,
    /// `get` on the head of a list.
    GetOnHead,
    /// What is before a selector is no cursor.
    NotACursor,
    /// Nothing is under this tagged key of the cursor's path.
    NoSuchNode(Tagged),
    /// The list has no such element.
    PastEnd,
    /// No map is at the cursor.
    NoMap,
    /// No register is at the cursor.
    NoRegister,
    /// The cursor's path would be longer than `MAX_PATH` keys.
    TooDeep,
    /// There was no memory.
    Memory,
}

impl EvalFault {
    /// An equal fault.
    pub fn copy(&self) -> Result<EvalFault, AllocError>
        ensures { IfOk result (λ fault. fault ≡ self.now) }
    {
        Ok(match self {
            EvalFault::UnboundVariable => EvalFault::UnboundVariable,
            EvalFault::GetOnHead => EvalFault::GetOnHead,
            EvalFault::NotACursor => EvalFault::NotACursor,
            EvalFault::NoSuchNode(key) => EvalFault::NoSuchNode(key.copy()?),
            EvalFault::PastEnd => EvalFault::PastEnd,
            EvalFault::NoMap => EvalFault::NoMap,
            EvalFault::NoRegister => EvalFault::NoRegister,
            EvalFault::TooDeep => EvalFault::TooDeep,
            EvalFault::Memory => EvalFault::Memory,
        })
    }
}

impl From<AllocError> for EvalFault {
    ghost from_gives = { λ _ fault. fault ≡ NoMemory };

    fn from(_: AllocError) -> Self {
        EvalFault::Memory
    }
}

/// The rule that evaluates the expression.
fn rule_of(expr: &Expr) -> Rule
    ensures { result ≡ rule_of (expr_of expr.now) }
{
    match expr {
        Expr::Doc => Rule::Doc,
        Expr::Var(_) => Rule::Var,
        Expr::Get(_, _) => Rule::Get,
        Expr::Idx(_, _) => Rule::Idx1,
        Expr::Keys(_) => Rule::Keys1,
        Expr::Values(_) => Rule::Val1,
    }
}

/// Evaluates a variable. After a refusal its rule may have been added to the trace.
fn variable(vars: Variables<'_>, name: &Text, trace: &mut Trace) -> Result<Bound, EvalFault>
    ensures ok { IfOk result (λ b. (c : AnyContext)
        → Evaluates c (vars_of (vars_in vars.entry)) (Variable name.now) (bound_of b) trace.old trace.new) }
    ensures refused { IfErr result (λ f.
        IfSome (eval_cause_of f) (λ why.
        (c : AnyContext) → IsEvalRefused c (vars_of (vars_in vars.entry)) (Variable name.now) why)) }
    ensures grown { IsGrown trace.old trace.new }
{
    let Some(bound) = bound_to(vars, name) else {
        return Err(EvalFault::UnboundVariable);
    };
    trace.push(Rule::Var)?;
    Ok(bound.copy()?)
}

/// Evaluates the expression. After a refusal rules may have been added to the trace.
fn evaluate<S: TreeStore>(
    alloc: Global,
    store: &S,
    vars: Variables<'_>,
    expr: &Expr,
    trace: &mut Trace,
) -> Result<Bound, EvalFault>
    requires { IsChained (S.tree store.now).now }
    ensures ok { IfOk result (λ b. Evaluates (S.tree store.now).now (vars_of (vars_in vars.entry)) (expr_of expr.now)
        (bound_of b) trace.old trace.new) }
    ensures refused { IfErr result (λ f.
        IfSome (eval_cause_of f) (λ why.
        IsEvalRefused (S.tree store.now).now (vars_of (vars_in vars.entry)) (expr_of expr.now) why)) }
    ensures grown { IsGrown trace.old trace.new }
{
    match expr {
        Expr::Doc => {
            trace.push(Rule::Doc)?;
            Ok(Bound::Cursor(Cursor {
                path: Path::new(alloc),
                last: Key::Doc,
            }))
        }
        Expr::Var(name) => variable(vars, name, trace),
        Expr::Get(from, _) | Expr::Idx(from, _) | Expr::Keys(from) | Expr::Values(from) => {
            let depth = trace.depth();
            trace.open(rule_of(expr))?;
            let Bound::Cursor(cursor) = evaluate(alloc, store, vars, from, trace)? else {
                return Err(EvalFault::NotACursor);
            };
            let bound = select(alloc, store, cursor, expr, trace)?;
            trace.close(depth);
            Ok(bound)
        }
    }
}

/// What the expression evaluates to in the document, where the variables are bound as in `vars`.
///
/// The rules are added to the trace at its depth. A refusal with a number is that of the first
/// condition that fails, and then no derivation evaluates the expression; all else that is refused
/// is memory. After a refusal the trace is as it was.
pub fn eval<S: TreeStore>(
    alloc: Global,
    store: &S,
    vars: &[(Text, Bound)],
    expr: &Expr,
    trace: &mut Trace,
) -> Result<Bound, EvalFault>
    requires { IsChained (S.tree store.now).now }
    ensures ok { IfOk result (λ b.
        Evaluates (S.tree store.now).now (vars_of vars.now) (expr_of expr.now) (bound_of b) trace.old trace.new) }
    ensures refused { IfErr result (λ f.
        IfSome (eval_cause_of f) (λ why.
        IsEvalRefused (S.tree store.now).now (vars_of vars.now) (expr_of expr.now) why)) }
    ensures err_trace { OnErr result (trace.new ≡ trace.old) }
{
    let start = trace.mark();
    let outcome = evaluate(alloc, store, Variables::List(vars), expr, trace);
    if outcome.is_err() {
        trace.cut(start);
    }
    outcome
}

/// As [`eval`], where the variables are in a map by name: none is looked for by a walk.
pub fn eval_in_map<S: TreeStore>(
    alloc: Global,
    store: &S,
    vars: &BTreeMap<Text, Bound>,
    expr: &Expr,
    trace: &mut Trace,
) -> Result<Bound, EvalFault>
    requires { IsChained (S.tree store.now).now }
    ensures ok { IfOk result (λ b. Evaluates (S.tree store.now).now (vars_of vars.now.entries) (expr_of expr.now)
        (bound_of b) trace.old trace.new) }
    ensures refused { IfErr result (λ f.
        IfSome (eval_cause_of f) (λ why.
        IsEvalRefused (S.tree store.now).now (vars_of vars.now.entries) (expr_of expr.now) why)) }
    ensures err_trace { OnErr result (trace.new ≡ trace.old) }
{
    let start = trace.mark();
    let outcome = evaluate(alloc, store, Variables::Map(vars), expr, trace);
    if outcome.is_err() {
        trace.cut(start);
    }
    outcome
}
