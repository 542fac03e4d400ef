//! The event `exec` of a replica: it runs the next command of the script.

ghost use Rattle.std.specs.Prelude.{◌≡◌, [], ◌↔◌, IsTrue, IsFalse, IfOk, IfErr};
ghost use Rattle.jc_rules.specs.declared.operation.Event.TheVariants as E;
ghost use Rattle.jc_syntax.specs.Trees.{cmd_of, expr_of};
ghost use Rattle.jc_cursor.specs.Bounds.{bound_of};
ghost use Rattle.jc_replica.specs.Answers.{AnswersEvent, IsEventRefused};
ghost use Rattle.jc_replica.specs.NextCommand.{MakesOp, MakesNext, Binds, BindsNext, IsMaking, IsLet, rule_by, mutation_by, expr_by};

use crate::fault::ReplicaFault;
use crate::operation::apply_to;
use crate::record::{Change, Record};
use crate::replica::Replica;
use crate::vars::bind_var;
use crate::yielding::is_yield;
use jc_cursor::{Bound, eval_in_map};
use jc_rules::{Cursor, Id, Mutation, Op, Rule, Text, Trace};
use jc_syntax::{Cmd, Expr};
use jc_tree::TreeStore;
use std::alloc::AllocError;

/// The rule by which the command makes an operation.
fn rule_of(command: &Cmd) -> Rule
    ensures { result ≡ rule_by (cmd_of command.now) }
{
    match command {
        Cmd::Set(_, _) => Rule::MakeAssign,
        Cmd::InsertAfter(_, _) => Rule::MakeInsert,
        Cmd::Let(_, _) | Cmd::Delete(_) | Cmd::Yield => Rule::MakeDelete,
    }
}

/// The expression of the cursor at which the command makes an operation.
fn place_of(command: &Cmd) -> &Expr
    requires { IsMaking (cmd_of command.now) }
    ensures { expr_of result.now ≡ expr_by (cmd_of command.now) }
{
    match command {
        Cmd::Set(expr, _) | Cmd::InsertAfter(expr, _) | Cmd::Delete(expr) => expr,
        Cmd::Let(_, _) | Cmd::Yield => unreachable!(),
    }
}

/// The mutation of the operation that the command makes.
fn mutation_of(command: &Cmd) -> Result<Mutation, AllocError>
    ensures { IfOk result (λ mutation. mutation ≡ mutation_by (cmd_of command.now)) }
{
    match command {
        Cmd::Set(_, value) => Ok(Mutation::Assign(value.copy()?)),
        Cmd::InsertAfter(_, value) => Ok(Mutation::Insert(value.copy()?)),
        Cmd::Let(_, _) | Cmd::Delete(_) | Cmd::Yield => Ok(Mutation::Delete),
    }
}

/// The same cursor, whose path shares the keys of the last operation's path where they are the same.
fn sharing(queue: &[Op], cursor: Cursor) -> Result<Cursor, AllocError>
    ensures { IfOk result (λ shared. shared ≡ cursor) }
{
    let mut cursor = cursor;
    if let Some(last) = queue.last() {
        cursor.path.share(&last.cursor.path)?;
    }
    Ok(cursor)
}

/// Whether the command binds a variable.
fn is_let(command: &Cmd) -> bool
    ensures { IsTrue result ↔ IsLet (cmd_of command.now) }
{
    match command {
        Cmd::Let(_, _) => true,
        Cmd::Set(_, _) | Cmd::InsertAfter(_, _) | Cmd::Delete(_) | Cmd::Yield => false,
    }
}

impl<S: TreeStore> Replica<S> {
    /// Runs the next command, and returns the trace of the event.
    ///
    /// It is refused, in this order, with `NoCommand` where none is left, `AtYield` where `yield`
    /// comes next, for the first condition that fails in the command's expression, `NotACursor`
    /// where the expression gives no cursor for an operation, and `NotInList` where an insert has no
    /// place. After a refusal all is as it was.
    ///
    /// The new state is right only where all of the replica's own operations were applied: a new operation has a
    /// greater counter than all that was applied. No other event needs that.
    pub fn exec(&mut self) -> Result<Trace, ReplicaFault>
        ensures { AnswersEvent (E.Exec self.old.number) [] self.old self.new result }
    {
        if self.binds_next()? {
            self.bind()
        } else {
            self.make()
        }
    }

    /// Whether the next command binds a variable; else it makes an operation. Where there is none, or
    /// it is `yield`, the fault.
    pub(crate) fn binds_next(&self) -> Result<bool, ReplicaFault>
        ensures binds { IfOk result (λ b. IsTrue b → BindsNext self.now.history.now.left) }
        ensures makes { IfOk result (λ b. IsFalse b → MakesNext self.now.history.now.left) }
        ensures err { IfErr result (λ f. IsEventRefused (E.Exec self.now.number) [] self.now f) }
    {
        if self.done == self.script.len() {
            return Err(ReplicaFault::NoCommand);
        }
        let command = &self.script[self.done];
        if is_yield(command) {
            return Err(ReplicaFault::AtYield);
        }
        Ok(is_let(command))
    }

    /// The variable that the next command binds, and what it is bound to.
    pub(crate) fn bound_next(&self, trace: &mut Trace) -> Result<(Text, Bound), ReplicaFault>
        requires { BindsNext self.now.history.now.left }
        ensures ok { IfOk result (λ var. Binds self.now.history.now var.0 (bound_of var.1) trace.old trace.new) }
        ensures err { IfErr result (λ f. IsEventRefused (E.Exec self.now.number) [] self.now f) }
    {
        let Cmd::Let(name, expr) = &self.script[self.done] else {
            unreachable!();
        };
        trace.open(Rule::Exec)?;
        trace.open(Rule::Let)?;
        let copy = name.copy()?;
        let bound = eval_in_map(self.alloc, &self.store, &self.vars, expr, trace)?;
        Ok((copy, bound))
    }

    /// Runs the next command, which binds a variable.
    fn bind(&mut self) -> Result<Trace, ReplicaFault>
        requires { BindsNext self.old.history.now.left }
        ensures { AnswersEvent (E.Exec self.old.number) [] self.old self.new result }
    {
        let mut trace = Trace::new(self.alloc);
        let (name, bound) = self.bound_next(&mut trace)?;
        self.steps.reserve(1)?;
        let mark = self.store.mark();
        let before = bind_var(self.alloc, &mut self.vars, &name, bound)?;
        trace.close(0);
        self.done += 1;
        let change = Change::Bound { name, before };
        self.steps.push(Record { mark, change }).unwrap();
        Ok(trace)
    }

    /// The operation that the next command makes.
    pub(crate) fn make_op(&self, trace: &mut Trace) -> Result<Op, ReplicaFault>
        requires { MakesNext self.now.history.now.left }
        ensures ok { IfOk result (λ op. MakesOp self.now.history.now self.now.number op trace.old trace.new) }
        ensures err { IfErr result (λ f. IsEventRefused (E.Exec self.now.number) [] self.now f) }
    {
        let command = &self.script[self.done];
        trace.open(Rule::Exec)?;
        trace.open(rule_of(command))?;
        let place = place_of(command);
        let bound = eval_in_map(self.alloc, &self.store, &self.vars, place, trace)?;
        let Bound::Cursor(cursor) = bound else {
            return Err(ReplicaFault::NotACursor);
        };
        let cursor = sharing(self.queue.as_slice(), cursor)?;
        trace.open(Rule::MakeOp)?;
        trace.open(Rule::ApplyLocal)?;
        Ok(Op {
            id: Id {
                counter: self.ops.greatest() + 1,
                replica: self.number,
            },
            deps: self.ops.copy()?,
            cursor,
            mutation: mutation_of(command)?,
        })
    }

    /// Runs the next command, which makes an operation.
    fn make(&mut self) -> Result<Trace, ReplicaFault>
        requires { MakesNext self.old.history.now.left }
        ensures { AnswersEvent (E.Exec self.old.number) [] self.old self.new result }
    {
        let mut trace = Trace::new(self.alloc);
        let op = self.make_op(&mut trace)?;
        self.steps.reserve(1)?;
        self.queue.reserve(1)?;
        let mark = self.store.mark();
        let id = op.id;
        let before = apply_to(self.alloc, &mut self.store, &mut self.ops, &op, &mut trace)?;
        trace.close(0);
        self.done += 1;
        self.queue.push(op).unwrap();
        let change = Change::Made { id, before };
        self.steps.push(Record { mark, change }).unwrap();
        Ok(trace)
    }
}
