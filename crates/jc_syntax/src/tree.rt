//! The trees of expressions, commands and events that the parser builds, and their copies.

ghost use Rattle.std.specs.Prelude.{◌≡◌, IfOk, map};
ghost use Rattle.jc_syntax.specs.Trees.{expr_of, cmd_of};

use jc_rules::{Text, Value};
use std::alloc::{AllocError, Global};

/// An expression. Keys of `Get` are decoded.
#[derive(Drop, PartialEq, Eq)]
pub enum Expr {
    /// `doc`
    Doc,
    /// A variable.
    Var(Text),
    /// `expr.get(key)`
    Get(Box<Expr>, Text),
    /// `expr.idx(i)`
    Idx(Box<Expr>, u32),
    /// `expr.keys`
    Keys(Box<Expr>),
    /// `expr.values`
    Values(Box<Expr>),
}

/// A command.
#[derive(Drop, PartialEq, Eq)]
pub enum Cmd {
    /// `let x = expr`
    Let(Text, Expr),
    /// `expr := value`
    Set(Expr, Value),
    /// `expr.insertAfter(value)`
    InsertAfter(Expr, Value),
    /// `expr.delete`
    Delete(Expr),
    /// `yield`
    Yield,
}

/// The name of a replica, and its offset in the text.
#[derive(Drop, PartialEq, Eq)]
pub struct Named {
    pub name: Text,
    pub place: usize,
}

/// An event with the names of its replicas. The first is the replica that acts.
#[derive(Drop, PartialEq, Eq)]
pub enum NamedEvent {
    /// `p.exec`
    Exec(Named),
    /// `p.send`
    Send(Named),
    /// `p.recv(q)`
    Recv(Named, Named),
    /// `p.take(q, counter, author)`, which names an identifier.
    Take {
        replica: Named,
        sender: Named,
        counter: u32,
        author: Named,
    },
    /// `p.apply(counter, author)`, which names an identifier.
    Apply {
        replica: Named,
        counter: u32,
        author: Named,
    },
    /// `p.done`
    Done(Named),
}

impl Expr {
    /// A copy of the expression.
    pub fn copy(&self, alloc: Global) -> Result<Expr, AllocError>
        ensures { IfOk result (λ e. expr_of e ≡ expr_of self.now) }
    {
        Ok(match self {
            Expr::Doc => Expr::Doc,
            Expr::Var(name) => Expr::Var(name.copy()?),
            Expr::Get(from, key) => Expr::Get(Box::new(alloc, from.copy(alloc)?)?, key.copy()?),
            Expr::Idx(from, index) => Expr::Idx(Box::new(alloc, from.copy(alloc)?)?, *index),
            Expr::Keys(from) => Expr::Keys(Box::new(alloc, from.copy(alloc)?)?),
            Expr::Values(from) => Expr::Values(Box::new(alloc, from.copy(alloc)?)?),
        })
    }
}

impl Cmd {
    /// A copy of the command.
    pub fn copy(&self, alloc: Global) -> Result<Cmd, AllocError>
        ensures { IfOk result (λ c. cmd_of c ≡ cmd_of self.now) }
    {
        Ok(match self {
            Cmd::Let(name, expr) => Cmd::Let(name.copy()?, expr.copy(alloc)?),
            Cmd::Set(expr, value) => Cmd::Set(expr.copy(alloc)?, value.copy()?),
            Cmd::InsertAfter(expr, value) => Cmd::InsertAfter(expr.copy(alloc)?, value.copy()?),
            Cmd::Delete(expr) => Cmd::Delete(expr.copy(alloc)?),
            Cmd::Yield => Cmd::Yield,
        })
    }
}

/// A copy of the script.
pub fn copy_script(alloc: Global, script: &[Cmd]) -> Result<Vec<Cmd>, AllocError>
    ensures { IfOk result (λ copies. map cmd_of copies.items ≡ map cmd_of script.now) }
{
    let mut copies = Vec::new(alloc);
    for cmd in script {
        copies.push(cmd.copy(alloc)?)?;
    }
    Ok(copies)
}

impl Named {
    /// A copy of the name and its offset.
    pub fn copy(&self) -> Result<Named, AllocError>
        ensures { IfOk result (λ named. named ≡ self.now) }
    {
        Ok(Named {
            name: self.name.copy()?,
            place: self.place,
        })
    }
}

impl NamedEvent {
    /// A copy of the event.
    pub fn copy(&self) -> Result<NamedEvent, AllocError>
        ensures { IfOk result (λ event. event ≡ self.now) }
    {
        Ok(match self {
            NamedEvent::Exec(p) => NamedEvent::Exec(p.copy()?),
            NamedEvent::Send(p) => NamedEvent::Send(p.copy()?),
            NamedEvent::Recv(p, q) => NamedEvent::Recv(p.copy()?, q.copy()?),
            NamedEvent::Take {
                replica,
                sender,
                counter,
                author,
            } => NamedEvent::Take {
                replica: replica.copy()?,
                sender: sender.copy()?,
                counter: *counter,
                author: author.copy()?,
            },
            NamedEvent::Apply {
                replica,
                counter,
                author,
            } => NamedEvent::Apply {
                replica: replica.copy()?,
                counter: *counter,
                author: author.copy()?,
            },
            NamedEvent::Done(p) => NamedEvent::Done(p.copy()?),
        })
    }
}
