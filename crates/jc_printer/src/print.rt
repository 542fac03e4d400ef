//! The functions that write canonical texts. `quote` writes their string literals.

ghost use Rattle.std.specs.Prelude.{◌≡◌, ◌++◌, ◌<◌, length, map, codes, decimal, OnOk, OnErr, IfOk, string_bytes};
ghost use Rattle.jc_syntax.specs.Trees.{expr_of, cmd_of};
ghost use Rattle.jc_printer.specs.Canon.{canon_expr, canon_value, canon_cmd, canon_script, canon_event, AreNamed};

use crate::quote::push_quoted;
use jc_rules::{Event, Text, Value, name_at};
use jc_syntax::{Cmd, Expr};
use std::alloc::{AllocError, Global};

/// The canonical text of a script: its commands, joined by a semicolon and a blank.
pub fn print_script(alloc: Global, script: &[Cmd]) -> Result<String, AllocError>
    ensures { IfOk result (λ text. string_bytes text ≡ canon_script (map cmd_of script.now)) }
{
    let mut out = String::new(alloc);
    let [first, rest @ ..] = script else {
        return Ok(out);
    };
    write_cmd(&mut out, first)?;
    for cmd in rest {
        out.push_str("; ")?;
        write_cmd(&mut out, cmd)?;
    }
    Ok(out)
}

/// The canonical text of an expression.
pub fn print_expr(alloc: Global, expr: &Expr) -> Result<String, AllocError>
    ensures { IfOk result (λ text. string_bytes text ≡ canon_expr (expr_of expr.now)) }
{
    let mut out = String::new(alloc);
    push_expr(&mut out, expr)?;
    Ok(out)
}

/// The canonical text of a value.
pub fn print_value(alloc: Global, value: &Value) -> Result<String, AllocError>
    ensures { IfOk result (λ text. string_bytes text ≡ canon_value value.now) }
{
    let mut out = String::new(alloc);
    push_value(&mut out, value)?;
    Ok(out)
}

/// The canonical text of an event. `names` has the name of each of its replicas at the replica's number.
pub fn print_event(alloc: Global, names: &[Text], event: &Event) -> Result<String, AllocError>
    requires { AreNamed event.now (length names.now) }
    ensures { IfOk result (λ text. string_bytes text ≡ canon_event names.now event.now) }
{
    match event {
        Event::Exec(p) => plain_event(alloc, name_at(names, *p), "exec"),
        Event::Send(p) => plain_event(alloc, name_at(names, *p), "send"),
        Event::Recv(p, q) => recv_event(alloc, name_at(names, *p), name_at(names, *q)),
        Event::Take(p, q, id) => {
            let name = name_at(names, *p);
            let sender = name_at(names, *q);
            take_event(alloc, name, sender, id.counter, name_at(names, id.replica))
        }
        Event::Apply(p, id) => {
            let author = name_at(names, id.replica);
            apply_event(alloc, name_at(names, *p), id.counter, author)
        }
        Event::Done(p) => plain_event(alloc, name_at(names, *p), "done"),
    }
}

fn plain_event(alloc: Global, name: &str, what: &str) -> Result<String, AllocError>
    ensures { IfOk result (λ text. string_bytes text ≡ name.now ++ codes "." ++ what.now) }
{
    format!(in alloc; "{name}.{what}")
}

fn recv_event(alloc: Global, name: &str, other: &str) -> Result<String, AllocError>
    ensures { IfOk result (λ text. string_bytes text ≡ name.now ++ codes ".recv(" ++ other.now ++ codes ")") }
{
    format!(in alloc; "{name}.recv({other})")
}

fn take_event(
    alloc: Global,
    name: &str,
    sender: &str,
    counter: u64,
    author: &str,
) -> Result<String, AllocError>
    ensures { IfOk result (λ text. string_bytes text
        ≡ name.now ++ codes ".take(" ++ sender.now ++ codes ", " ++ decimal counter ++ codes ", " ++ author.now
        ++ codes ")") }
{
    format!(in alloc; "{name}.take({sender}, {counter}, {author})")
}

fn apply_event(alloc: Global, name: &str, counter: u64, author: &str) -> Result<String, AllocError>
    ensures { IfOk result (λ text. string_bytes text
        ≡ name.now ++ codes ".apply(" ++ decimal counter ++ codes ", " ++ author.now ++ codes ")") }
{
    format!(in alloc; "{name}.apply({counter}, {author})")
}

/// Appends the canonical text of a command. A refusal leaves the text as it was.
pub fn push_cmd(out: &mut String, cmd: &Cmd) -> Result<(), AllocError>
    ensures ok { OnOk result (string_bytes out.new ≡ string_bytes out.old ++ canon_cmd (cmd_of cmd.now)) }
    ensures err { OnErr result (string_bytes out.new ≡ string_bytes out.old) }
{
    let mut text = String::new(*out.allocator());
    write_cmd(&mut text, cmd)?;
    out.push_str(text.as_str())
}

/// Appends the canonical text of a command. After a refusal a part of it may be there.
fn write_cmd(out: &mut String, cmd: &Cmd) -> Result<(), AllocError>
    ensures { OnOk result (string_bytes out.new ≡ string_bytes out.old ++ canon_cmd (cmd_of cmd.now)) }
{
    match cmd {
        Cmd::Let(name, expr) => {
            out.push_str("let ")?;
            out.push_str(name.as_str())?;
            out.push_str(" = ")?;
            push_expr(out, expr)
        }
        Cmd::Set(expr, value) => {
            push_expr(out, expr)?;
            out.push_str(" := ")?;
            push_value(out, value)
        }
        Cmd::InsertAfter(expr, value) => {
            push_expr(out, expr)?;
            out.push_str(".insertAfter(")?;
            push_value(out, value)?;
            out.push_str(")")
        }
        Cmd::Delete(expr) => {
            push_expr(out, expr)?;
            out.push_str(".delete")
        }
        Cmd::Yield => out.push_str("yield"),
    }
}

fn push_expr(out: &mut String, expr: &Expr) -> Result<(), AllocError>
    ensures { OnOk result (string_bytes out.new ≡ string_bytes out.old ++ canon_expr (expr_of expr.now)) }
{
    match expr {
        Expr::Doc => out.push_str("doc"),
        Expr::Var(name) => out.push_str(name.as_str()),
        Expr::Get(from, key) => {
            push_expr(out, from)?;
            out.push_str(".get(")?;
            push_quoted(out, key.as_str())?;
            out.push_str(")")
        }
        Expr::Idx(from, index) => {
            push_expr(out, from)?;
            push_index(out, *index)
        }
        Expr::Keys(from) => {
            push_expr(out, from)?;
            out.push_str(".keys")
        }
        Expr::Values(from) => {
            push_expr(out, from)?;
            out.push_str(".values")
        }
    }
}

fn push_index(out: &mut String, index: u32) -> Result<(), AllocError>
    ensures { OnOk result (string_bytes out.new ≡ string_bytes out.old ++ codes ".idx(" ++ decimal index ++ codes ")") }
{
    write!(out, ".idx({index})")
}

fn push_value(out: &mut String, value: &Value) -> Result<(), AllocError>
    ensures { OnOk result (string_bytes out.new ≡ string_bytes out.old ++ canon_value value.now) }
{
    match value {
        Value::Number(text) => out.push_str(text.as_str()),
        Value::Str(text) => push_quoted(out, text.as_str()),
        Value::True => out.push_str("true"),
        Value::False => out.push_str("false"),
        Value::Null => out.push_str("null"),
        Value::EmptyMap => out.push_str("{}"),
        Value::EmptyList => out.push_str("[]"),
    }
}
