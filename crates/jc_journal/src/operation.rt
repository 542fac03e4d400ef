//! Writes an operation in full, and the identifiers of operations. `event` and `stuck` call it.

ghost use Rattle.std.specs.Prelude.{◌≡◌, ◌≤◌, ◌∷◌, [], OnOk, length, codes};
ghost use Rattle.json.specs.Json.{string};
ghost use Rattle.json.specs.Token as T;
ghost use Rattle.json.specs.Tree.{json_tokens};
ghost use Rattle.jc_rules.specs.declared.limits.TheConstants.{MAX_REPLICAS};
ghost use Rattle.jc_json.specs.Json.{id_text, key_text, tagged_text};
ghost use Rattle.jc_replica.specs.Operations.{identifiers};
ghost use Rattle.jc_json.specs.Gains.{Gains};
ghost use Rattle.jc_json.specs.Values.{ids_json};
ghost use Rattle.jc_journal.specs.Operation.{json_object, cursor_json, counter_member, counter_members, vector_json, mutation_name, mutation_value, op_json};
ghost use Rattle.jc_journal.specs.Parts.{member_tokens};

use crate::members::write_text;
use jc_json::{Numbers, id_text, key_text, tagged_text, write_id, write_value};
use jc_rules::{Cursor, Id, IdSet, Key, Mutation, Op, Tagged, Text, name_at};
use json::Writer;
use std::alloc::{AllocError, Global};

/// Writes the list of the operations' identifiers, in their order.
pub(crate) fn write_ids_of(
    alloc: Global,
    names: &[Text],
    ops: &[Op],
    out: &mut Writer,
) -> Result<(), AllocError>
    ensures { OnOk result (Gains out.old out.new (json_tokens (ids_json names.now (identifiers ops.now)))) }
{
    out.begin_array()?;
    for op in ops {
        write_id(alloc, names, op.id, out)?;
    }
    out.end_array()
}

/// Writes the text of a tagged key.
fn write_tagged(
    alloc: Global,
    names: &[Text],
    tagged: &Tagged,
    out: &mut Writer,
) -> Result<(), AllocError>
    ensures { OnOk result (Gains out.old out.new (T.string (tagged_text names.now tagged.now) ∷ [])) }
{
    let text = tagged_text(alloc, names, tagged)?;
    out.string(text.as_str())
}

/// Writes the text of a key.
fn write_key(alloc: Global, names: &[Text], key: &Key, out: &mut Writer) -> Result<(), AllocError>
    ensures { OnOk result (Gains out.old out.new (T.string (key_text names.now key.now) ∷ [])) }
{
    let text = key_text(alloc, names, key)?;
    out.string(text.as_str())
}

/// Writes a cursor: the texts of its path, then that of its last key.
fn write_cursor(
    alloc: Global,
    names: &[Text],
    cursor: &Cursor,
    out: &mut Writer,
) -> Result<(), AllocError>
    ensures { OnOk result (Gains out.old out.new (json_tokens (cursor_json names.now cursor.now))) }
{
    out.begin_array()?;
    for tagged in cursor.path.as_slice() {
        write_tagged(alloc, names, tagged, out)?;
    }
    write_key(alloc, names, &cursor.last, out)?;
    out.end_array()
}

/// Writes a replica's counter under its name, unless it is 0.
fn write_counter(name: &str, counter: u64, out: &mut Writer) -> Result<(), AllocError>
    ensures { OnOk result (Gains out.old out.new (member_tokens (counter_member name.now counter))) }
{
    if counter == 0 {
        return Ok(());
    }
    out.key(name)?;
    out.u64(counter)
}

/// Writes the members of a version vector, in the order of the replicas' names.
fn write_counters(names: &[Text], ids: &IdSet, out: &mut Writer) -> Result<(), AllocError>
    requires { length names.now ≤ MAX_REPLICAS }
    ensures { OnOk result (Gains out.old out.new (member_tokens (counter_members 0 names.now ids.now))) }
{
    let count = names.len() as u16;
    for p in 0..count {
        write_counter(name_at(names, p), ids.greatest_of(p), out)?;
    }
    Ok(())
}

/// Writes a version vector: under the name of each replica its greatest counter, where it has one.
fn write_vector(names: &[Text], ids: &IdSet, out: &mut Writer) -> Result<(), AllocError>
    requires { length names.now ≤ MAX_REPLICAS }
    ensures { OnOk result (Gains out.old out.new (json_tokens (vector_json names.now ids.now))) }
{
    out.begin_object()?;
    write_counters(names, ids, out)?;
    out.end_object()
}

fn mutation_name(mutation: &Mutation) -> &'static str
    ensures { result.now ≡ mutation_name mutation.now }
{
    match mutation {
        Mutation::Assign(_) => "assign",
        Mutation::Insert(_) => "insert",
        Mutation::Delete => "delete",
    }
}

/// Writes the value of a mutation as a member, if it has one.
fn write_mutation_value(mutation: &Mutation, out: &mut Writer) -> Result<(), AllocError>
    ensures { OnOk result (Gains out.old out.new (member_tokens (mutation_value mutation.now))) }
{
    match mutation {
        Mutation::Assign(value) | Mutation::Insert(value) => {
            out.key("value")?;
            write_value(value, Numbers::Named, out)
        }
        Mutation::Delete => Ok(()),
    }
}

/// Writes an operation's cursor as a member.
fn write_op_cursor(
    alloc: Global,
    names: &[Text],
    cursor: &Cursor,
    out: &mut Writer,
) -> Result<(), AllocError>
    ensures { OnOk result (Gains out.old out.new
        (member_tokens ((codes "cursor", cursor_json names.now cursor.now) ∷ []))) }
{
    out.key("cursor")?;
    write_cursor(alloc, names, cursor, out)
}

/// Writes what an operation depends on as a member.
fn write_op_deps(names: &[Text], deps: &IdSet, out: &mut Writer) -> Result<(), AllocError>
    requires { length names.now ≤ MAX_REPLICAS }
    ensures { OnOk result (Gains out.old out.new
        (member_tokens ((codes "deps", vector_json names.now deps.now) ∷ []))) }
{
    out.key("deps")?;
    write_vector(names, deps, out)
}

/// Writes an operation's identifier as a member.
fn write_op_id(alloc: Global, names: &[Text], id: Id, out: &mut Writer) -> Result<(), AllocError>
    ensures { OnOk result (Gains out.old out.new (member_tokens ((codes "id", string (id_text names.now id)) ∷ []))) }
{
    let text = id_text(alloc, names, id)?;
    write_text("id", text.as_str(), out)
}

/// Writes an operation.
pub(crate) fn write_op(
    alloc: Global,
    names: &[Text],
    op: &Op,
    out: &mut Writer,
) -> Result<(), AllocError>
    requires { length names.now ≤ MAX_REPLICAS }
    ensures { OnOk result (Gains out.old out.new (json_tokens (op_json names.now op.now))) }
{
    out.begin_object()?;
    write_op_cursor(alloc, names, &op.cursor, out)?;
    write_op_deps(names, &op.deps, out)?;
    write_op_id(alloc, names, op.id, out)?;
    write_text("mutation", mutation_name(&op.mutation), out)?;
    write_mutation_value(&op.mutation, out)?;
    out.end_object()
}
