//! The dump of a replica's state as one line of JSON, sent to the writer member by member. replica.rt calls it.

ghost use Rattle.std.specs.Prelude.{◌≡◌, Ok, IfOk, OnOk, option_map, option_copied, string_bytes};
ghost use Rattle.serde.specs.Event.{Sends, Then, field_key};
ghost use Rattle.serde.specs.declared.name.Case.TheVariants.{AsIs};
ghost use Rattle.serde_json.specs.Events.{SendsValue};
ghost use Rattle.serde_json.specs.Written.{compact_text};
ghost use Rattle.jc_json.specs.Json.{ids_data, object_of};
ghost use Rattle.jc_dump.specs.DumpParts.{shown_members, SendsMember, SendsBeforeTree};

use crate::vars::send_vars;
use jc_cursor::Bound;
use jc_json::{Tree, send_ids};
use jc_rules::{Id, Text};
use jc_tree::TreeStore;
use serde::{Described, Serialize, Serializer};
use serde_json::Error;
use std::alloc::{AllocError, Global};
use std::collections::BTreeMap;

/// What a dump shows of a replica beside its tree.
#[derive(Drop)]
pub(crate) struct Shown<'a> {
    pub(crate) name: &'a str,
    /// Whether it made an event of its yield.
    pub(crate) acted: bool,
    /// The number of commands that are left.
    pub(crate) left: usize,
    /// The identifiers of the applied operations, in their order.
    pub(crate) ops: Vec<Id>,
    /// Those of the operations that it made.
    pub(crate) queue: Vec<Id>,
    /// Those of the operations that it received.
    pub(crate) recv: Vec<Id>,
    /// Those of the operations that it offers.
    pub(crate) send: Vec<Id>,
    pub(crate) vars: &'a BTreeMap<Text, Bound>,
}

/// A replica's dump, without its tree where there is no store. `serde` sends it to a writer.
#[derive(Drop)]
struct Dump<'a, S> {
    alloc: Global,
    names: &'a [Text],
    shown: &'a Shown<'a>,
    store: Option<&'a S>,
}

impl<S: TreeStore> Described for Dump<'_, S> {
    ghost writes = { λ d. SendsValue (object_of
        (shown_members d.names.now d.shown.now (option_map (λ s. (S.tree s).now) (option_copied d.store)))) };
}

impl<S: TreeStore> Serialize for Dump<'_, S> {
    /// Sends the members in the order of their names.
    fn serialize<W: Serializer>(&self, out: &mut W) -> Result<(), W::Error> {
        out.begin_map(Some(8 + usize::from(self.store.is_some())))?;
        send_before_tree(self.alloc, self.names, self.shown, out)?;
        if let Some(store) = self.store {
            let tree = Tree {
                alloc: self.alloc,
                names: self.names,
                store,
            };
            send_member("tree", &tree, out)?;
        }
        out.key("vars")?;
        send_vars(self.alloc, self.names, self.shown.vars, out)?;
        out.end_map()
    }
}

/// Sends the members before the tree, in the order of their names.
fn send_before_tree<W: Serializer>(
    alloc: Global,
    names: &[Text],
    shown: &Shown,
    out: &mut W,
) -> Result<(), W::Error>
    ensures { OnOk result (SendsBeforeTree names.now shown.now (W.written out.old) (W.written out.new)) }
{
    send_member("acted", &shown.acted, out)?;
    send_member("left", &shown.left, out)?;
    send_member("name", &shown.name, out)?;
    send_ids_member(alloc, names, "ops", shown.ops.as_slice(), out)?;
    send_ids_member(alloc, names, "queue", shown.queue.as_slice(), out)?;
    send_ids_member(alloc, names, "recv", shown.recv.as_slice(), out)?;
    send_ids_member(alloc, names, "send", shown.send.as_slice(), out)
}

/// Sends a member of an object: its name, then its value.
fn send_member<T: Serialize, W: Serializer>(
    name: &str,
    value: &T,
    out: &mut W,
) -> Result<(), W::Error>
    ensures { OnOk result (Then (Sends (field_key name.now AsIs)) (T.writes value.now)
        (W.written out.old) (W.written out.new)) }
{
    out.key(name)?;
    value.serialize(out)
}

/// Sends a member whose value is a list of identifiers.
fn send_ids_member<W: Serializer>(
    alloc: Global,
    names: &[Text],
    name: &str,
    ids: &[Id],
    out: &mut W,
) -> Result<(), W::Error>
    ensures { OnOk result (SendsMember name.now (ids_data names.now ids.now) (W.written out.old) (W.written out.new)) }
{
    out.key(name)?;
    send_ids(alloc, names, ids, out)
}

/// Returns the text. A dump can be refused for want of memory alone.
pub(crate) fn unless_refused(text: Result<String, Error>) -> Result<String, AllocError>
    ensures { IfOk result (λ s. text ≡ Ok s) }
{
    match text {
        Ok(text) => Ok(text),
        Err(_) => Err(AllocError),
    }
}

/// Returns the dump of a replica, without its tree where there is no store, and without a line feed.
pub(crate) fn dump_text<S: TreeStore>(
    alloc: Global,
    names: &[Text],
    shown: &Shown,
    store: Option<&S>,
) -> Result<String, AllocError>
    ensures { IfOk result (λ text. string_bytes text ≡ compact_text (object_of
        (shown_members names.now shown.now (option_map (λ s. (S.tree s).now) (option_copied store.entry))))) }
{
    let dump = Dump {
        alloc,
        names,
        shown,
        store,
    };
    unless_refused(serde_json::to_string(alloc, &dump))
}
