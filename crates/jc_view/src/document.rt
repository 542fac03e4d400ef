//! Writes the document of a replica as JSON, and the line that holds it. `view_replica` calls `view_line`.

ghost use Rattle.std.specs.Prelude.{◌≡◌, ◌≢◌, ◌∷◌, ◌++◌, [], List, true, is_some, Some, None, IfOk, IfSome, OnOk, MatchOption, codes};
ghost use Rattle.json.specs.Json.{member, no_members, object};
ghost use Rattle.json.specs.Token as T;
ghost use Rattle.json.specs.Tree.{json_tokens};
ghost use Rattle.jc_rules.specs.declared.id.Id.{Id as AnyId};
ghost use Rattle.jc_rules.specs.declared.key.Key.TheVariants.{Doc};
ghost use Rattle.jc_rules.specs.declared.key.Next.TheVariants.{Elem as To};
ghost use Rattle.jc_rules.specs.declared.key.Tagged.{Tagged as AnyTagged};
ghost use Rattle.jc_rules.specs.declared.key.Tagged.TheVariants.{MapT, ListT};
ghost use Rattle.jc_rules.specs.Context.{content, presences, registers, next as next_of};
ghost use Rattle.jc_rules.specs.Entries.{find};
ghost use Rattle.jc_rules.specs.Order.{key_cmp};
ghost use Rattle.jc_rules.specs.WellFormed.{IsChained};
ghost use Rattle.jc_tree.specs.Tree.{here};
ghost use Rattle.jc_view.specs.Visible.{goes_by, marked, or_no_value, parts_json, present, map_json, list_json, view_line};
ghost use Rattle.jc_json.specs.Gains.{Gains};
ghost use Rattle.jc_view.specs.Parts.{parts_shown_at, child_json, shows_at, form_of, member_shown, item_of, part_tokens, values_tokens, first_tokens, if_so, tag_of, name_of};

use crate::alive::is_alive;
use jc_json::{Numbers, write_pairs, write_value};
use jc_replica::Replica;
use jc_rules::{Id, Key, Next, Tagged, Text, Value};
use jc_tree::{ANYWHERE, Hint, KeyAt, Place, TreeStore};
use json::Writer;
use std::alloc::{AllocError, Global};

/// What a document is written from: the replica and the store that has its tree. `names` has the name of each replica at
/// its number.
#[derive(Drop)]
pub(crate) struct View<'a, S: TreeStore> {
    pub alloc: Global,
    pub names: &'a [Text],
    pub replica: &'a Replica<S>,
    pub store: &'a S,
}

/// The kinds of what stands under a key and has keys of its own.
#[derive(Clone, Copy)]
enum Branch {
    Map,
    List,
}

impl Branch {
    fn tagged(self, key: Key) -> Tagged
        ensures { result ≡ tag_of self key }
    {
        match self {
            Branch::Map => Tagged::MapT(key),
            Branch::List => Tagged::ListT(key),
        }
    }

    /// Its name in a conflict.
    fn name(self) -> &'static str
        ensures { result.now ≡ name_of self }
    {
        match self {
            Branch::Map => "map",
            Branch::List => "list",
        }
    }
}

/// How a place is shown: as its one alternative, or as a conflict of all its alternatives.
#[derive(Clone, Copy)]
enum Form {
    Value,
    Child(Branch),
    Every,
}

/// Whether the key's presence set has an identifier.
pub(crate) fn is_present<S: TreeStore>(store: &S, key: KeyAt<'_>) -> bool
    requires { (at : List AnyTagged) × S.names store.now key.place at }
    ensures { (at : List AnyTagged) → S.names store.now key.entry.place at
        → result ≡ is_some (find key_cmp key.entry.key.now (present (presences (here at (S.tree store.now))))) }
{
    match store.presence_by(key.place, key.key, key.hint) {
        Some(ids) => !ids.is_empty(),
        None => false,
    }
}

/// The values at a key.
fn values_at<'a, S: TreeStore>(store: &'a S, key: KeyAt<'_>) -> &'a [(Id, Value)]
    requires { (at : List AnyTagged) × S.names store.now key.place at }
    ensures { (at : List AnyTagged) → S.names store.now key.entry.place at
        → result.now ≡ or_no_value (find key_cmp key.entry.key.now (registers (here at (S.tree store.now)))) }
{
    match store.register_by(key.place, key.key, key.hint) {
        Some(pairs) => pairs,
        None => &[],
    }
}

/// The place of the map or the list under the key.
fn child_at<S: TreeStore>(store: &S, key: KeyAt<'_>, branch: Branch) -> Option<Place>
    requires { (at : List AnyTagged) × S.names store.now key.place at }
    ensures some { (at : List AnyTagged) → S.names store.now key.entry.place at
        → is_some result ≡ is_some (content (tag_of branch key.entry.key.now) (here at (S.tree store.now))) }
    ensures named { (at : List AnyTagged) → S.names store.now key.entry.place at
        → IfSome result (λ child. S.names store.now child (at ++ tag_of branch key.entry.key.now ∷ [])) }
{
    match branch {
        Branch::Map => store.map_by(key.place, key.key, key.hint),
        Branch::List => store.list_by(key.place, key.key, key.hint),
    }
}

/// Whether the map or the list under the key is shown: it exists and is alive.
fn is_shown<S: TreeStore>(
    view: &View<'_, S>,
    at: &[Tagged],
    key: KeyAt<'_>,
    branch: Branch,
) -> Result<bool, AllocError>
    requires { S.names view.now.store.now key.place at.now }
    ensures { IfOk result (λ shown. shown ≡ shows_at (goes_by view.now.replica.now.history.now) at.now
        (tag_of branch key.entry.key.now) (here at.now (S.tree view.now.store.now))) }
{
    if child_at(view.store, key, branch).is_none() {
        return Ok(false);
    }
    let Some(ids) = view.store.presence_by(key.place, key.key, key.hint) else {
        return Ok(false);
    };
    let tagged = branch.tagged(key.key.copy()?);
    Ok(is_alive(view.replica, ids, at, &tagged))
}

/// Whether the map at a key is shown, and whether the list is.
fn parts_at<S: TreeStore>(
    view: &View<'_, S>,
    at: &[Tagged],
    key: KeyAt<'_>,
) -> Result<(bool, bool), AllocError>
    requires { S.names view.now.store.now key.place at.now }
    ensures map { IfOk result (λ parts. parts.0 ≡ shows_at (goes_by view.now.replica.now.history.now) at.now
        (MapT key.entry.key.now) (here at.now (S.tree view.now.store.now))) }
    ensures list { IfOk result (λ parts. parts.1 ≡ shows_at (goes_by view.now.replica.now.history.now) at.now
        (ListT key.entry.key.now) (here at.now (S.tree view.now.store.now))) }
{
    let map = is_shown(view, at, key, Branch::Map)?;
    let list = is_shown(view, at, key, Branch::List)?;
    Ok((map, list))
}

/// How a place with these values is shown.
fn choose_form(values: &[(Id, Value)], map: bool, list: bool) -> Form
    ensures { result ≡ form_of values.now map list }
{
    match (values.len(), map, list) {
        (1, false, false) => Form::Value,
        (0, true, false) => Form::Child(Branch::Map),
        (0, false, true) => Form::Child(Branch::List),
        _ => Form::Every,
    }
}

/// Writes a name as a key. A name that begins with `!` gets one more, so none looks like `!conflict`.
fn write_name(alloc: Global, name: &str, out: &mut Writer) -> Result<(), AllocError>
    ensures { OnOk result (Gains out.old out.new (T.key (marked name.now) ∷ [])) }
{
    if name.as_bytes().first() == Some(&b'!') {
        let name = format!(in alloc; "!{name}")?;
        out.key(name.as_str())
    } else {
        out.key(name)
    }
}

/// The element that follows a key of a list, and where to look first for it.
fn element_after<S: TreeStore>(store: &S, place: Place, key: &Key, hint: Hint) -> Option<(Id, Hint)>
    requires { (at : List AnyTagged) × S.names store.now place at }
    ensures { (at : List AnyTagged) → S.names store.now place at → MatchOption result
        ((i : AnyId) → next_of key.now (here at (S.tree store.now)) ≢ Some (To i))
        (λ next. next_of key.now (here at (S.tree store.now)) ≡ Some (To next.0)) }
{
    let step = store.step_by(place, key, hint);
    match step.next {
        Some(Next::Elem(id)) => Some((id, step.hint)),
        _ => None,
    }
}

/// Writes the first of the values.
fn write_first(values: &[(Id, Value)], out: &mut Writer) -> Result<(), AllocError>
    ensures { OnOk result (Gains out.old out.new (first_tokens values.now)) }
{
    match values.first() {
        Some((_, value)) => write_value(value, Numbers::Plain, out),
        None => Ok(()),
    }
}

/// Writes the values under their name, if there are any.
fn write_values(
    alloc: Global,
    names: &[Text],
    values: &[(Id, Value)],
    out: &mut Writer,
) -> Result<(), AllocError>
    ensures { OnOk result (Gains out.old out.new (values_tokens names.now values.now)) }
{
    if values.is_empty() {
        return Ok(());
    }
    out.key("values")?;
    write_pairs(alloc, names, values, Numbers::Plain, out)
}

/// Writes the map or the list under a key. At the end `at` is as it was, unless memory ran out.
#[cycle(walk)]
fn write_child<S: TreeStore>(
    view: &View<'_, S>,
    at: &mut Vec<Tagged>,
    key: KeyAt<'_>,
    branch: Branch,
    out: &mut Writer,
) -> Result<(), AllocError>
    requires named { S.names view.now.store.now key.place at.old.items }
    requires chained { IsChained (S.tree view.now.store.now).now }
    requires some { is_some (content (tag_of branch key.key.now) (here at.old.items (S.tree view.now.store.now))) ≡ true }
    ensures written { OnOk result (Gains out.old out.new
        (json_tokens (child_json view.now.names.now (goes_by view.now.replica.now.history.now) at.old.items
        (tag_of branch key.entry.key.now) (here at.old.items (S.tree view.now.store.now))))) }
    ensures path { OnOk result (at.new.items ≡ at.old.items) }
{
    let Some(child) = child_at(view.store, key, branch) else {
        unreachable!();
    };
    let depth = at.len();
    at.push(branch.tagged(key.key.copy()?))?;
    match branch {
        Branch::Map => write_map(view, child, at, out)?,
        Branch::List => write_list(view, child, at, out)?,
    }
    at.truncate(depth);
    Ok(())
}

/// Writes the map or the list under a key as a member, if it is shown.
#[cycle(walk)]
fn write_part<S: TreeStore>(
    view: &View<'_, S>,
    at: &mut Vec<Tagged>,
    key: KeyAt<'_>,
    branch: Branch,
    shown: bool,
    out: &mut Writer,
) -> Result<(), AllocError>
    requires named { S.names view.now.store.now key.place at.old.items }
    requires chained { IsChained (S.tree view.now.store.now).now }
    requires some { shown ≡ true
        → is_some (content (tag_of branch key.key.now) (here at.old.items (S.tree view.now.store.now))) ≡ true }
    ensures written { OnOk result (Gains out.old out.new (part_tokens (name_of branch) shown
        (child_json view.now.names.now (goes_by view.now.replica.now.history.now) at.old.items
        (tag_of branch key.entry.key.now) (here at.old.items (S.tree view.now.store.now))))) }
    ensures path { OnOk result (at.new.items ≡ at.old.items) }
{
    if shown {
        out.key(branch.name())?;
        write_child(view, at, key, branch, out)?;
    }
    Ok(())
}

/// Writes a conflict: all alternatives at a key, which are the list and the map, where they are shown, and the values.
#[cycle(walk)]
fn write_every<S: TreeStore>(
    view: &View<'_, S>,
    at: &mut Vec<Tagged>,
    key: KeyAt<'_>,
    map: bool,
    list: bool,
    out: &mut Writer,
) -> Result<(), AllocError>
    requires named { S.names view.now.store.now key.place at.old.items }
    requires chained { IsChained (S.tree view.now.store.now).now }
    requires map { map ≡ true
        → is_some (content (MapT key.key.now) (here at.old.items (S.tree view.now.store.now))) ≡ true }
    requires list { list ≡ true
        → is_some (content (ListT key.key.now) (here at.old.items (S.tree view.now.store.now))) ≡ true }
    ensures written { OnOk result (Gains out.old out.new (json_tokens (object (member (codes "!conflict")
        (parts_json view.now.names.now
        (or_no_value (find key_cmp key.entry.key.now (registers (here at.old.items (S.tree view.now.store.now)))))
        (if_so map (child_json view.now.names.now (goes_by view.now.replica.now.history.now) at.old.items
        (MapT key.entry.key.now) (here at.old.items (S.tree view.now.store.now))))
        (if_so list (child_json view.now.names.now (goes_by view.now.replica.now.history.now) at.old.items
        (ListT key.entry.key.now) (here at.old.items (S.tree view.now.store.now)))))
        no_members)))) }
    ensures path { OnOk result (at.new.items ≡ at.old.items) }
{
    out.begin_object()?;
    out.key("!conflict")?;
    out.begin_object()?;
    write_part(view, at, key, Branch::List, list, out)?;
    write_part(view, at, key, Branch::Map, map, out)?;
    write_values(view.alloc, view.names, values_at(view.store, key), out)?;
    out.end_object()?;
    out.end_object()
}

/// Writes what is shown at a key of the context at a path.
#[cycle(walk)]
pub(crate) fn write_place<S: TreeStore>(
    view: &View<'_, S>,
    at: &mut Vec<Tagged>,
    key: KeyAt<'_>,
    out: &mut Writer,
) -> Result<(), AllocError>
    requires named { S.names view.now.store.now key.place at.old.items }
    requires chained { IsChained (S.tree view.now.store.now).now }
    ensures written { OnOk result (Gains out.old out.new
        (json_tokens (parts_shown_at view.now.names.now (goes_by view.now.replica.now.history.now) at.old.items
        (here at.old.items (S.tree view.now.store.now)) key.entry.key.now))) }
    ensures path { OnOk result (at.new.items ≡ at.old.items) }
{
    let (map, list) = parts_at(view, at.as_slice(), key)?;
    let values = values_at(view.store, key);
    match choose_form(values, map, list) {
        Form::Value => write_first(values, out),
        Form::Child(branch) => write_child(view, at, key, branch, out),
        Form::Every => write_every(view, at, key, map, list, out),
    }
}

/// Writes a member of a map, if the key is a name that is present.
#[cycle(walk)]
fn write_member<S: TreeStore>(
    view: &View<'_, S>,
    at: &mut Vec<Tagged>,
    key: KeyAt<'_>,
    out: &mut Writer,
) -> Result<(), AllocError>
    requires named { S.names view.now.store.now key.place at.old.items }
    requires chained { IsChained (S.tree view.now.store.now).now }
    ensures written { OnOk result (Gains out.old out.new
        (member_shown (parts_shown_at view.now.names.now (goes_by view.now.replica.now.history.now) at.old.items
        (here at.old.items (S.tree view.now.store.now))) key.entry.key.now
        (here at.old.items (S.tree view.now.store.now)))) }
    ensures path { OnOk result (at.new.items ≡ at.old.items) }
{
    if let Key::Name(name) = key.key {
        if is_present(view.store, key) {
            write_name(view.alloc, name.as_str(), out)?;
            write_place(view, at, key, out)?;
        }
    }
    Ok(())
}

/// Writes an element of a list, if it is present.
#[cycle(walk)]
fn write_item<S: TreeStore>(
    view: &View<'_, S>,
    at: &mut Vec<Tagged>,
    key: KeyAt<'_>,
    out: &mut Writer,
) -> Result<(), AllocError>
    requires named { S.names view.now.store.now key.place at.old.items }
    requires chained { IsChained (S.tree view.now.store.now).now }
    ensures written { OnOk result (Gains out.old out.new
        (item_of (parts_shown_at view.now.names.now (goes_by view.now.replica.now.history.now) at.old.items
        (here at.old.items (S.tree view.now.store.now))) key.entry.key.now
        (here at.old.items (S.tree view.now.store.now)))) }
    ensures path { OnOk result (at.new.items ≡ at.old.items) }
{
    if is_present(view.store, key) {
        write_place(view, at, key, out)?;
    }
    Ok(())
}

/// Writes the context at a path as a map.
#[cycle(walk)]
fn write_map<S: TreeStore>(
    view: &View<'_, S>,
    place: Place,
    at: &mut Vec<Tagged>,
    out: &mut Writer,
) -> Result<(), AllocError>
    requires named { S.names view.now.store.now place at.old.items }
    requires chained { IsChained (S.tree view.now.store.now).now }
    ensures written { OnOk result (Gains out.old out.new
        (json_tokens (map_json view.now.names.now (goes_by view.now.replica.now.history.now) at.old.items
        (here at.old.items (S.tree view.now.store.now))))) }
    ensures path { OnOk result (at.new.items ≡ at.old.items) }
{
    out.begin_object()?;
    let keys = view.store.keys_at(view.alloc, place)?;
    for &(key, hint) in keys.as_slice() {
        write_member(view, at, KeyAt { place, key, hint }, out)?;
    }
    out.end_object()
}

/// Writes the context at a path as a list.
#[cycle(walk)]
fn write_list<S: TreeStore>(
    view: &View<'_, S>,
    place: Place,
    at: &mut Vec<Tagged>,
    out: &mut Writer,
) -> Result<(), AllocError>
    requires named { S.names view.now.store.now place at.old.items }
    requires chained { IsChained (S.tree view.now.store.now).now }
    ensures written { OnOk result (Gains out.old out.new
        (json_tokens (list_json view.now.names.now (goes_by view.now.replica.now.history.now) at.old.items
        (here at.old.items (S.tree view.now.store.now))))) }
    ensures path { OnOk result (at.new.items ≡ at.old.items) }
{
    out.begin_array()?;
    let mut last = Key::Head;
    let mut hint = ANYWHERE;
    while let Some((id, ahead)) = element_after(view.store, place, &last, hint) {
        last = Key::Elem(id);
        hint = ahead;
        let key = &last;
        write_item(view, at, KeyAt { place, key, hint }, out)?;
    }
    out.end_array()
}

/// Writes the document, if there is one, as a member.
fn write_document<S: TreeStore>(view: &View<'_, S>, out: &mut Writer) -> Result<(), AllocError>
    requires { IsChained (S.tree view.now.store.now).now }
    ensures { OnOk result (Gains out.old out.new
        (part_tokens (codes "doc") (is_some (find key_cmp Doc (present (presences (S.tree view.now.store.now).now))))
        (parts_shown_at view.now.names.now (goes_by view.now.replica.now.history.now) []
        (S.tree view.now.store.now).now Doc))) }
{
    let mut at = Vec::new(view.alloc);
    let key = KeyAt {
        place: view.store.root(),
        key: &Key::Doc,
        hint: ANYWHERE,
    };
    if is_present(view.store, key) {
        out.key("doc")?;
        write_place(view, &mut at, key, out)?;
    }
    Ok(())
}

/// The line of a replica with this name, with its line feed: its document as an application sees it. `names` has the
/// name of each replica at its number. Nothing but memory is refused.
pub fn view_line<S: TreeStore>(
    alloc: Global,
    names: &[Text],
    name: &str,
    replica: &Replica<S>,
) -> Result<Vec<u8>, AllocError>
    requires { IsChained replica.now.history.now.tree }
    ensures { IfOk result (λ line. line.items ≡ view_line names.now name.now replica.now.history.now) }
{
    let view = View {
        alloc,
        names,
        replica,
        store: replica.tree(),
    };
    let mut out = Writer::new(Vec::new(alloc));
    out.begin_object()?;
    write_document(&view, &mut out)?;
    out.key("name")?;
    out.string(name)?;
    out.end_object()?;
    let mut line = out.into_inner();
    line.push(b'\n')?;
    Ok(line)
}
