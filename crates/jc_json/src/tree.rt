//! The tree of a document as JSON: a store is sent as it is walked.

ghost use Rattle.std.specs.Prelude.{◌≡◌, ℕ, List, [], ◌∷◌, ◌++◌, string_bytes, option_map, IfSome, IfOk, OnOk};
ghost use Rattle.serde_json.specs.Events.{SendsValue};
ghost use Rattle.jc_rules.specs.declared.key.Tagged.{Tagged as AnyTagged};
ghost use Rattle.jc_rules.specs.Order.{key_cmp};
ghost use Rattle.jc_rules.specs.Entries.{find};
ghost use Rattle.jc_tree.specs.Tree.{here, keys_lent};
ghost use Rattle.jc_json.specs.Json.{context_data};
ghost use Rattle.jc_json.specs.Parts.{word_of, shown_in, tag_of, by_place, part_data, IsPartAt, name_of, with_last, AreJoined, AreTextsFrom, AreInOrder, AreTextsOf, AreMembersOfKind, AreMembersOf};

use crate::send::{granted, send_ids, send_register};
use crate::texts::{next_text, push_closed};
use jc_rules::{Id, Key, Next, Text, Value};
use jc_tree::{Hint, KeyAt, Place, TreeStore};
use serde::{Described, Serialize, Serializer};
use std::alloc::{AllocError, Global};

/// The kinds of a context's members, in the order of their words.
#[derive(Clone, Copy)]
enum Kind {
    List,
    Map,
    Next,
    Presence,
    Register,
}

impl Kind {
    /// What the names of such members begin with.
    fn word(self) -> &'static str
        ensures { result.now ≡ word_of self }
    {
        match self {
            Kind::List => "listT(",
            Kind::Map => "mapT(",
            Kind::Next => "next(",
            Kind::Presence => "pres(",
            Kind::Register => "regT(",
        }
    }
}

/// What a member of a context's object shows. A child has the store's name for its place.
#[derive(Clone, Copy)]
enum Part<'a> {
    Child(Place),
    Register(&'a [(Id, Value)]),
    Presence(&'a [Id]),
    Link(Next),
}

/// A member of a context's object: its name is the word of its kind, and then the text.
#[derive(Clone, Copy)]
struct Member<'a> {
    kind: Kind,
    text: &'a str,
    part: Part<'a>,
}

impl Member<'_> {
    /// Writes the name over what is there.
    fn write_name(&self, name: &mut String) -> Result<(), AllocError>
        ensures { OnOk result (string_bytes name.new ≡ name_of self.now) }
    {
        name.clear();
        name.push_str(self.kind.word())?;
        name.push_str(self.text)
    }
}

/// The keys of a context, each with its text and its number in the order of the keys.
type Texts<'a> = Vec<((&'a str, usize), (&'a Key, Hint))>;

/// Writes the texts of keys over what is there, one behind the other, and returns how long each is.
fn write_texts(
    all: &mut String,
    alloc: Global,
    names: &[Text],
    keys: &[(&Key, Hint)],
) -> Result<Vec<usize>, AllocError>
    ensures { IfOk result (λ lens. AreJoined names.now (keys_lent keys.now) (string_bytes all.new) lens.items) }
{
    all.clear();
    let mut lens = Vec::with_capacity(alloc, keys.len())?;
    for lent in keys {
        let before = all.len();
        push_closed(all, alloc, names, lent.0)?;
        lens.push(all.len() - before)?;
    }
    Ok(lens)
}

/// The keys with their texts, which stand one behind the other, in the order in which they are given.
fn texts_of<'a>(
    alloc: Global,
    all: &'a str,
    lens: &[usize],
    keys: &[(&'a Key, Hint)],
) -> Result<Texts<'a>, AllocError>
    requires { (names : List (List ℕ)) × AreJoined names (keys_lent keys.now) all.now lens.now }
    ensures { IfOk result (λ texts. (names : List (List ℕ)) → AreJoined names (keys_lent keys.now) all.now lens.now
        → AreTextsFrom names (keys_lent keys.now) texts.items) }
{
    let mut texts = Vec::with_capacity(alloc, keys.len())?;
    let mut rest = all;
    for (number, lent) in keys.iter().enumerate() {
        let (text, after) = rest.split_at(lens[number]);
        texts.push(((text, number), *lent))?;
        rest = after;
    }
    Ok(texts)
}

/// The keys of the context at a place in the order of their texts, which are written over what is there. Those with one
/// text are in the order of the keys.
fn texts_at<'a, S: TreeStore>(
    alloc: Global,
    names: &[Text],
    store: &'a S,
    place: Place,
    all: &'a mut String,
) -> Result<Texts<'a>, AllocError>
    requires { (at : List AnyTagged) × S.names store.now place at }
    ensures order { IfOk result (λ texts. AreInOrder texts.items) }
    ensures texts { (at : List AnyTagged) → S.names store.now place at
        → IfOk result (λ texts. AreTextsOf names.now (here at (S.tree store.now)) texts.items) }
{
    let keys = store.keys_at(alloc, place)?;
    let lens = write_texts(all, alloc, names, keys.as_slice())?;
    let mut texts = texts_of(alloc, all.as_str(), lens.as_slice(), keys.as_slice())?;
    texts.sort_by(|one, other| one.0.cmp(&other.0))?;
    Ok(texts)
}

/// The part of one kind at a key, if there is one.
fn part_at<'a, S: TreeStore>(store: &'a S, kind: Kind, key: KeyAt<'_>) -> Option<Part<'a>>
    requires { (at : List AnyTagged) × S.names store.now key.place at }
    ensures shown { (at : List AnyTagged) → S.names store.now key.entry.place at → (names : List (List ℕ))
        → option_map (part_data names (by_place (S.path store.now) (S.tree store.now))) result
        ≡ find key_cmp key.entry.key.now (shown_in names kind (here at (S.tree store.now))) }
    ensures part { (at : List AnyTagged) → S.names store.now key.entry.place at
        → IfSome result (IsPartAt (S.names store.now) (at ++ tag_of kind key.entry.key.now ∷ [])) }
{
    let KeyAt { place, key, hint } = key;
    match kind {
        Kind::List => Some(Part::Child(store.list_by(place, key, hint)?)),
        Kind::Map => Some(Part::Child(store.map_by(place, key, hint)?)),
        Kind::Next => Some(Part::Link(store.step_by(place, key, hint).next?)),
        Kind::Presence => Some(Part::Presence(store.presence_by(place, key, hint)?)),
        Kind::Register => Some(Part::Register(store.register_by(place, key, hint)?)),
    }
}

/// Puts a member last, in place of one of the same text.
fn put_last<'a>(members: &mut Vec<Member<'a>>, member: Member<'a>) -> Result<(), AllocError>
    ensures { OnOk result (members.new.items ≡ with_last member.entry members.old.items) }
{
    if let Some(last) = members.pop() {
        if last.text != member.text {
            members.push(last)?;
        }
    }
    members.push(member)?;
    Ok(())
}

/// The members of one kind of the context at a place, in the order of their names.
fn members_of<'a, S: TreeStore>(
    alloc: Global,
    store: &'a S,
    place: Place,
    kind: Kind,
    texts: &'a Texts<'_>,
) -> Result<Vec<Member<'a>>, AllocError>
    requires named { (at : List AnyTagged) × S.names store.now place at }
    requires order { AreInOrder texts.now.items }
    ensures { (at : List AnyTagged) → S.names store.now place at → IfOk result (λ members.
        AreMembersOfKind (S.names store.now) (by_place (S.path store.now) (S.tree store.now)) at
        (here at (S.tree store.now)) kind texts.now.items members.items) }
{
    let mut members = Vec::new(alloc);
    for (text, lent) in texts.as_slice() {
        let key = KeyAt {
            place,
            key: lent.0,
            hint: lent.1,
        };
        if let Some(part) = part_at(store, kind, key) {
            let text = text.0;
            put_last(&mut members, Member { kind, text, part })?;
        }
    }
    Ok(members)
}

/// The members of the context at a place, in the order of their names.
fn members_at<'a, S: TreeStore>(
    alloc: Global,
    store: &'a S,
    place: Place,
    texts: &'a Texts<'_>,
) -> Result<Vec<Member<'a>>, AllocError>
    requires named { (at : List AnyTagged) × S.names store.now place at }
    requires order { AreInOrder texts.now.items }
    ensures { (at : List AnyTagged) → S.names store.now place at → IfOk result (λ members. (names : List (List ℕ))
        → AreTextsOf names (here at (S.tree store.now)) texts.now.items
        → AreMembersOf (S.names store.now) (by_place (S.path store.now) (S.tree store.now)) at
        names (here at (S.tree store.now)) members.items) }
{
    let mut members = members_of(alloc, store, place, Kind::List, texts)?;
    members.append(&mut members_of(alloc, store, place, Kind::Map, texts)?)?;
    members.append(&mut members_of(alloc, store, place, Kind::Next, texts)?)?;
    members.append(&mut members_of(alloc, store, place, Kind::Presence, texts)?)?;
    members.append(&mut members_of(alloc, store, place, Kind::Register, texts)?)?;
    Ok(members)
}

/// Sends the context at a place of a tree's store.
#[cycle(walk)]
fn send_tree<S: TreeStore, W: Serializer>(
    tree: &Tree<'_, S>,
    place: Place,
    out: &mut W,
) -> Result<(), W::Error>
    requires { (at : List AnyTagged) × S.names tree.now.store.now place at }
    ensures { (at : List AnyTagged) → S.names tree.now.store.now place at → OnOk result
        (SendsValue (context_data tree.now.names.now (here at (S.tree tree.now.store.now)))
        (W.written out.old) (W.written out.new)) }
{
    let mut all = String::new(tree.alloc);
    let texts = granted(
        texts_at(tree.alloc, tree.names, tree.store, place, &mut all),
        out,
    )?;
    let members = granted(members_at(tree.alloc, tree.store, place, &texts), out)?;
    let mut name = String::new(tree.alloc);
    out.begin_map(Some(members.len()))?;
    for member in members.as_slice() {
        granted(member.write_name(&mut name), out)?;
        out.key(name.as_str())?;
        send_part(tree, member.part, out)?;
    }
    out.end_map()
}

/// Sends a part of a context.
#[cycle(walk)]
fn send_part<S: TreeStore, W: Serializer>(
    tree: &Tree<'_, S>,
    part: Part<'_>,
    out: &mut W,
) -> Result<(), W::Error>
    requires { (at : List AnyTagged) × IsPartAt (S.names tree.now.store.now) at part }
    ensures { OnOk result
        (SendsValue (part_data tree.now.names.now (by_place (S.path tree.now.store.now) (S.tree tree.now.store.now)) part.entry)
        (W.written out.old) (W.written out.new)) }
{
    match part {
        Part::Child(place) => send_tree(tree, place, out),
        Part::Register(pairs) => send_register(tree.alloc, tree.names, pairs, out),
        Part::Presence(ids) => send_ids(tree.alloc, tree.names, ids, out),
        Part::Link(next) => {
            let text = granted(next_text(tree.alloc, tree.names, next), out)?;
            out.str(text.as_str())
        }
    }
}

/// The tree of a store, as it is sent.
#[derive(Drop)]
pub struct Tree<'a, S> {
    pub alloc: Global,
    pub names: &'a [Text],
    pub store: &'a S,
}

impl<S: TreeStore> Described for Tree<'_, S> {
    ghost writes = { λ t. SendsValue (context_data t.names.now (S.tree t.store.now).now) };
}

impl<S: TreeStore> Serialize for Tree<'_, S> {
    fn serialize<W: Serializer>(&self, out: &mut W) -> Result<(), W::Error> {
        send_tree(self, self.store.root(), out)
    }
}
