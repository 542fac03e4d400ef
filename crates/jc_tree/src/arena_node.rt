//! The nodes of the fast store: contexts that name their children by number.

ghost use Rattle.std.specs.Prelude.{◌≡◌, ◌<◌, ◌≤◌, ◌+◌, ◌↔◌, ℕ, List, ◌++◌, length, take, slice_get, cond, Some, None, is_some, option_copied, ◌||◌, Contains, IfOk, IfSome, IsTrue, OnOk, OnErr};
ghost use Rattle.std.specs.List.{AllByRecursion};
ghost use Rattle.jc_rules.specs.Order.{key_cmp};
ghost use Rattle.jc_rules.specs.Entries.{IsRising, find, keys_of};
ghost use Rattle.jc_rules.specs.Paths.{HasContext};
ghost use Rattle.jc_tree.specs.Tree.{or_no_entries, least_after, has_ids, count_present, keys_lent};
ghost use Rattle.jc_tree.specs.Numbered.{IsNumbered, at_number, column_entries};
ghost use Rattle.jc_tree.specs.Blocks.{AreFit, AreNumbered, DifferAt, IsNumberIn};
ghost use Rattle.jc_tree.specs.Stretches.{LeadsOverEntries};
ghost use Rattle.jc_rules.specs.declared.key.Key.{Key as AnyKey};
ghost use Rattle.jc_rules.specs.declared.key.Key.TheVariants.{Elem};
ghost use Rattle.jc_rules.specs.declared.key.Next.{Next as AnyNext};
ghost use Rattle.jc_rules.specs.declared.key.Next.TheVariants.{Elem as To};
ghost use Rattle.jc_tree.specs.Tables.{AreColumnsWithin, IsBare, IsTrimmed, flat_of};
ghost use Rattle.jc_tree.specs.Arena.{blank, new_flat, flat_keys, child_number, with_child_number, IsInside, changed_flat, former_of_flat, restored_flat};

use crate::blocks::{Blocks, MOST, lesser_id};
use crate::columns::{cut, value_at};
use crate::ids::Ids;
use crate::keys::KeyTable;
use crate::lists::Pairs;
use crate::node::{Change, Former};
use crate::presences::{Presences, is_inhabited};
use crate::store::{Hint, Step, Stretch};
use crate::tables::{
    add_in, key_above_in, put_in, put_set_in, put_value_in, restore_in, restore_set_in,
    restore_value_in, take_out_in, value_in, value_near,
};
use jc_rules::{Id, Key, Next, Tagged, Value};
use std::alloc::{AllocError, Global};
use std::marker::Model;

/// The number of a node in an arena's list.
#[derive(Clone, Copy)]
pub struct NodeId {
    number: usize,
}

impl Model for NodeId {
    ghost Value = { ℕ };

    ghost view = { λ i. i.number };

    ghost inverse = { λ n. record { number = n } };
}

impl NodeId {
    pub fn new(number: usize) -> Self
        ensures { result ≡ number }
    {
        NodeId { number }
    }

    pub fn number(self) -> usize
        ensures { result ≡ self }
    {
        self.number
    }
}

/// What follows a key, and where to look first for the key that follows: any number will do. The parts of
/// the identifier that follows are fields of their own, so that the hint fits between them.
#[derive(Drop)]
pub struct Link {
    counter: u64,
    hint: u32,
    replica: u16,
    is_tail: bool,
}

impl Model for Link {
    ghost use Rattle.std.specs.Prelude.{cond};
    ghost use Rattle.jc_rules.specs.declared.key.Next.{Next as AnyNext};
    ghost use Rattle.jc_rules.specs.declared.key.Next.TheVariants.{Tail, Elem};

    ghost Value = { AnyNext };

    ghost view = { λ a. cond a.is_tail Tail (Elem (record { counter = a.counter; replica = a.replica })) };
}

impl Link {
    fn new(next: Next, hint: u32) -> Self
        ensures { result ≡ next }
    {
        match next {
            Next::Tail => Link {
                counter: 0,
                hint,
                replica: 0,
                is_tail: true,
            },
            Next::Elem(id) => Link {
                counter: id.counter,
                hint,
                replica: id.replica,
                is_tail: false,
            },
        }
    }

    /// What follows.
    fn next(&self) -> Next
        ensures { result ≡ self.now }
    {
        if self.is_tail {
            return Next::Tail;
        }
        Next::Elem(Id {
            counter: self.counter,
            replica: self.replica,
        })
    }
}

/// A context whose children are named by the numbers of their nodes: its keys, numbered by first use,
/// and for each kind of entry a column, which has at a key's number what the key has.
#[derive(Drop)]
pub struct ArenaNode {
    keys: KeyTable,
    maps: Vec<Option<NodeId>>,
    lists: Vec<Option<NodeId>>,
    registers: Vec<Option<Pairs>>,
    presences: Presences,
    links: Vec<Option<Link>>,
    present: usize,
    blocks: Blocks,
}

impl Model for ArenaNode {
    ghost use Rattle.jc_tree.specs.Arena.{Flat};
    ghost use Rattle.jc_tree.specs.Tables.{IsNodeOf, flat_of};

    ghost Value = { Flat };

    ghost view = { λ a. flat_of a.keys a.maps.items a.lists.items a.registers.items a.presences a.links.items };

    ghost invariant = { λ a. IsNodeOf a.keys a.maps.items a.lists.items a.registers.items a.presences
        a.links.items a.present a.blocks };
}

/// How many of at most `most` sets have an identifier after one set changed. `count` had one before;
/// `was` and `is` are whether the changed set had one before and has one now.
fn recounted(most: usize, count: usize, was: bool, is: bool) -> usize
    requires within { count + cond is 1 0 ≤ most + cond was 1 0 }
    requires counted { cond was 1 0 ≤ count + cond is 1 0 }
    ensures { result + cond was 1 0 ≡ count + cond is 1 0 }
{
    match (was, is) {
        (true, false) => count - 1,
        (false, true) => count + 1,
        _ => count,
    }
}

/// Where to look first for the key that follows.
fn hint_of(keys: &KeyTable, next: Next) -> u32 {
    match next {
        Next::Elem(id) => {
            let number = keys.number(&Key::Elem(id)).unwrap_or(0);
            u32::try_from(number).unwrap_or(0)
        }
        Next::Tail => 0,
    }
}

/// What follows a key, by its link.
fn next_of(link: Option<&Link>) -> Option<Next>
    ensures { result ≡ option_copied link.entry }
{
    Some(link?.next())
}

/// The link's hint, or else the given one.
fn hint_after(link: Option<&Link>, hint: Hint) -> Hint {
    match link {
        Some(link) => Hint {
            number: link.hint as usize,
        },
        None => hint,
    }
}

/// The element that follows, if one does.
fn element_of(next: Option<Next>) -> Option<Id>
    ensures { IfSome result (λ id. next ≡ Some (To id)) }
{
    match next {
        Some(Next::Elem(id)) => Some(id),
        _ => None,
    }
}

/// The bit of an element, by whether it is present.
fn bit_of(is_present: bool) -> u64
    ensures { result ≡ cond is_present 1 0 }
{
    if is_present { 1 } else { 0 }
}

/// Whether there is a map, a list or a register at the number.
fn has_tag(
    maps: &[Option<NodeId>],
    lists: &[Option<NodeId>],
    registers: &[Option<Pairs>],
    number: usize,
) -> bool
    ensures { result ≡ (is_some (at_number maps.now number) || is_some (at_number lists.now number)
        || is_some (at_number registers.now number)) }
{
    value_at(maps, number).is_some()
        || value_at(lists, number).is_some()
        || value_at(registers, number).is_some()
}

/// Whether nothing stands at the number in any column.
fn is_bare(
    maps: &[Option<NodeId>],
    lists: &[Option<NodeId>],
    registers: &[Option<Pairs>],
    presences: &[Option<Ids>],
    links: &[Option<Link>],
    number: usize,
) -> bool
    ensures { IsTrue result ↔ IsBare number maps.now lists.now registers.now presences.now links.now }
{
    !has_tag(maps, lists, registers, number)
        && value_at(presences, number).is_none()
        && value_at(links, number).is_none()
}

/// The number of the key, where it has one and there are blocks.
fn number_in(blocks: &Blocks, keys: &KeyTable, key: &Key) -> Option<usize>
    ensures number { IsNumberIn result key.now keys.now.keys blocks.now }
    ensures distinct { AreNumbered keys.now.keys }
    ensures numbered { IsNumbered keys.now }
{
    keys.are_numbered();
    if blocks.is_empty() {
        return None;
    }
    keys.number(key)
}

/// Appends the element that follows the block's last one to the block, if it is in none. Returns whether it
/// was appended.
fn grow_once(
    blocks: &mut Blocks,
    block: usize,
    keys: &KeyTable,
    links: &[Option<Link>],
    presences: &Presences,
) -> bool
    requires { length links.now ≤ length keys.now.keys }
    ensures { AreFit keys.now.keys (column_entries links.now keys.now) (column_entries presences.now keys.now) blocks.old
        → AreFit keys.now.keys (column_entries links.now keys.now) (column_entries presences.now keys.now) blocks.new }
{
    let Some(last) = blocks.last(block) else {
        return false;
    };
    let Some(link) = value_at(links, last) else {
        return false;
    };
    let Next::Elem(id) = link.next() else {
        return false;
    };
    let Some(number) = keys.number_near(&Key::Elem(id), link.hint as usize) else {
        return false;
    };
    blocks.add(block, number, id, presences.is_inhabited(number))
}

/// Appends the elements that follow the block's last one, as far as they are in no block.
fn grow(
    blocks: &mut Blocks,
    block: usize,
    keys: &KeyTable,
    links: &[Option<Link>],
    presences: &Presences,
)
    requires { length links.now ≤ length keys.now.keys }
    ensures { AreFit keys.now.keys (column_entries links.now keys.now) (column_entries presences.now keys.now) blocks.old
        → AreFit keys.now.keys (column_entries links.now keys.now) (column_entries presences.now keys.now) blocks.new }
{
    for step in 0..MOST {
        if !grow_once(blocks, block, keys, links, presences) {
            return;
        }
    }
}

/// Splits the number's block, if it is full, so that it has room for an element behind the number.
fn split(
    blocks: &mut Blocks,
    number: Option<usize>,
    keys: &KeyTable,
    links: &[Option<Link>],
    presences: &Presences,
)
    requires { length links.now ≤ length keys.now.keys }
    ensures fit { AreFit keys.now.keys (column_entries links.now keys.now) (column_entries presences.now keys.now) blocks.old
        → AreFit keys.now.keys (column_entries links.now keys.now) (column_entries presences.now keys.now) blocks.new }
    ensures none { number ≡ None → blocks.new ≡ blocks.old }
{
    let Some(number) = number else {
        return;
    };
    let Some(block) = blocks.split(number) else {
        return;
    };
    grow(blocks, block, keys, links, presences);
}

/// Mends the blocks where what follows the number's key changed: what was behind the number is cut off its
/// block, and what follows now is appended.
fn relink(
    blocks: &mut Blocks,
    number: Option<usize>,
    keys: &KeyTable,
    links: &[Option<Link>],
    presences: &Presences,
)
    requires { length links.now ≤ length keys.now.keys }
    ensures some { IfSome number (λ n. (key : AnyKey) (old : List (AnyKey × AnyNext))
        → AreNumbered keys.now.keys → slice_get keys.now.keys n ≡ Some key
        → DifferAt key old (column_entries links.now keys.now)
        → AreFit keys.now.keys old (column_entries presences.now keys.now) blocks.old
        → AreFit keys.now.keys (column_entries links.now keys.now) (column_entries presences.now keys.now) blocks.new) }
    ensures none { number ≡ None → blocks.new ≡ blocks.old }
{
    let Some(number) = number else {
        return;
    };
    blocks.cut_after(number);
    let Some(block) = blocks.block_of(number) else {
        return;
    };
    grow(blocks, block, keys, links, presences);
}

/// Takes the last keys away under which nothing stands, and cuts the columns to their number.
fn trim(
    keys: &mut KeyTable,
    maps: &mut Vec<Option<NodeId>>,
    lists: &mut Vec<Option<NodeId>>,
    registers: &mut Vec<Option<Pairs>>,
    presences: &mut Presences,
    links: &mut Vec<Option<Link>>,
)
    requires { AreColumnsWithin keys.old maps.old.items lists.old.items registers.old.items presences.old
        links.old.items }
    ensures within { AreColumnsWithin keys.new maps.new.items lists.new.items registers.new.items presences.new
        links.new.items }
    ensures seen { flat_of keys.new maps.new.items lists.new.items registers.new.items presences.new
        links.new.items
        ≡ flat_of keys.old maps.old.items lists.old.items registers.old.items presences.old links.old.items }
    ensures trimmed { IsTrimmed keys.new maps.new.items lists.new.items registers.new.items presences.new
        links.new.items }
    ensures keys { keys.new.keys ≡ take (length keys.new.keys) keys.old.keys }
{
    while let Some(last) = keys.len().checked_sub(1) {
        if !is_bare(
            maps.as_slice(),
            lists.as_slice(),
            registers.as_slice(),
            presences.as_slice(),
            links.as_slice(),
            last,
        ) {
            return;
        }
        keys.pop();
        cut(maps, last);
        cut(lists, last);
        cut(registers, last);
        presences.cut(last);
        cut(links, last);
    }
}

impl ArenaNode {
    /// The node of a new map.
    pub fn new(alloc: Global) -> Self
        ensures { result ≡ blank }
    {
        ArenaNode {
            keys: KeyTable::new(alloc),
            maps: Vec::new(alloc),
            lists: Vec::new(alloc),
            registers: Vec::new(alloc),
            presences: Presences::new(alloc),
            links: Vec::new(alloc),
            present: 0,
            blocks: Blocks::new(alloc),
        }
    }

    /// The node of a new map or list.
    pub fn of_child(alloc: Global, key: &Tagged) -> Result<Self, AllocError>
        requires { HasContext key.now }
        ensures { IfOk result (λ node. node ≡ new_flat key.now) }
    {
        let mut node = ArenaNode::new(alloc);
        if let Tagged::ListT(_) = key {
            node.put_link(Key::Head, Next::Tail)?;
        }
        Ok(node)
    }

    /// The number of the child under the tagged key.
    pub fn child(&self, key: &Tagged) -> Option<NodeId>
        ensures { result ≡ child_number key.now self.now }
    {
        match key {
            Tagged::MapT(key) => value_in(&self.keys, self.maps.as_slice(), key).copied(),
            Tagged::ListT(key) => value_in(&self.keys, self.lists.as_slice(), key).copied(),
            Tagged::RegT(_) => None,
        }
    }

    /// All keys in their order, each with a hint for it. Nothing may stand under some of them.
    pub fn keys_in_order(&self, alloc: Global) -> Result<Vec<(&Key, Hint)>, AllocError>
        ensures rising { IfOk result (λ lent. IsRising key_cmp (keys_lent lent.items)) }
        ensures all { IfOk result (λ lent. AllByRecursion (Contains (keys_lent lent.items)) (flat_keys self.now)) }
    {
        self.keys.in_order(alloc)
    }

    /// The number of the map under the key; `hint` is where to look first.
    pub fn map_near(&self, key: &Key, hint: Hint) -> Option<NodeId>
        ensures { result ≡ find key_cmp key.now self.now.maps }
    {
        value_near(&self.keys, self.maps.as_slice(), key, hint).copied()
    }

    /// The number of the list under the key; `hint` is where to look first.
    pub fn list_near(&self, key: &Key, hint: Hint) -> Option<NodeId>
        ensures { result ≡ find key_cmp key.now self.now.lists }
    {
        value_near(&self.keys, self.lists.as_slice(), key, hint).copied()
    }

    /// The values of the key's register; `hint` is where to look first.
    pub fn register_near(&self, key: &Key, hint: Hint) -> Option<&[(Id, Value)]>
        ensures { option_copied result ≡ find key_cmp key.now self.now.registers }
    {
        Some(value_near(&self.keys, self.registers.as_slice(), key, hint)?.as_slice())
    }

    /// The presence set of the key; `hint` is where to look first.
    pub fn presence_near(&self, key: &Key, hint: Hint) -> Option<&[Id]>
        ensures { option_copied result ≡ find key_cmp key.now self.now.presences }
    {
        Some(value_near(&self.keys, self.presences.as_slice(), key, hint)?.as_slice())
    }

    /// What a walk along a list reads of the key; `hint` is where to look first.
    #[inline(always)]
    pub fn step(&self, key: &Key, hint: Hint) -> Step
        ensures next { result.next ≡ find key_cmp key.now self.now.links }
        ensures present { result.present ≡ has_ids (or_no_entries (find key_cmp key.now self.now.presences)) }
    {
        let Some(number) = self.keys.number_near(key, hint.number) else {
            return Step {
                next: None,
                present: false,
                hint,
            };
        };
        let present = self.presences.is_inhabited(number);
        let link = value_at(self.links.as_slice(), number);
        let next = next_of(link);
        let hint = hint_after(link, hint);
        Step {
            next,
            present,
            hint,
        }
    }

    /// What lies behind the key, so many elements at most, as far as its block tells; `hint` is where to look
    /// first.
    fn stretch_in_block(&self, key: &Key, hint: Hint, most: usize) -> Option<Stretch>
        ensures over { IfSome result (λ s.
            LeadsOverEntries self.now.links self.now.presences key.now s.count s.bits s.least (Elem s.last)) }
        ensures some { IfSome result (λ s. 0 < s.count) }
        ensures most { IfSome result (λ s. s.count ≤ most) }
    {
        let number = self.keys.number_near(key, hint.number)?;
        let told = self.blocks.tell(number, most)?;
        let last = self.keys.element(told.last)?;
        Some(Stretch {
            count: told.count,
            bits: told.bits,
            least: told.least,
            last,
            hint: Hint { number: told.last },
        })
    }

    /// The element that follows the key, and what lies behind that as far as its block tells, so many elements
    /// at most; `hint` is where to look first.
    fn stretch_of_next(&self, key: &Key, hint: Hint, most: usize) -> Option<Stretch>
        ensures over { IfSome result (λ s.
            LeadsOverEntries self.now.links self.now.presences key.now s.count s.bits s.least (Elem s.last)) }
        ensures some { IfSome result (λ s. 0 < s.count) }
        ensures most { IfSome result (λ s. s.count ≤ most) }
    {
        let most = most.checked_sub(1)?;
        let step = self.step(key, hint);
        let id = element_of(step.next)?;
        let first = Key::Elem(id);
        let bit = bit_of(self.step(&first, step.hint).present);
        let behind = self.stretch_in_block(&first, step.hint, most)?;
        Some(Stretch {
            count: behind.count + 1,
            bits: behind.bits.checked_mul(2)?.checked_add(bit)?,
            least: lesser_id(behind.least, id),
            last: behind.last,
            hint: behind.hint,
        })
    }

    /// What lies behind the key, so many elements at most, as far as its block tells, or else the block of the
    /// element that follows; `hint` is where to look first.
    pub fn stretch(&self, key: &Key, hint: Hint, most: usize) -> Option<Stretch>
        ensures over { IfSome result (λ s.
            LeadsOverEntries self.now.links self.now.presences key.now s.count s.bits s.least (Elem s.last)) }
        ensures some { IfSome result (λ s. 0 < s.count) }
        ensures most { IfSome result (λ s. s.count ≤ most) }
    {
        match self.stretch_in_block(key, hint, most) {
            Some(stretch) => Some(stretch),
            None => self.stretch_of_next(key, hint, most),
        }
    }

    /// The least key with a tag, above the given one.
    pub fn key_after(&self, after: Option<&Key>) -> Option<&Key>
        ensures { option_copied result ≡ least_after (option_copied after.entry)
            (keys_of self.now.maps ++ keys_of self.now.lists ++ keys_of self.now.registers) }
    {
        let mut last = after;
        while let Some((key, number)) = self.keys.above(last) {
            if has_tag(
                self.maps.as_slice(),
                self.lists.as_slice(),
                self.registers.as_slice(),
                number,
            ) {
                return Some(key);
            }
            last = Some(key);
        }
        None
    }

    /// The least key with a presence set, above the given one.
    pub fn presence_after(&self, after: Option<&Key>) -> Option<&Key>
        ensures { option_copied result ≡ least_after (option_copied after.entry) (keys_of self.now.presences) }
    {
        key_above_in(&self.keys, self.presences.as_slice(), after)
    }

    /// How many keys have a presence set with an identifier.
    pub fn count_present(&self) -> usize
        ensures { result ≡ count_present self.now.presences }
    {
        self.present
    }

    /// The least key that something follows, above the given one.
    pub fn link_after(&self, after: Option<&Key>) -> Option<&Key>
        ensures { option_copied result ≡ least_after (option_copied after.entry) (keys_of self.now.links) }
    {
        key_above_in(&self.keys, self.links.as_slice(), after)
    }

    /// Names a child under the tagged key. After a refusal the node is as it was.
    pub fn name_child(&mut self, key: Tagged, number: NodeId) -> Result<(), AllocError>
        requires { HasContext key }
        ensures ok { OnOk result (self.new ≡ with_child_number key number self.old) }
        ensures err { OnErr result (self.new ≡ self.old) }
    {
        match key {
            Tagged::MapT(key) => {
                put_in(&mut self.keys, &mut self.maps, &key, number)?;
                Ok(())
            }
            Tagged::ListT(key) => {
                put_in(&mut self.keys, &mut self.lists, &key, number)?;
                Ok(())
            }
            Tagged::RegT(_) => unreachable!(),
        }
    }

    /// Sets the key's register. Returns the undo record. After a refusal the node is as it was.
    fn put_register(&mut self, key: Key, pairs: Pairs) -> Result<Former, AllocError>
        ensures ok { OnOk result (self.new ≡ changed_flat (Change.Register key pairs) self.old) }
        ensures former { IfOk result (λ former. former ≡ former_of_flat (Change.Register key pairs) self.old) }
        ensures err { OnErr result (self.new ≡ self.old) }
    {
        let former = put_in(&mut self.keys, &mut self.registers, &key, pairs)?;
        Ok(Former::Register(key, former))
    }

    /// Sets the key's presence set. Returns the undo record. After a refusal the node is as it was.
    fn put_presence(&mut self, key: Key, ids: Ids) -> Result<Former, AllocError>
        ensures ok { OnOk result (self.new ≡ changed_flat (Change.Presence key ids) self.old) }
        ensures former { IfOk result (λ former. former ≡ former_of_flat (Change.Presence key ids) self.old) }
        ensures err { OnErr result (self.new ≡ self.old) }
    {
        let is = !ids.is_empty();
        let number = number_in(&self.blocks, &self.keys, &key);
        let former = put_set_in(&mut self.keys, &mut self.presences, &key, ids)?;
        let was = is_inhabited(former.as_ref());
        self.present = recounted(self.keys.count(), self.present, was, is);
        self.blocks.mark(number, is);
        Ok(Former::Presence(key, former))
    }

    /// Sets what follows the key. Returns the undo record. After a refusal the node is as it was.
    fn put_link(&mut self, key: Key, next: Next) -> Result<Former, AllocError>
        ensures ok { OnOk result (self.new ≡ changed_flat (Change.Link key next) self.old) }
        ensures former { IfOk result (λ former. former ≡ former_of_flat (Change.Link key next) self.old) }
        ensures err { OnErr result (self.new ≡ self.old) }
    {
        self.blocks.make_room(self.keys.len())?;
        let number = number_in(&self.blocks, &self.keys, &key);
        split(
            &mut self.blocks,
            number,
            &self.keys,
            self.links.as_slice(),
            &self.presences,
        );
        let hint = hint_of(&self.keys, next);
        let former = put_in(&mut self.keys, &mut self.links, &key, Link::new(next, hint))?;
        relink(
            &mut self.blocks,
            number,
            &self.keys,
            self.links.as_slice(),
            &self.presences,
        );
        let former = match former {
            Some(link) => Some(link.next()),
            None => None,
        };
        Ok(Former::Link(key, former))
    }

    /// Adds the identifier to the key's presence set, a new one where there is none. Returns the undo
    /// record. After a refusal the node is as it was.
    fn add_id(&mut self, key: Key, id: Id, alloc: Global) -> Result<Former, AllocError>
        ensures ok { OnOk result (self.new ≡ changed_flat (Change.AddId key id) self.old) }
        ensures former { IfOk result (λ former. former ≡ former_of_flat (Change.AddId key id) self.old) }
        ensures err { OnErr result (self.new ≡ self.old) }
    {
        let number = number_in(&self.blocks, &self.keys, &key);
        let (former, was) = add_in(&mut self.keys, &mut self.presences, key, id, alloc)?;
        self.present = recounted(self.keys.count(), self.present, was, true);
        self.blocks.mark(number, true);
        Ok(former)
    }

    /// Makes a change that makes no node. Returns the undo record. After a refusal the node is as it
    /// was.
    pub fn change(&mut self, change: Change, alloc: Global) -> Result<Former, AllocError>
        requires { IsInside change }
        ensures ok { OnOk result (self.new ≡ changed_flat change self.old) }
        ensures former { IfOk result (λ former. former ≡ former_of_flat change self.old) }
        ensures err { OnErr result (self.new ≡ self.old) }
    {
        match change {
            Change::Child(Tagged::RegT(key)) => {
                self.put_register(key, Pairs::new(Vec::new(alloc)))
            }
            Change::Child(Tagged::MapT(_) | Tagged::ListT(_)) => unreachable!(),
            Change::AddId(key, id) => self.add_id(key, id, alloc),
            Change::Presence(key, ids) => self.put_presence(key, ids),
            Change::Link(key, next) => self.put_link(key, next),
            Change::PutValue(key, id, value) => {
                put_value_in(&mut self.keys, &mut self.registers, key, id, value, alloc)
            }
            Change::Register(key, pairs) => self.put_register(key, pairs),
        }
    }

    /// Gives the key the presence set that it had, or takes its own away where it had none.
    fn restore_presence(&mut self, key: &Key, former: Option<Ids>)
        ensures { self.new ≡ restored_flat (Former.Presence key.now former) self.old }
    {
        let is = is_inhabited(former.as_ref());
        let number = number_in(&self.blocks, &self.keys, key);
        if let Some(ids) = restore_set_in(&self.keys, &mut self.presences, key, former) {
            self.present = recounted(self.keys.count(), self.present, !ids.is_empty(), is);
            self.blocks.mark(number, is);
        }
    }

    /// Gives what follows the key back, or takes its own away where nothing followed it.
    fn restore_link(&mut self, key: &Key, former: Option<Next>)
        ensures { self.new ≡ restored_flat (Former.Link key.now former) self.old }
    {
        let link = match former {
            Some(next) => Some(Link::new(next, hint_of(&self.keys, next))),
            None => None,
        };
        drop(restore_in(&self.keys, &mut self.links, key, link));
        let number = number_in(&self.blocks, &self.keys, key);
        relink(
            &mut self.blocks,
            number,
            &self.keys,
            self.links.as_slice(),
            &self.presences,
        );
    }

    /// Takes the identifier out of the key's presence set, where there is one.
    fn take_out_id(&mut self, key: Key, id: Id)
        ensures { self.new ≡ restored_flat (Former.NoId key id) self.old }
    {
        let number = number_in(&self.blocks, &self.keys, &key);
        let last = take_out_in(&self.keys, &mut self.presences, &key, id);
        self.present = recounted(self.keys.count(), self.present, last, false);
        if last {
            self.blocks.mark(number, false);
        }
    }

    /// Takes a change back by its undo record. Keys keep their numbers.
    fn put_back(&mut self, former: Former)
        ensures { self.new ≡ restored_flat former self.old }
    {
        match former {
            Former::Map(key) => drop(restore_in(&self.keys, &mut self.maps, &key, None)),
            Former::List(key) => drop(restore_in(&self.keys, &mut self.lists, &key, None)),
            Former::Register(key, pairs) => {
                drop(restore_in(&self.keys, &mut self.registers, &key, pairs))
            }
            Former::Value(key, id, value) => {
                restore_value_in(&self.keys, &mut self.registers, &key, id, value)
            }
            Former::Presence(key, ids) => self.restore_presence(&key, ids),
            Former::Link(key, next) => self.restore_link(&key, next),
            Former::NoId(key, id) => self.take_out_id(key, id),
            Former::Same => {}
        }
    }

    /// Takes a change back by its undo record, and the last keys away under which nothing stands. It takes
    /// no memory.
    pub fn restore(&mut self, former: Former)
        ensures { self.new ≡ restored_flat former self.old }
    {
        self.put_back(former);
        let count = self.keys.len();
        trim(
            &mut self.keys,
            &mut self.maps,
            &mut self.lists,
            &mut self.registers,
            &mut self.presences,
            &mut self.links,
        );
        self.blocks.forget_all(self.keys.len(), count);
    }
}
