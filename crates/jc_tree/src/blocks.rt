//! Blocks of a list's elements, in list order, by the numbers of their keys: a fast store's walk along a list goes by
//! them. No answer depends on which blocks there are, or on whether there are any.

ghost use Rattle.std.specs.Prelude.{◌≡◌, ◌≢◌, ◌<◌, ◌≤◌, ◌+◌, ◌/◌, ◌^◌, ℕ, List, [], ◌∷◌, ◌++◌, suc, length, take, slice_get, cond, Some, None, IfSome, IsTrue};
ghost use Rattle.std.specs.Int.{bit_at};
ghost use Rattle.jc_rules.specs.declared.id.Id.{Id as AnyId};
ghost use Rattle.jc_rules.specs.declared.key.Key.{Key as AnyKey};
ghost use Rattle.jc_rules.specs.declared.key.Key.TheVariants.{Elem};
ghost use Rattle.jc_rules.specs.declared.key.Next.{Next as AnyNext};
ghost use Rattle.jc_tree.specs.Blocks.{Members, member, AreSpots, IsAtMost, AreFit, AreNumbered, DifferAt, IsNumberIn, IsLastLinked, presence_bit};
ghost use Rattle.jc_tree.specs.Stretches.{LeadsOverEntries};
ghost use Rattle.jc_tree.specs.declared.blocks.Spot.{Spot as AnySpot};

use jc_rules::{Id, compare_ids};
use std::alloc::{AllocError, Global};
use std::marker::Model;

/// How many numbers a block has at most: as many as a word has bits.
pub const MOST: usize = 64;

/// A list with fewer keys has no blocks.
const FEW: usize = 4;

/// Not less than any identifier.
const GREATEST: Id = Id {
    counter: u64::MAX,
    replica: u16::MAX,
};

/// Numbers in list order; a bit for each, whether the element is present; and an identifier that is no greater
/// than theirs, but that of the first.
#[derive(Drop)]
pub struct Block {
    numbers: [usize; 64],
    len: usize,
    bits: u64,
    least: Id,
}

impl Model for Block {
    ghost use Rattle.std.specs.Prelude.{◌≤◌, take};
    ghost use Rattle.jc_tree.specs.Blocks.{Members};

    ghost Value = { Members };

    ghost view = { λ a. record { numbers = take a.len a.numbers; bits = a.bits; least = a.least } };

    ghost invariant = { λ a. a.len ≤ 64 };
}

/// Where a number is: in which block, and at which index of its numbers.
#[derive(Clone, Copy)]
pub struct Spot {
    pub block: usize,
    pub index: usize,
}

/// What a block tells of the numbers behind one of its own.
#[derive(Clone, Copy)]
pub struct Told {
    pub count: usize,
    pub bits: u64,
    pub least: Id,
    pub last: usize,
}

/// The word with that bit set or not.
fn with_bit(bits: u64, index: usize, is: bool) -> u64
    requires { index < 64 }
    ensures same { bit_at result index ≡ cond is 1 0 }
    ensures others { (i : ℕ) → i < 64 → i ≢ index → bit_at result i ≡ bit_at bits i }
{
    if is {
        bits | (1 << index)
    } else {
        bits & !(1 << index)
    }
}

/// The lesser identifier.
pub fn lesser_id(first: Id, second: Id) -> Id
    ensures first { (i : AnyId) → IsAtMost first i → IsAtMost result i }
    ensures second { IsAtMost result second }
{
    if compare_ids(first, second).is_gt() {
        second
    } else {
        first
    }
}

impl Block {
    /// A block without numbers.
    fn new() -> Self
        ensures { result.numbers ≡ [] }
    {
        Block {
            numbers: [0; 64],
            len: 0,
            bits: 0,
            least: GREATEST,
        }
    }

    /// How many numbers there are.
    fn len(&self) -> usize
        ensures len { result ≡ length self.now.numbers }
        ensures most { result ≤ 64 }
    {
        self.len
    }

    /// The number at the index.
    fn number(&self, index: usize) -> Option<usize>
        ensures { result ≡ slice_get self.now.numbers index }
    {
        if index < self.len {
            return Some(self.numbers[index]);
        }
        None
    }

    /// What it tells of the numbers behind the index, so many at most.
    fn tell(&self, index: usize, most: usize) -> Option<Told>
        ensures some { IfSome result (λ told. (0 < told.count) × (told.count ≤ most)) }
        ensures bits { IfSome result (λ told. told.bits ≡ self.now.bits / 2 ^ (suc index)) }
        ensures least { IfSome result (λ told. told.least ≡ self.now.least) }
        ensures last { IfSome result (λ told. slice_get self.now.numbers (index + told.count) ≡ Some told.last) }
    {
        if index >= self.len {
            return None;
        }
        let count = most.min(self.len - index - 1);
        if count == 0 {
            return None;
        }
        Some(Told {
            count,
            bits: self.bits >> (index + 1),
            least: self.least,
            last: self.numbers[index + count],
        })
    }

    /// Keeps the first numbers, so many.
    fn keep(&mut self, most: usize)
        ensures numbers { self.new.numbers ≡ take most self.old.numbers }
        ensures bits { self.new.bits ≡ self.old.bits }
        ensures least { self.new.least ≡ self.old.least }
    {
        if most < self.len {
            self.len = most;
        }
    }

    /// Keeps the numbers up to the index.
    fn keep_through(&mut self, index: usize)
        ensures numbers { self.new.numbers ≡ take (suc index) self.old.numbers }
        ensures bits { self.new.bits ≡ self.old.bits }
        ensures least { self.new.least ≡ self.old.least }
    {
        if index < self.len {
            self.len = index + 1;
        }
    }

    /// Where to cut the block, if it is full, so that it has room behind the index. What was appended one by
    /// one stays together.
    fn cut_place(&self, index: usize) -> Option<usize> {
        if self.len < MOST {
            return None;
        }
        if index < MOST / 2 {
            return Some(index + 1);
        }
        Some(if index < MOST - 1 { MOST / 2 } else { MOST - 1 })
    }

    /// Makes it the block of one number.
    fn begin(&mut self, number: usize)
        ensures { self.new.numbers ≡ number ∷ [] }
    {
        self.len = 0;
        self.push(number, GREATEST, false);
        self.least = GREATEST;
    }

    /// Sets the bit of the number at the index, or clears it.
    fn mark(&mut self, index: usize, is: bool)
        ensures numbers { self.new.numbers ≡ self.old.numbers }
        ensures same { index < length self.old.numbers → bit_at self.new.bits index ≡ cond is 1 0 }
        ensures others { (i : ℕ) → i < length self.old.numbers → i ≢ index
            → bit_at self.new.bits i ≡ bit_at self.old.bits i }
        ensures least { self.new.least ≡ self.old.least }
    {
        if index < self.len {
            self.bits = with_bit(self.bits, index, is);
        }
    }

    /// Appends a number with its bit and its identifier.
    fn push(&mut self, number: usize, id: Id, is: bool)
        requires { length self.old.numbers < 64 }
        ensures numbers { self.new.numbers ≡ self.old.numbers ++ number ∷ [] }
        ensures same { bit_at self.new.bits (length self.old.numbers) ≡ cond is 1 0 }
        ensures others { (i : ℕ) → i < length self.old.numbers → bit_at self.new.bits i ≡ bit_at self.old.bits i }
        ensures least { IsAtMost self.new.least id }
        ensures lesser { (i : AnyId) → IsAtMost self.old.least i → IsAtMost self.new.least i }
    {
        self.numbers[self.len] = number;
        self.bits = with_bit(self.bits, self.len, is);
        self.least = lesser_id(self.least, id);
        self.len += 1;
    }
}

/// Blocks, and beside them where each number may be.
#[derive(Drop)]
pub struct Blocks {
    blocks: Vec<Block>,
    spots: Vec<Spot>,
}

impl Model for Blocks {
    ghost use Rattle.std.specs.Prelude.{List};
    ghost use Rattle.jc_tree.specs.Blocks.{Members, AreSpots};

    ghost Value = { List Members };

    ghost view = { λ a. a.blocks.items };

    ghost invariant = { λ a. AreSpots a.spots.items a.blocks.items };
}

impl Blocks {
    pub fn new(alloc: Global) -> Self
        ensures { result ≡ [] }
    {
        Blocks {
            blocks: Vec::new(alloc),
            spots: Vec::new(alloc),
        }
    }

    /// Whether there are none.
    pub fn is_empty(&self) -> bool
        ensures { IsTrue result → self.now ≡ [] }
    {
        self.blocks.is_empty()
    }

    /// Where the number is, if it is in a block.
    pub fn spot(&self, number: usize) -> Option<Spot>
        ensures some { IfSome result (λ spot. member self.now spot.block spot.index ≡ Some number) }
        ensures within { IfSome result (λ spot. spot.block < length self.now) }
        ensures only { (b s : ℕ) → member self.now b s ≡ Some number
            → result ≡ Some (record { block = b; index = s }) }
    {
        let Some(spot) = spot_at(self.spots.as_slice(), number) else {
            return None;
        };
        let Some(there) = member_at(self.blocks.as_slice(), spot) else {
            return None;
        };
        if there != number {
            return None;
        }
        Some(spot)
    }

    /// The last number of the block.
    pub fn last(&self, block: usize) -> Option<usize>
        ensures { (s n : ℕ) → member self.now block s ≡ Some n → member self.now block (suc s) ≡ None
            → result ≡ Some n }
    {
        let block = self.blocks.get(block)?;
        block.number(block.len().checked_sub(1)?)
    }

    /// What the number's block tells of the numbers behind it, so many at most.
    pub fn tell(&self, number: usize, most: usize) -> Option<Told>
        ensures told { IfSome result (λ told.
            (keys : List AnyKey) (links : List (AnyKey × AnyNext)) (presences : List (AnyKey × List AnyId))
            (k : AnyKey) (i : AnyId)
            → slice_get keys number ≡ Some k → slice_get keys told.last ≡ Some (Elem i)
            → AreFit keys links presences self.now
            → LeadsOverEntries links presences k told.count told.bits told.least (Elem i)) }
        ensures some { IfSome result (λ told. 0 < told.count) }
        ensures most { IfSome result (λ told. told.count ≤ most) }
    {
        let spot = self.spot(number)?;
        self.blocks[spot.block].tell(spot.index, most)
    }

    /// Makes room for one block more, in a list with so many keys. Few have none.
    pub fn make_room(&mut self, count: usize) -> Result<(), AllocError>
        ensures fit { (keys : List AnyKey) (links : List (AnyKey × AnyNext)) (presences : List (AnyKey × List AnyId))
            → AreFit keys links presences self.old → AreFit keys links presences self.new }
    {
        if count < FEW {
            return Ok(());
        }
        reach(&mut self.spots, count)?;
        end_empty(&mut self.blocks)
    }

    /// Begins a block with the number, if it is in none and there is room. Returns which block.
    pub fn start(&mut self, number: usize) -> Option<usize>
        ensures fit { (keys : List AnyKey) (links : List (AnyKey × AnyNext)) (presences : List (AnyKey × List AnyId))
            → AreFit keys links presences self.old → AreFit keys links presences self.new }
    {
        let block = self.blocks.len().checked_sub(1)?;
        let is_free = self.blocks[block].len() == 0;
        if !is_free || number >= self.spots.len() || self.spot(number).is_some() {
            return None;
        }
        self.spots[number] = Spot { block, index: 0 };
        self.blocks[block].begin(number);
        Some(block)
    }

    /// Appends the number of the element to the block, if it is in none and there is room. Returns whether
    /// it was appended.
    pub fn add(&mut self, block: usize, number: usize, id: Id, is: bool) -> bool
        ensures fit { (keys : List AnyKey) (links : List (AnyKey × AnyNext)) (presences : List (AnyKey × List AnyId))
            → slice_get keys number ≡ Some (Elem id) → presence_bit (Elem id) presences ≡ cond is 1 0
            → IsLastLinked keys links self.old block id
            → AreFit keys links presences self.old → AreFit keys links presences self.new }
    {
        let Some(there) = self.blocks.get(block) else {
            return false;
        };
        let index = there.len();
        if index >= MOST || number >= self.spots.len() || self.spot(number).is_some() {
            return false;
        }
        self.spots[number] = Spot { block, index };
        self.blocks[block].push(number, id, is);
        true
    }

    /// Sets the number's bit, where it is in a block, or clears it: by it the key's presence set, which
    /// changed, has an identifier or not.
    pub fn mark(&mut self, number: Option<usize>, is: bool)
        ensures fit { (keys : List AnyKey) (links : List (AnyKey × AnyNext)) (old new : List (AnyKey × List AnyId))
            (k : AnyKey)
            → AreNumbered keys → IsNumberIn number k keys self.old → DifferAt k old new
            → presence_bit k new ≡ cond is 1 0
            → AreFit keys links old self.old → AreFit keys links new self.new }
    {
        let Some(number) = number else {
            return;
        };
        let Some(spot) = self.spot(number) else {
            return;
        };
        self.blocks[spot.block].mark(spot.index, is);
    }

    /// Cuts what is behind the number off its block, where it is in one: what follows its key changed.
    pub fn cut_after(&mut self, number: usize)
        ensures fit { (keys : List AnyKey) (old new : List (AnyKey × AnyNext)) (presences : List (AnyKey × List AnyId))
            (k : AnyKey)
            → AreNumbered keys → slice_get keys number ≡ Some k → DifferAt k old new
            → AreFit keys old presences self.old → AreFit keys new presences self.new }
    {
        let Some(spot) = self.spot(number) else {
            return;
        };
        self.blocks[spot.block].keep_through(spot.index);
    }

    /// Cuts the number's block, where it is in a full one, and begins another with the first number that was
    /// cut off. Returns which block is begun.
    pub fn split(&mut self, number: usize) -> Option<usize>
        ensures fit { (keys : List AnyKey) (links : List (AnyKey × AnyNext)) (presences : List (AnyKey × List AnyId))
            → AreFit keys links presences self.old → AreFit keys links presences self.new }
    {
        let spot = self.spot(number)?;
        let place = self.blocks[spot.block].cut_place(spot.index)?;
        let first = self.blocks[spot.block].number(place)?;
        self.blocks[spot.block].keep(place);
        self.start(first)
    }

    /// The number's block. Where it has none, one is begun with it, if there is room.
    pub fn block_of(&mut self, number: usize) -> Option<usize>
        ensures fit { (keys : List AnyKey) (links : List (AnyKey × AnyNext)) (presences : List (AnyKey × List AnyId))
            → AreFit keys links presences self.old → AreFit keys links presences self.new }
    {
        match self.spot(number) {
            Some(spot) => Some(spot.block),
            None => self.start(number),
        }
    }

    /// Takes the number out of its block, with what is behind it, where it is in one.
    fn forget(&mut self, number: usize)
        ensures fit { (keys : List AnyKey) (links : List (AnyKey × AnyNext)) (presences : List (AnyKey × List AnyId))
            → AreFit keys links presences self.old → AreFit keys links presences self.new }
        ensures gone { (b s : ℕ) → member self.new b s ≢ Some number }
        ensures fewer { (b s n : ℕ) → member self.new b s ≡ Some n → member self.old b s ≡ Some n }
    {
        let Some(spot) = self.spot(number) else {
            return;
        };
        self.blocks[spot.block].keep(spot.index);
    }

    /// Drops the last block, where it and the one before it have no number.
    fn drop_empty(&mut self)
        ensures fit { (keys : List AnyKey) (links : List (AnyKey × AnyNext)) (presences : List (AnyKey × List AnyId))
            → AreFit keys links presences self.old → AreFit keys links presences self.new }
    {
        if !ends_empty_twice(self.blocks.as_slice()) {
            return;
        }
        let count = self.blocks.len().saturating_sub(1);
        self.blocks.truncate(count);
    }

    /// Takes the numbers from the first one on, up to the end, out of their blocks: their keys are gone.
    pub fn forget_all(&mut self, first: usize, end: usize)
        ensures fit { (keys : List AnyKey) (links : List (AnyKey × AnyNext)) (presences : List (AnyKey × List AnyId))
            → length keys ≤ end
            → AreFit keys links presences self.old → AreFit (take first keys) links presences self.new }
    {
        for number in first..end {
            self.forget(number);
        }
        self.drop_empty();
    }
}

/// Whether there is a last block, and it has no number.
fn ends_empty(blocks: &[Block]) -> bool {
    match blocks.last() {
        Some(last) => last.len() == 0,
        None => false,
    }
}

/// Whether there are two blocks at the end that have no number.
fn ends_empty_twice(blocks: &[Block]) -> bool {
    match blocks.len().checked_sub(2) {
        Some(place) => blocks[place].len() == 0 && blocks[place + 1].len() == 0,
        None => false,
    }
}

/// Makes the last block an empty one.
fn end_empty(blocks: &mut Vec<Block>) -> Result<(), AllocError>
    ensures fit { (keys : List AnyKey) (links : List (AnyKey × AnyNext)) (presences : List (AnyKey × List AnyId))
        → AreFit keys links presences blocks.old.items → AreFit keys links presences blocks.new.items }
    ensures spots { (spots : List AnySpot) → AreSpots spots blocks.old.items → AreSpots spots blocks.new.items }
{
    if ends_empty(blocks.as_slice()) {
        return Ok(());
    }
    blocks.push(Block::new())?;
    Ok(())
}

/// The spot that is noted for the number.
fn spot_at(spots: &[Spot], number: usize) -> Option<Spot>
    ensures { result ≡ slice_get spots.now number }
{
    spots.get(number).copied()
}

/// The number at the spot.
fn member_at(blocks: &[Block], spot: Spot) -> Option<usize>
    ensures { result ≡ member blocks.now spot.block spot.index }
{
    blocks.get(spot.block)?.number(spot.index)
}

/// Makes the spots reach to the number. After a refusal they are as they were.
fn reach(spots: &mut Vec<Spot>, number: usize) -> Result<(), AllocError>
    ensures { (n : ℕ) (spot : AnySpot) → slice_get spots.old.items n ≡ Some spot
        → slice_get spots.new.items n ≡ Some spot }
{
    if number < spots.len() {
        return Ok(());
    }
    let Some(count) = number.checked_add(1) else {
        return Err(AllocError);
    };
    spots.resize(count, Spot { block: 0, index: 0 })?;
    Ok(())
}
