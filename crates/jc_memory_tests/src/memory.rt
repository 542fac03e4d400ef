//! Limits the memory of a test: blocks to which nothing is written take the whole address space of its process, but for
//! as many bytes as a call may get. The tests of the other files use it.
//!
//! The stack grows before: where all else of the address space is taken, it can't.

use std::alloc::{AllocError, Global};
use std::process::Abort;

/// The size of the largest block, and the number of blocks at most.
const LARGEST: usize = 1 << 34;

const MANY: usize = 1 << 17;

/// The room that is left, in pieces: what is prepared for a call and checked after it has its memory here.
const PIECE: usize = 1 << 22;

/// The number of pieces. The C library keeps up to seven freed blocks of each of 64 small sizes where they are, so
/// 448 in all; between two of them there is room here for the longest list and the spare block.
const PIECES: usize = 128;

/// The number of pieces beside threads. This is less than a heap of a thread's own, and than the gaps for threads,
/// which would be cut out of it else.
const PIECES_BESIDE_THREADS: usize = 11;

/// The number of blocks of the room at most.
const FEW: usize = 20_000;

/// The memory of a call at most.
pub const SPARE: usize = 1 << 18;

/// The step by which the memory of a call grows. No block of the C library has less than twice as many.
pub const UNIT: usize = 16;

/// Above this size the C library keeps no list of freed blocks for each size.
const LISTED: usize = 1_032;

/// The number of calls inside one another by which the stack grows, each by some words. Together they are about a MiB,
/// where a process begins with 132 KiB, as much as all tests but one need.
const DEEP: usize = 1 << 15;

/// The next size that is tried. Of small sizes each is tried, since freed blocks of one size serve no other.
fn smaller(size: usize) -> usize {
    if size > LISTED {
        size / 2
    } else {
        size.saturating_sub(UNIT)
    }
}

/// A block of this size.
pub fn block(alloc: Global, bytes: usize) -> Result<Vec<u8>, AllocError> {
    Vec::with_capacity(alloc, bytes)
}

/// Takes blocks of decreasing size, until there is memory for none.
fn take(alloc: Global, largest: usize, many: usize) -> Result<Vec<Vec<u8>>, AllocError> {
    let mut blocks = Vec::with_capacity(alloc, many)?;
    let mut size = largest;
    for _ in 0..many {
        if size == 0 {
            break;
        }
        match block(alloc, size) {
            Ok(block) => blocks.push(block)?,
            Err(_) => size = smaller(size),
        }
    }
    Ok(blocks)
}

/// Calls itself so many times, with a block alive in each call, so that the stack grows. A call that is refused memory
/// may need more of it than one with ample memory. Returns how many bytes the blocks had room for.
fn grow_stack(alloc: Global, calls: usize) -> Result<usize, AllocError> {
    if calls == 0 {
        return Ok(0);
    }
    let held = block(alloc, UNIT)?;
    let below = grow_stack(alloc, calls - 1)?;
    Ok(below.saturating_add(held.capacity()))
}

fn room(alloc: Global, pieces: usize) -> Result<Vec<Vec<u8>>, AllocError> {
    let mut room = Vec::with_capacity(alloc, pieces)?;
    for _ in 0..pieces {
        room.push(block(alloc, PIECE)?)?;
    }
    Ok(room)
}

fn all_but_room(alloc: Global, pieces: usize) -> Result<Vec<Vec<u8>>, AllocError> {
    grow_stack(alloc, DEEP)?;
    // After a large block was freed, the C library cuts blocks up to its size out of one heap.
    drop(block(alloc, 4 * PIECE)?);
    let room = room(alloc, pieces)?;
    let blocks = take(alloc, LARGEST, MANY)?;
    drop(room);
    Ok(blocks)
}

/// The room but for this number of bytes, which are in one piece.
fn room_but(alloc: Global, bytes: usize) -> Result<Vec<Vec<u8>>, AllocError> {
    let spare = block(alloc, SPARE)?;
    let mut blocks = take(alloc, PIECE, FEW)?;
    drop(spare);
    blocks.push(block(alloc, SPARE.saturating_sub(bytes))?)?;
    // Those that were taken last are freed first. Else the room falls to small pieces.
    blocks.reverse();
    Ok(blocks)
}

/// Takes all memory but the room. It is free again where these blocks are.
pub fn fill(rt: &impl Abort, alloc: Global) -> Vec<Vec<u8>> {
    all_but_room(alloc, PIECES).ok().expect(rt, "the blocks")
}

/// Does so before threads are made.
pub fn fill_beside_threads(rt: &impl Abort, alloc: Global) -> Vec<Vec<u8>> {
    all_but_room(alloc, PIECES_BESIDE_THREADS)
        .ok()
        .expect(rt, "the blocks")
}

/// The memory of a call: all that it may need, or that of its attempt number n.
pub fn budget(is_ample: bool, n: usize) -> usize {
    if is_ample {
        SPARE
    } else {
        n.saturating_mul(UNIT)
    }
}

/// Takes the room too, but for this number of bytes. For a call with ample memory it takes nothing.
pub fn leave(rt: &impl Abort, alloc: Global, bytes: usize) -> Vec<Vec<u8>> {
    if bytes >= SPARE {
        return Vec::new(alloc);
    }
    room_but(alloc, bytes).ok().expect(rt, "the blocks")
}
