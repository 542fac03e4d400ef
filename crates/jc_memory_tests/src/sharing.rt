//! Tests of sharing, which no contract speaks of: copies of texts and paths take no memory, and equal paths that were
//! shared are kept once.

use crate::attempts::holds;
use crate::memory::{SPARE, fill, leave};
use jc_rules::{Key, Path, Tagged, Text};
use std::alloc::{AllocError, Global};
use std::process::Abort;
use std::test::Fail;

fn text(alloc: Global) -> Result<Text, AllocError> {
    Text::new(alloc, String::from_str(alloc, "a name")?)
}

/// Goes one map further down with this much memory. Returns whether there was enough. The keys of a path of few keys
/// are in its one block.
fn goes_down(
    rt: &impl Abort,
    alloc: Global,
    path: &mut Path,
    bytes: usize,
) -> Result<bool, AllocError> {
    if path.as_slice().len() >= 512 {
        return Err(AllocError);
    }
    let key = Tagged::MapT(Key::Name(text(alloc)?));
    let blocks = leave(rt, alloc, bytes);
    let pushed = path.push(key);
    drop(blocks);
    Ok(pushed.is_ok())
}

/// Whether both paths go further down, by equal keys.
fn both_go_down(
    rt: &impl Abort,
    alloc: Global,
    one: &mut Path,
    other: &mut Path,
    bytes: usize,
) -> Result<bool, AllocError> {
    let first = goes_down(rt, alloc, one, bytes)?;
    let second = goes_down(rt, alloc, other, bytes)?;
    Ok(first && second)
}

/// Whether a text and a path are copied with this much memory.
fn are_copied(rt: &impl Abort, alloc: Global, text: &Text, path: &Path, bytes: usize) -> bool {
    let blocks = leave(rt, alloc, bytes);
    let (text, path) = (text.copy(), path.copy());
    drop(blocks);
    text.is_ok() && path.is_ok()
}

#[test]
fn copies_take_no_memory(rt: HostRuntime) -> Result<(), Fail> {
    let alloc = rt.alloc();
    let text = text(alloc)?;
    let mut path = Path::new(alloc);
    holds(&rt, goes_down(&rt, alloc, &mut path, SPARE)?);
    holds(&rt, are_copied(&rt, alloc, &text, &path, SPARE));
    let filled = fill(&rt, alloc);
    holds(&rt, are_copied(&rt, alloc, &text, &path, 0));
    drop(filled);
    Ok(())
}

// A path whose keys nobody shares goes down in its own block. Once it shares them, it needs one of its own.
#[test]
fn shared_paths_are_kept_once(rt: HostRuntime) -> Result<(), Fail> {
    let alloc = rt.alloc();
    let (mut path, mut other) = (Path::new(alloc), Path::new(alloc));
    holds(&rt, both_go_down(&rt, alloc, &mut path, &mut other, SPARE)?);
    let filled = fill(&rt, alloc);
    holds(&rt, both_go_down(&rt, alloc, &mut path, &mut other, 0)?);
    path.share(&other)?;
    holds(&rt, !goes_down(&rt, alloc, &mut path, 0)?);
    drop(filled);
    holds(&rt, goes_down(&rt, alloc, &mut path, SPARE)?);
    Ok(())
}
