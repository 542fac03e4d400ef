//! A diary under a lock. From the public contracts alone it is proved that the diary has the lines of each writer in
//! their order, each once, whatever the threads do.
ghost use Rattle.std.specs.Prelude.{◌≡◌, ℕ, List, ◌++◌, ◌∷◌, [], ◌<◌, All, MatchBool, IfSome, map, take, length};
ghost use Rattle.jc_lock_tests.specs.declared.tests.diary.Line.{Line};
ghost use Rattle.jc_lock.specs.Knowledge.{own};
ghost use Rattle.jc_lock.specs.Shows.{IsPassOf, lock_passes, opened_value, pass_number, pass_mine};

use super::holds;
use jc_lock::{HistoryLock, Kept, Pass};
use std::alloc::Global;
use std::process::Abort;
use std::sync::Wait;
use std::thread::{Threads, join};

#[derive(Drop)]
struct Line {
    writer: u16,
    text: u64,
}

#[derive(Drop)]
struct Diary {
    title: u64,
    lines: Vec<Line>,
}

impl Kept for Diary {
    type Entry = Line;

    type Origin = u64;

    ghost origin = { λ d. d.title };

    ghost list = { λ d. d.lines.items };

    ghost maker = { λ l. l.writer };

    fn entries(&self) -> u64 {
        self.lines.len() as u64
    }
}

// Writes a line, and returns whether it was written: it isn't where the pass is spent or memory is wanting.
fn write<R: Wait>(
    rt: &R,
    lock: &HistoryLock<Diary>,
    pass: Pass<Diary>,
    text: u64,
) -> (Pass<Diary>, bool)
    requires { IsPassOf lock.now pass }
    ensures lock { IsPassOf lock.now result.0 × (pass_number result.0 ≡ pass_number pass) }
    ensures mine { MatchBool result.1
        (map (λ (l : Line). l.text) (pass_mine result.0)
        ≡ map (λ (l : Line). l.text) (pass_mine pass) ++ text ∷ [])
        (pass_mine result.0 ≡ pass_mine pass) }
{
    let mut turn = match lock.take(rt, pass) {
        Ok(turn) => turn,
        Err(spent) => return (spent.pass, false),
    };
    let line = Line {
        writer: turn.number(),
        text,
    };
    let written = turn.value_mut().lines.push(line).is_ok();
    (lock.give(turn), written)
}

// Writes the texts in their order, until one can't be written. Returns how many were.
fn write_all<R: Wait>(
    rt: &R,
    lock: &HistoryLock<Diary>,
    mut pass: Pass<Diary>,
    texts: &[u64],
) -> (Pass<Diary>, usize)
    requires { IsPassOf lock.now pass }
    ensures lock { IsPassOf lock.now result.0 × (pass_number result.0 ≡ pass_number pass) }
    ensures mine { map (λ (l : Line). l.text) (pass_mine result.0)
        ≡ map (λ (l : Line). l.text) (pass_mine pass) ++ take result.1 texts.now }
{
    let mut count = 0;
    for text in texts {
        let (next, written) = write(rt, lock, pass, *text);
        pass = next;
        if !written {
            return (pass, count);
        }
        count += 1;
    }
    (pass, count)
}

// Opens a diary for two writers.
fn open_for_two(alloc: Global, title: u64) -> Option<(HistoryLock<Diary>, Pass<Diary>, Pass<Diary>)>
    ensures title { IfSome result (λ r. (opened_value r.0).title ≡ title) }
    ensures passes { IfSome result (λ r. lock_passes r.0 ≡ 2) }
    ensures first { IfSome result (λ r. IsPassOf r.0 r.1 × (pass_number r.1 ≡ 0) × (pass_mine r.1 ≡ [])) }
    ensures second { IfSome result (λ r. IsPassOf r.0 r.2 × (pass_number r.2 ≡ 1) × (pass_mine r.2 ≡ [])) }
{
    let diary = Diary {
        title,
        lines: Vec::new(alloc),
    };
    let Ok((lock, mut passes)) = HistoryLock::open(alloc, diary, 2, 1000) else {
        return None;
    };
    let second = passes.pop()?;
    let first = passes.pop()?;
    Some((lock, first, second))
}

fn close_of_two(
    alloc: Global,
    lock: HistoryLock<Diary>,
    first: Pass<Diary>,
    second: Pass<Diary>,
) -> Option<Diary>
    requires { IsPassOf lock first × IsPassOf lock second }
    ensures title { IfSome result (λ d. d.title ≡ (opened_value lock).title) }
    ensures first { IfSome result (λ d.
        own (λ (l : Line). l.writer) d.lines.items (pass_number first) ≡ pass_mine first) }
    ensures second { IfSome result (λ d.
        own (λ (l : Line). l.writer) d.lines.items (pass_number second) ≡ pass_mine second) }
    ensures others { IfSome result (λ d. All (λ (l : Line). l.writer < lock_passes lock) d.lines.items) }
{
    let mut passes = Vec::with_capacity(alloc, 2).ok()?;
    passes.push_reserved(first);
    passes.push_reserved(second);
    lock.close(passes).ok()
}

// Two threads write into one diary. Returns how many texts of each are in it, or `None` where memory is wanting.
fn write_both<R: Threads + Wait + Sync>(
    rt: &R,
    alloc: Global,
    title: u64,
    first: &[u64],
    second: &[u64],
) -> Option<(Diary, usize, usize)>
    ensures title { IfSome result (λ r. r.0.title ≡ title) }
    ensures first { IfSome result (λ r.
        map (λ (l : Line). l.text) (own (λ (l : Line). l.writer) r.0.lines.items 0) ≡ take r.1 first.now) }
    ensures second { IfSome result (λ r.
        map (λ (l : Line). l.text) (own (λ (l : Line). l.writer) r.0.lines.items 1) ≡ take r.2 second.now) }
    ensures others { IfSome result (λ r. All (λ (l : Line). l.writer < 2) r.0.lines.items) }
{
    let (lock, one, two) = open_for_two(alloc, title)?;
    let ((one, a), (two, b)) = join(
        rt,
        || write_all(rt, &lock, one, first),
        || write_all(rt, &lock, two, second),
    );
    let diary = close_of_two(alloc, lock, one, two)?;
    Some((diary, a, b))
}

// Expects the texts of a writer, in their order.
fn expect_texts(rt: &impl Abort, diary: &Diary, writer: u16, texts: &[u64]) {
    let mut left = texts;
    for line in &diary.lines {
        if line.writer == writer {
            let [text, rest @ ..] = left else {
                panic!(rt; "a line too many")
            };
            holds(rt, line.text == *text);
            left = rest;
        }
    }
    holds(rt, left.is_empty());
}

#[test]
fn two_threads_write(rt: HostRuntime) {
    let first = [5, 5, 7];
    let second = [1, 2, 3, 4];
    let (diary, a, b) = write_both(&rt, rt.alloc(), 9, &first, &second).expect(&rt, "memory");
    holds(&rt, diary.title == 9 && a == 3 && b == 4);
    expect_texts(&rt, &diary, 0, &first);
    expect_texts(&rt, &diary, 1, &second);
    holds(&rt, diary.lines.len() == 7);
}

// Expects that a pass counts so many lines, and keeps its number.
fn counts(rt: &impl Abort, lock: &HistoryLock<Diary>, pass: &mut Pass<Diary>, lines: u64)
    requires { IsPassOf lock.now pass.old }
    ensures { IsPassOf lock.now pass.new }
{
    let number = pass.number();
    holds(rt, lock.count(pass) == lines && pass.number() == number);
}

// A pass counts also while another one has the turn.
#[test]
fn counts_what_stands(rt: HostRuntime) {
    let (lock, one, mut two) = open_for_two(rt.alloc(), 9).expect(&rt, "memory");
    holds(&rt, two.number() == 1);
    counts(&rt, &lock, &mut two, 0);
    let (one, written) = write(&rt, &lock, one, 5);
    holds(&rt, written);
    counts(&rt, &lock, &mut two, 1);
    let Ok(turn) = lock.take(&rt, one) else {
        panic!(rt; "no take is left")
    };
    holds(&rt, turn.number() == 0 && turn.value().title == 9);
    counts(&rt, &lock, &mut two, 1);
    let _one = lock.give(turn);
}
