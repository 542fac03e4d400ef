//! Sets of identifiers, with several replicas and gaps in their counters.

use crate::testing::holds;
use jc_rules::{Id, IdSet, insert_id};
use std::alloc::{AllocError, Global};
use std::process::Abort;
use std::test::Fail;

fn id(counter: u64, replica: u16) -> Id {
    Id { counter, replica }
}

/// The set after these were inserted, each given as its counter and its replica.
fn set_of(alloc: Global, ids: &[(u64, u16)]) -> Result<IdSet, AllocError> {
    let mut set = IdSet::new(alloc);
    for (counter, replica) in ids {
        set.insert(id(*counter, *replica))?;
    }
    Ok(set)
}

/// The set has all of the first identifiers and none of the others, each given as its counter and its replica.
fn has(rt: &impl Abort, set: &IdSet, ids: &[(u64, u16)], none: &[(u64, u16)]) {
    for (counter, replica) in ids {
        let id = id(*counter, *replica);
        assert!(rt; set.contains(id), "{id:?} is missing");
    }
    for (counter, replica) in none {
        let id = id(*counter, *replica);
        assert!(rt; !set.contains(id), "{id:?} is there");
    }
}

/// The greatest counter of replicas 0, 1 and so on, and that of all.
fn counters(rt: &impl Abort, set: &IdSet, counters: &[u64], greatest: u64) {
    let mut replica = 0u16;
    for counter in counters {
        assert!(rt; set.greatest_of(replica) == *counter, "of {replica}");
        replica = replica.wrapping_add(1);
    }
    assert!(rt; set.greatest() == greatest);
}

#[test]
fn sets(rt: HostRuntime) -> Result<(), Fail> {
    let mut set = IdSet::new(rt.alloc());
    counters(&rt, &set, &[], 0);
    set.insert(id(2, 1))?;
    set.insert(id(1, 5))?;
    let smaller = set.copy()?;
    set.insert(id(2, 0))?;
    set.insert(id(2, 0))?;
    // What is below an inserted identifier of its replica comes with it.
    has(
        &rt,
        &set,
        &[(1, 5), (2, 0), (2, 1), (1, 0)],
        &[(3, 0), (3, 1), (2, 5)],
    );
    has(&rt, &smaller, &[], &[(2, 0), (1, 0)]);
    holds(
        &rt,
        "subsets",
        smaller.is_subset(&set) && !set.is_subset(&smaller),
    );
    counters(&rt, &set, &[], 2);
    Ok(())
}

const WITH_GAPS: &[(u64, u16)] = &[(4, 2), (7, 1), (3, 1), (9, 65535), (0, 3)];

#[test]
fn counters_have_gaps(rt: HostRuntime) -> Result<(), Fail> {
    let set = set_of(rt.alloc(), WITH_GAPS)?;
    counters(&rt, &set, &[0, 7, 4, 0, 0], 9);
    has(
        &rt,
        &set,
        &[(1, 1), (7, 1), (4, 2), (9, 65535), (8, 65535)],
        &[(8, 1), (5, 2), (1, 0), (0, 1), (0, 3), (10, 65535)],
    );
    let copy = set.copy()?;
    counters(&rt, &copy, &[0, 7, 4, 0], 9);
    Ok(())
}

/// Two sets, and whether the first is in the second.
const SUBSETS: &[(&[(u64, u16)], &[(u64, u16)], bool)] = &[
    (&[], &[], true),
    (&[], &[(1, 0)], true),
    (&[(1, 0)], &[], false),
    (&[(2, 0)], &[(3, 0)], true),
    (&[(3, 0)], &[(3, 0)], true),
    (&[(3, 0)], &[(2, 0)], false),
    (&[(3, 0), (1, 2)], &[(3, 0)], false),
    (&[(1, 2)], &[(5, 0), (1, 2)], true),
    (&[(5, 0), (2, 2)], &[(5, 0), (1, 2)], false),
    (&[(5, 0), (1, 2)], &[(1, 2), (5, 0)], true),
    (&[(1, 4)], &[(9, 0), (9, 7)], false),
];

#[test]
fn subsets(rt: HostRuntime) -> Result<(), Fail> {
    for (first, second, want) in SUBSETS {
        let first = set_of(rt.alloc(), first)?;
        let second = set_of(rt.alloc(), second)?;
        holds(&rt, "a subset", first.is_subset(&second) == *want);
    }
    Ok(())
}

/// Withdraws the greatest identifier of its replica.
fn withdraw(rt: &impl Abort, set: &mut IdSet, id: Id, before: u64) {
    assert!(rt; set.greatest_of(id.replica) == id.counter);
    assert!(rt; before < id.counter);
    set.withdraw(id, before);
}

#[test]
fn withdrawn(rt: HostRuntime) -> Result<(), Fail> {
    let mut set = set_of(rt.alloc(), &[(2, 0), (5, 1), (9, 1)])?;
    withdraw(&rt, &mut set, id(9, 1), 5);
    counters(&rt, &set, &[2, 5], 5);
    has(&rt, &set, &[], &[(9, 1), (6, 1)]);
    withdraw(&rt, &mut set, id(5, 1), 0);
    counters(&rt, &set, &[2, 0], 2);
    has(&rt, &set, &[], &[(1, 1)]);
    set.insert(id(3, 1))?;
    withdraw(&rt, &mut set, id(2, 0), 1);
    counters(&rt, &set, &[1, 3], 3);
    has(&rt, &set, &[(1, 0), (2, 1)], &[]);
    Ok(())
}

#[test]
fn rising_lists(rt: HostRuntime) -> Result<(), Fail> {
    let mut list = Vec::new(rt.alloc());
    insert_id(&mut list, id(2, 0))?;
    insert_id(&mut list, id(1, 1))?;
    holds(
        &rt,
        "rising",
        list.as_slice() == [id(1, 1), id(2, 0)].as_slice(),
    );
    Ok(())
}
