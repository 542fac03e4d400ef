//! Tests of what a replica's document shows at a cursor, with enough memory.

use crate::nets::{FIRST, SECOND_OF_A, holds};
use crate::turns::{Turn, in_run};
use jc_network::{CompareFault, Net};
use jc_rules::{Cursor, Id, Key, Path, Tagged};
use jc_view::view_place;
use std::alloc::{AllocError, Global};
use std::process::Abort;
use std::test::Fail;

/// A list with an element that stays and one that is deleted, at whose head something is assigned.
const LIST: &str =
    "jsoncrdt 1 replica a { doc := []; doc.idx(0).insertAfter(\"x\"); doc.idx(0).insertAfter(\"y\"); doc.idx(0) := \"h\"; doc.idx(2).delete } schedule { a.exec; a.exec; a.exec; a.exec; a.exec }";

/// The element that stays.
const KEPT: Id = Id {
    counter: 3,
    replica: 0,
};

/// Where a cursor's key is: at the document, in its map or in its list.
#[derive(Clone, Copy)]
enum Within {
    Document,
    Map,
    List,
}

/// A cursor's key.
#[derive(Clone, Copy)]
enum Last {
    Doc,
    Head,
    Elem(Id),
}

/// Places of the list, and the line of each.
const LINES: &[(Within, Last, &str)] = &[
    (
        Within::Document,
        Last::Doc,
        "{\"doc\":[\"y\"],\"name\":\"a\"}\n",
    ),
    (Within::Document, Last::Head, "{\"name\":\"a\"}\n"),
    (
        Within::List,
        Last::Elem(KEPT),
        "{\"doc\":\"y\",\"name\":\"a\"}\n",
    ),
    (Within::List, Last::Elem(SECOND_OF_A), "{\"name\":\"a\"}\n"),
    (Within::List, Last::Elem(FIRST), "{\"name\":\"a\"}\n"),
    (Within::List, Last::Head, "{\"doc\":\"h\",\"name\":\"a\"}\n"),
    (Within::Map, Last::Head, "{\"name\":\"a\"}\n"),
];

fn path_to(alloc: Global, within: Within) -> Result<Path, AllocError> {
    let mut path = Path::new(alloc);
    match within {
        Within::Document => {}
        Within::Map => path.push(Tagged::MapT(Key::Doc))?,
        Within::List => path.push(Tagged::ListT(Key::Doc))?,
    }
    Ok(path)
}

fn key_of(last: Last) -> Key {
    match last {
        Last::Doc => Key::Doc,
        Last::Head => Key::Head,
        Last::Elem(id) => Key::Elem(id),
    }
}

fn cursor_at(alloc: Global, within: Within, last: Last) -> Result<Cursor, AllocError> {
    Ok(Cursor {
        path: path_to(alloc, within)?,
        last: key_of(last),
    })
}

/// The replica shows this line at the cursor.
fn shows(rt: &impl Abort, alloc: Global, net: &Net, cursor: &Cursor, want: &str) {
    match view_place(alloc, net, 0, cursor) {
        Ok(line) => holds(rt, line.as_slice() == want.as_bytes()),
        Err(_) => panic!(rt; "no line"),
    }
}

/// The replica's places have these lines, and those of one that isn't there have none.
pub fn places_are_shown(rt: &impl Abort, alloc: Global, net: &Net) -> Result<(), AllocError> {
    for (within, last, want) in LINES {
        let cursor = cursor_at(alloc, *within, *last)?;
        shows(rt, alloc, net, &cursor, want);
    }
    let cursor = cursor_at(alloc, Within::Document, Last::Doc)?;
    holds(
        rt,
        matches!(
            view_place(alloc, net, 1, &cursor),
            Err(CompareFault::NoSuchReplica)
        ),
    );
    Ok(())
}

#[test]
fn places(rt: HostRuntime) -> Result<(), Fail> {
    in_run(&rt, rt.alloc(), LIST, &Turn::Places)
}
