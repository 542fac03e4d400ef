//! Lists of what could stand at offsets.

use jc_expected::expected;
use std::process::Abort;
use std::test::Fail;

/// A text, an offset, and the list of what could stand there.
type Row = (&'static str, usize, &'static str);

const ROWS: &[Row] = &[
    // At the text's end.
    ("jsoncrdt 1 replica", 18, "[\"name\"]"),
    ("jsoncrdt 1 replica a", 20, "[\"{\"]"),
    (
        "jsoncrdt 1 replica a {",
        22,
        "[\"yield\",\"let\",\"doc\",\"name\",\"}\"]",
    ),
    (
        "jsoncrdt 1 replica a {x :=",
        26,
        "[\"true\",\"false\",\"null\",\"number\",\"string\",\"[\",\"{\"]",
    ),
    ("jsoncrdt 1 replica a {x.idx(", 28, "[\"digits\"]"),
    (
        "jsoncrdt 2 replica a {} schedule {a.",
        36,
        "[\"exec\",\"send\",\"recv\",\"take\",\"apply\",\"done\"]",
    ),
    // Before what doesn't fit, and before a text that is no token.
    ("jsoncrdt 1 replica a {x = 1", 24, "[\".\",\":=\"]"),
    (
        "jsoncrdt 1 replica a {x.#",
        24,
        "[\"get\",\"idx\",\"keys\",\"values\",\"insertAfter\",\"delete\"]",
    ),
    // Where an event begins any word may stand.
    (
        "jsoncrdt 1 replica a {} schedule {;",
        34,
        "[\"name\",\"}\"]",
    ),
    // Where nothing could stand, and where the offset is outside the text.
    ("jsoncrdt 1 replica a {} schedule {} x", 36, "[]"),
    ("jsoncrdt 1 replica a {let x", 99, "[\"=\"]"),
];

fn is_list(rt: &impl Abort, got: &[u8], want: &str) {
    assert!(rt; got == want.as_bytes(), "{want}");
}

#[test]
fn lists(rt: HostRuntime) -> Result<(), Fail> {
    for (text, at, want) in ROWS {
        let list = expected(rt.alloc(), text.as_bytes(), *at)?;
        is_list(&rt, list.as_slice(), want);
    }
    Ok(())
}
