//! What the tests of texts share: faults, comparisons, and texts with a repeated part.

use std::alloc::{AllocError, Global};
use std::process::Abort;

/// The number and the offset of a fault.
pub type Fault = Option<(u8, usize)>;

/// A fault with this number and offset; two zeros for want of memory.
pub fn fault(number: Option<u8>, place: Option<usize>) -> Fault {
    Some((number.unwrap_or(0), place.unwrap_or(0)))
}

pub fn is_fault(rt: &impl Abort, about: &str, got: Fault, want: Fault) {
    assert_eq!(rt; got, want, "{about}");
}

pub fn holds(rt: &impl Abort, about: &str, fact: bool) {
    assert!(rt; fact, "{about}");
}

pub fn is_text(rt: &impl Abort, got: &str, want: &str) {
    assert!(rt; got == want, "{got}");
}

/// A head, a part, how often it comes, and a tail.
pub type Parts = (&'static str, &'static str, usize, &'static str);

/// The text of these parts.
pub fn repeated(alloc: Global, parts: Parts) -> Result<String, AllocError> {
    let (head, part, times, tail) = parts;
    let middle = part.repeat(alloc, times)?;
    format!(in alloc; "{head}{middle}{tail}")
}
