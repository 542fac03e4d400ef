//! What an expression gives, as a text of its own.

ghost use Rattle.std.specs.Prelude.{◌≡◌, IfOk, string_bytes};
ghost use Rattle.serde_json.specs.Events.{SendsValue};
ghost use Rattle.jc_cursor.specs.Bounds.{bound_of};
ghost use Rattle.jc_dump.specs.Dump.{bound_data, bound_text, cursor_text};

use crate::dump::unless_refused;
use crate::vars::{cursor_value, send_bound};
use jc_cursor::Bound;
use jc_rules::{Cursor, Text};
use serde::{Described, Serialize, Serializer};
use std::alloc::{AllocError, Global};

/// What a variable would be bound to, which `serde` sends to a writer.
#[derive(Drop)]
struct Binding<'a> {
    alloc: Global,
    names: &'a [Text],
    bound: &'a Bound,
}

impl Described for Binding<'_> {
    ghost writes = { λ b. SendsValue (bound_data b.names.now (bound_of b.bound.now)) };
}

impl Serialize for Binding<'_> {
    fn serialize<W: Serializer>(&self, out: &mut W) -> Result<(), W::Error> {
        send_bound(self.alloc, self.names, self.bound, out)
    }
}

/// Returns what a dump shows of a variable that is bound to this.
pub fn bound_text(alloc: Global, names: &[Text], bound: &Bound) -> Result<String, AllocError>
    ensures { IfOk result (λ text. string_bytes text ≡ bound_text names.now (bound_of bound.now)) }
{
    let binding = Binding {
        alloc,
        names,
        bound,
    };
    unless_refused(serde_json::to_string(alloc, &binding))
}

/// Returns a cursor as a dump shows it: the list of its path's texts and its last key's.
pub fn cursor_text(alloc: Global, names: &[Text], cursor: &Cursor) -> Result<String, AllocError>
    ensures { IfOk result (λ text. string_bytes text ≡ cursor_text names.now cursor.now) }
{
    cursor_value(alloc, names, cursor)?.to_string(alloc)
}
