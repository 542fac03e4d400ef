//! Texts as bytes: appended piece by piece, and taken as a `String`.

ghost use Rattle.std.specs.Prelude.{◌≡◌, ◌++◌, is_ok, if◌then◌else◌, string_bytes, IsUtf8};
ghost use Rattle.jc_dump.specs.Bytes.{BeginsWith};

use std::alloc::AllocError;

/// Appends a text. A refusal leaves the bytes as they were.
pub(crate) fn push_text(out: &mut Vec<u8>, text: &str) -> Result<(), AllocError>
    ensures bytes { out.new.items ≡ (if is_ok result then out.old.items ++ text.now else out.old.items) }
    ensures begins { BeginsWith out.old.items out.new.items }
    ensures utf8 { IsUtf8 out.old.items → IsUtf8 out.new.items }
{
    out.extend_from_slice(text.as_bytes())
}

/// The text that the bytes are.
pub(crate) fn into_text(bytes: Vec<u8>) -> String
    requires { IsUtf8 bytes.items }
    ensures { string_bytes result ≡ bytes.items }
{
    String::from_utf8(bytes).unwrap()
}
