//! The bytes of a text behind its line. `Input` reads them.

ghost use Rattle.std.specs.Prelude.{◌≡◌, ℕ, ◌+◌, ◌<◌, ◌≤◌, List, [], ◌∷◌, ◌++◌, length, vec_len, Vec, Ok, OnOk, IsErrOf};
ghost use Rattle.std.specs.Io.KnownBytes.{Consumes, IsAtEnd, prepend_known};
ghost use Rattle.jc_rules.specs.declared.limits.TheConstants.{MAX_LINE, MAX_TEXT};
ghost use Rattle.jc_io.specs.declared.io.ReadFault.TheVariants.{Failed as ReadFailed, Memory as NoMemory};
ghost use Rattle.jc_session.specs.LineReading.{ReadStopsAt};
ghost use Rattle.jc_requests.specs.Input.{kept};

use jc_io::{ReadFault, Source};
use jc_rules::limits::MAX_TEXT;
use jc_session::Ahead;
use std::alloc::{AllocError, Global};

/// How the reading of a text ended.
#[derive(Drop)]
pub enum TextEnd {
    /// All its bytes were read; at most `MAX_TEXT + 1` are kept.
    Whole(Vec<u8>),
    /// The input ended before.
    CutShort,
    /// A byte past the room was read before.
    TooMany,
}

/// Keeps a byte of a text, where it isn't too long already.
fn keep(text: &mut Vec<u8>, byte: u8) -> Result<(), AllocError>
    requires { vec_len text.old ≤ MAX_TEXT + 1 }
    ensures { OnOk result (text.new.items ≡ kept (text.old.items ++ byte ∷ [])) }
{
    if text.len() <= MAX_TEXT {
        text.push(byte)?;
    }
    Ok(())
}

/// Reads a text of so many bytes from a source, and from the bytes that were read ahead of it, and as many bytes as there
/// is room for. It takes the room of what it read. At most one byte past the room is taken.
///
/// After a fault what was read of the text is lost.
pub fn read_text<S: Source>(
    alloc: Global,
    size: u64,
    ahead: &mut Ahead,
    room: &mut u64,
    source: &mut S,
) -> Result<TextEnd, ReadFault>
    ensures whole { (v : Vec ℕ Global) → result ≡ Ok (TextEnd.Whole v) → (text : List ℕ) × (length text ≡ size)
        × Consumes (prepend_known ahead.old (S.left source.old)) (prepend_known ahead.new (S.left source.new)) text
        × (v.items ≡ kept text) × (room.new + size ≡ room.old) }
    ensures cut_short { result ≡ Ok TextEnd.CutShort → (part : List ℕ) × (length part < size)
        × Consumes (prepend_known ahead.old (S.left source.old)) (prepend_known ahead.new (S.left source.new)) part
        × IsAtEnd (prepend_known ahead.new (S.left source.new)) × (length part ≤ room.old) }
    ensures too_many { result ≡ Ok TextEnd.TooMany → (part : List ℕ) × (b : ℕ) × (length part < size)
        × Consumes (prepend_known ahead.old (S.left source.old)) (prepend_known ahead.new (S.left source.new))
        (part ++ b ∷ [])
        × (length part ≡ room.old) }
    ensures failed { IsErrOf result ReadFault.Failed → (part : List ℕ) × (length part < size) × (ahead.new ≡ [])
        × (length part ≤ room.old)
        × ReadStopsAt (prepend_known ahead.old (S.left source.old)) (S.left source.new) part
        × (S.failures source.new ≡ S.failures source.old + 1) }
    ensures memory { IsErrOf result ReadFault.Memory → (read : List ℕ) × (length read ≤ size)
        × Consumes (prepend_known ahead.old (S.left source.old)) (prepend_known ahead.new (S.left source.new)) read
        × (length read ≤ room.old)
        × (S.failures source.new ≡ S.failures source.old) }
    ensures ok { OnOk result (S.failures source.new ≡ S.failures source.old) }
    ensures few { length ahead.old < MAX_LINE → length ahead.new < MAX_LINE }
{
    let mut text = Vec::new(alloc);
    for _byte in 0..size {
        let Some(byte) = ahead.next(source)? else {
            return Ok(TextEnd::CutShort);
        };
        if *room == 0 {
            return Ok(TextEnd::TooMany);
        }
        *room -= 1;
        keep(&mut text, byte)?;
    }
    Ok(TextEnd::Whole(text))
}
