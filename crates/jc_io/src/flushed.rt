//! Bytes that are written and flushed, as the answers of a conversation are.

ghost use Rattle.std.specs.Prelude.{OnOk, OnErr};
ghost use Rattle.jc_io.specs.Written.{sink, Wrote, Interrupted};

use crate::io::{Failed, Sink, write_all};

/// Writes bytes and flushes them, so that they are there before anything else is done. No bytes need neither.
pub fn write_flushed<K: Sink>(out: &mut K, bytes: &[u8]) -> Result<(), Failed>
    ensures ok { OnOk result (Wrote bytes.now (sink K.Sink out.old) (sink K.Sink out.new)) }
    ensures err { OnErr result (Interrupted bytes.now (sink K.Sink out.old) (sink K.Sink out.new)) }
{
    if bytes.is_empty() {
        return Ok(());
    }
    write_all(out, bytes)?;
    out.flush()
}
