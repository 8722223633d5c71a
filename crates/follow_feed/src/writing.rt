//! Writing to a sink.
ghost use Rattle.std.specs.Prelude.{◌≡◌, List, ℕ};
ghost use Rattle.std.specs.Io.KnownBytes.{Appends};
ghost use Rattle.line_base.specs.Counts.{HasCause};
ghost use Rattle.body_wire.specs.Turns.{SendsAll};

use line_base::{Failed, Sink};

/// Writes all bytes to a sink, in as many calls as it takes, or a front of them where one fails.
pub(crate) fn write_all<K: Sink>(sink: &mut K, bytes: &[u8]) -> Result<(), Failed>
    ensures bytes { (sent : List ℕ)
        × Appends (K.output sink.old).held (K.output sink.new).held sent
        × SendsAll bytes.now sent result }
    ensures cause { HasCause (K.output sink.old).faults (K.output sink.new).faults result }
{
    let mut at = 0;
    while at < bytes.len() {
        match sink.write(&bytes[at..]) {
            Ok(count) => at += count,
            Err(failed) => return Err(failed),
        }
    }
    Ok(())
}
