//! The lines that a script is answered with.
ghost use Rattle.std.specs.Prelude.{◌≡◌, ◌++◌, option_map, OnOk, OnErr};
ghost use Rattle.script.specs.Replay.{answer_line, bad_line};
ghost use Rattle.script.specs.Said.{said_of};

use crate::reply::{Said, reply_text};
use crate::{Bytes, Mem};
use std::alloc::Global;

/// Puts the reply line of an answer behind some bytes, if there is an answer. At `Err` they are as
/// they were.
///
/// An answer may be many times as long as its script. So it is taken, and let go of before its text
/// is copied.
pub(crate) fn append_answer(alloc: Global, said: Option<Said>, out: &mut Bytes) -> Mem<()>
    ensures ok { OnOk result (out.new.items ≡ out.old.items ++ answer_line
        (option_map said_of said)) }
    ensures err { OnErr result (out.new.items ≡ out.old.items) }
{
    let Some(said) = said else {
        return Ok(());
    };
    let text = reply_text(alloc, &said);
    drop(said);
    let mut line = text?;
    line.push(b'\n')?;
    out.extend_from_slice(line.as_slice())
}

/// Puts the line that tells of a bad one behind some bytes. At `Err` they are as they were.
pub(crate) fn append_bad_line(alloc: Global, number: u64, out: &mut Bytes) -> Mem<()>
    ensures ok { OnOk result (out.new.items ≡ out.old.items ++ bad_line number) }
    ensures err { OnErr result (out.new.items ≡ out.old.items) }
{
    let line = format!(in alloc; "error line {number}\n")?;
    out.extend_from_slice(line.as_bytes())
}
