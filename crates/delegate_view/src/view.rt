//! The text of a view.
ghost use Rattle.std.specs.Prelude.{◌≡◌, ◌++◌, IfOk, OnOk};
ghost use Rattle.bind_core.specs.Outcome.{ending_of};
ghost use Rattle.delegate_view.specs.View.{lookup_text, lookups_text, more_lookups};
ghost use Rattle.delegate_view.specs.View.{path_string, outcome_word, ended_word, view_of};

use crate::{Bytes, Mem};
use bind_core::{LookupEnd, Outcome, Trace, TraceItem};
use name_tree::{Path, write_path};
use std::alloc::Global;
use text_parts::{append_json_string, append_number};

/// What a delegation came to and its lookups, as a compact JSON object: `lookups`, an array with
/// `depth`, `outcome` and `path` of each lookup in the order in which they began, and `outcome`. A
/// path is its canonical text; the backslash of an escape in it is doubled.
///
/// It takes time and memory linear in the text.
pub fn view_text(alloc: Global, outcome: &Outcome, trace: &Trace) -> Mem<Bytes>
    ensures { IfOk result (λ text. text.items ≡ view_of (ending_of outcome.now) trace.now) }
{
    let mut out = Vec::new(alloc);
    out.extend_from_slice(b"{\"lookups\":[")?;
    append_lookups(trace.items(), &mut out)?;
    out.extend_from_slice(b"],\"outcome\":\"")?;
    out.extend_from_slice(outcome_word(outcome))?;
    out.extend_from_slice(b"\"}")?;
    Ok(out)
}

/// What a delegation came to, in a word.
fn outcome_word(outcome: &Outcome) -> &'static [u8]
    ensures { result.now ≡ outcome_word (ending_of outcome.now) }
{
    match outcome {
        Outcome::Neg => b"negative",
        Outcome::Fail => b"failing",
        Outcome::Empty => b"empty",
        Outcome::TooDeep => b"too-deep",
        Outcome::TooWide => b"too-wide",
        Outcome::Bound(_) => b"bound",
    }
}

/// How a lookup ended, in a word.
fn ended_word(ended: LookupEnd) -> &'static [u8]
    ensures { result.now ≡ ended_word ended }
{
    match ended {
        LookupEnd::Negative => b"negative",
        LookupEnd::Failing => b"failing",
        LookupEnd::Empty => b"empty",
        LookupEnd::TooDeep => b"too-deep",
        LookupEnd::Bound => b"bound",
    }
}

/// Puts lookups behind some bytes, with commas between them. An `Err` may leave a part there.
fn append_lookups(items: &[TraceItem], out: &mut Bytes) -> Mem<()>
    ensures { OnOk result (out.new.items ≡ out.old.items ++ lookups_text items.now) }
{
    let Some((first, others)) = items.split_first() else {
        return Ok(());
    };
    append_lookup(first, out)?;
    append_more(others, out)
}

/// Puts lookups behind some bytes, with a comma before each.
fn append_more(items: &[TraceItem], out: &mut Bytes) -> Mem<()>
    ensures { OnOk result (out.new.items ≡ out.old.items ++ more_lookups items.now) }
{
    for item in items {
        out.push(b',')?;
        append_lookup(item, out)?;
    }
    Ok(())
}

/// Puts a lookup behind some bytes.
fn append_lookup(item: &TraceItem, out: &mut Bytes) -> Mem<()>
    ensures { OnOk result (out.new.items ≡ out.old.items ++ lookup_text item.now) }
{
    out.extend_from_slice(b"{\"depth\":")?;
    append_number(u64::from(item.depth), out)?;
    out.extend_from_slice(b",\"outcome\":\"")?;
    out.extend_from_slice(ended_word(item.ended))?;
    out.extend_from_slice(b"\",\"path\":")?;
    append_path_string(&item.path, out)?;
    out.extend_from_slice(b"}")
}

/// Puts a path's canonical text behind some bytes, as a JSON string.
fn append_path_string(path: &Path, out: &mut Bytes) -> Mem<()>
    ensures { OnOk result (out.new.items ≡ out.old.items ++ path_string path.now) }
{
    let text = write_path(*out.allocator(), path)?;
    append_json_string(text.as_slice(), out)
}
