//! The query of a view.
ghost use Rattle.std.specs.Prelude.{◌≡◌, ◌⊎◌, None, Some, IfOk, MatchResult, option_map, codes};
ghost use Rattle.std.specs.Option.{option_and_then};
ghost use Rattle.std.specs.Str.{bytes_eq};
ghost use Rattle.std.specs.Cow.{cow_str_bytes};
ghost use Rattle.name_tree.specs.Canon.{AreByteLabels};
ghost use Rattle.name_tree.specs.Computed.{path_of};
ghost use Rattle.dtab_table.specs.Computed.{table_of};
ghost use Rattle.dtab_table.specs.Dtab.{rules_of};
ghost use Rattle.dtab_table.specs.TableCanon.{AreSoundRules};
ghost use Rattle.form_urlencoded.specs.Form.{raw_pairs};
ghost use Rattle.delegate_view.specs.Query.{first_value, form_text, table_or_none, view_asked};

use crate::Mem;
use dtab_table::{Dtab, DtabFault, read_dtab};
use form_urlencoded::{decode, raw_pairs};
use name_tree::{Path, TextFault, read_path};
use std::alloc::{AllocError, Global};
use std::borrow::CowStr;
use thiserror::Error;

/// Why a query was not read.
#[derive(Clone, Copy, Debug, PartialEq, Eq, Error)]
pub enum ViewFault {
    /// It has no `path`, or its first `path` or `dtab` is none.
    #[error("the path is no path, or the dtab no table")]
    BadView,
    /// There was no memory for it.
    #[error("out of memory")]
    OutOfMemory,
}

impl From<AllocError> for ViewFault {
    ghost use Rattle.delegate_view.specs.declared.query.ViewFault.{ViewFault};

    ghost from_gives = { λ _ fault. fault ≡ ViewFault.OutOfMemory };

    fn from(_error: AllocError) -> ViewFault {
        ViewFault::OutOfMemory
    }
}

/// The path and the request's own table that a query asks for, `path=P&dtab=T` in the encoding of
/// web forms. The first `path` and the first `dtab` count; without a `dtab` the table is the empty
/// one. Other names are passed over.
pub fn view_ask(alloc: Global, query: &[u8]) -> Result<(Path, Dtab), ViewFault>
    ensures asked { MatchResult result
        (λ asked. view_asked query.now ≡ Some (asked.0, rules_of asked.1))
        (λ fault. (fault ≡ ViewFault.OutOfMemory) ⊎ (view_asked query.now ≡ None)) }
    ensures labels { IfOk result (λ asked. AreByteLabels asked.0) }
    ensures sound { IfOk result (λ asked. AreSoundRules (rules_of asked.1)) }
{
    let path = read_asked_path(alloc, query)?;
    let local = read_local(alloc, query)?;
    Ok((path, local))
}

/// The path that a query asks for.
fn read_asked_path(alloc: Global, query: &[u8]) -> Result<Path, ViewFault>
    ensures labels { IfOk result (λ path. AreByteLabels path) }
    ensures path { MatchResult result
        (λ path. option_and_then path_of (first_value (codes "path") (raw_pairs query.now))
        ≡ Some path)
        (λ fault. (fault ≡ ViewFault.OutOfMemory)
        ⊎ (option_and_then path_of (first_value (codes "path") (raw_pairs query.now)) ≡ None)) }
{
    match first_value(alloc, query, b"path")? {
        None => Err(ViewFault::BadView),
        Some(text) => path_of_text(alloc, text.as_bytes()),
    }
}

/// The path of a text.
fn path_of_text(alloc: Global, text: &[u8]) -> Result<Path, ViewFault>
    ensures labels { IfOk result (λ path. AreByteLabels path) }
    ensures path { MatchResult result (λ path. path_of text.now ≡ Some path)
        (λ fault. (fault ≡ ViewFault.OutOfMemory) ⊎ (path_of text.now ≡ None)) }
{
    match read_path(alloc, text) {
        Ok(path) => Ok(path),
        Err(TextFault::OutOfMemory) => Err(ViewFault::OutOfMemory),
        Err(_) => Err(ViewFault::BadView),
    }
}

/// The table that a query brings, the empty one where it has no `dtab`.
fn read_local(alloc: Global, query: &[u8]) -> Result<Dtab, ViewFault>
    ensures sound { IfOk result (λ dtab. AreSoundRules (rules_of dtab)) }
    ensures table { MatchResult result
        (λ dtab. table_or_none (first_value (codes "dtab") (raw_pairs query.now))
        ≡ Some (rules_of dtab))
        (λ fault. (fault ≡ ViewFault.OutOfMemory)
        ⊎ (table_or_none (first_value (codes "dtab") (raw_pairs query.now)) ≡ None)) }
{
    match first_value(alloc, query, b"dtab")? {
        None => Ok(Dtab::empty(alloc)),
        Some(text) => table_of_text(alloc, text.as_bytes()),
    }
}

/// The table of a text.
fn table_of_text(alloc: Global, text: &[u8]) -> Result<Dtab, ViewFault>
    ensures sound { IfOk result (λ dtab. AreSoundRules (rules_of dtab)) }
    ensures table { MatchResult result (λ dtab. table_of text.now ≡ Some (rules_of dtab))
        (λ fault. (fault ≡ ViewFault.OutOfMemory) ⊎ (table_of text.now ≡ None)) }
{
    match read_dtab(alloc, text) {
        Ok(dtab) => Ok(dtab),
        Err(DtabFault::OutOfMemory) => Err(ViewFault::OutOfMemory),
        Err(_) => Err(ViewFault::BadView),
    }
}

/// The text of the first value that a query has for a name.
fn first_value<'a>(alloc: Global, query: &'a [u8], name: &[u8]) -> Mem<Option<CowStr<'a>>>
    ensures { IfOk result
        (λ found. option_map cow_str_bytes found ≡ first_value name.now (raw_pairs query.now)) }
{
    for (encoded, value) in raw_pairs(query) {
        if has_text(alloc, encoded, name)? {
            return Ok(Some(decode(alloc, value)?));
        }
    }
    Ok(None)
}

/// Whether an encoded name stands for a text.
fn has_text(alloc: Global, encoded: &[u8], text: &[u8]) -> Mem<bool>
    ensures { IfOk result (λ same. same ≡ bytes_eq (form_text encoded.now) text.now) }
{
    let decoded = decode(alloc, encoded)?;
    Ok(decoded.as_bytes() == text)
}
