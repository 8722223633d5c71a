//! The addresses of a line.
ghost use Rattle.std.specs.Prelude.{◌≡◌, ◌<◌, ◌≤◌, ◌⊎◌, None, Some, length, MatchResult, IfOk};
ghost use Rattle.std.specs.Prelude.{IfErr};
ghost use Rattle.addr_book.specs.AddrList.{HaveWeights};
ghost use Rattle.script.specs.Words.{words_of, addrs_in, list_in};

use crate::words::{LineFault, cut_word, read_weighted};
use addr_book::{AddrList, MOST_ADDRS, Weighted};
use std::alloc::Global;
use text_parts::without_gap;

/// The addresses that a line gives a service, in words between gaps: at most 1,024, each kept once,
/// at its first place and with its first weight.
pub(crate) fn read_list(alloc: Global, text: &[u8]) -> Result<AddrList, LineFault>
    ensures { MatchResult result (λ list. list_in (words_of text.now) ≡ Some list)
        (λ fault. fault ≡ LineFault.BadLine → list_in (words_of text.now) ≡ None) }
{
    let items = read_items(alloc, text)?;
    match AddrList::distinct(alloc, items.as_slice()) {
        Ok(list) => Ok(list),
        Err(_) => Err(LineFault::OutOfMemory),
    }
}

/// All addresses of a line, at most 1,024.
fn read_items(alloc: Global, text: &[u8]) -> Result<Vec<Weighted>, LineFault>
    ensures items { IfOk result (λ items. addrs_in (words_of text.now) ≡ Some items.items) }
    ensures few { IfOk result (λ items. length items.items ≤ 1024) }
    ensures words { IfOk result (λ items. length (words_of text.now) ≤ 1024) }
    ensures weights { IfOk result (λ items. HaveWeights items.items) }
    ensures bad { IfErr result
        (λ fault. fault ≡ LineFault.BadLine → (1024 < length (words_of text.now))
        ⊎ (addrs_in (words_of text.now) ≡ None)) }
{
    let mut items = Vec::new(alloc);
    let mut rest = without_gap(text);
    while !rest.is_empty() {
        let (word, more) = cut_word(rest);
        if items.len() == MOST_ADDRS {
            return Err(LineFault::BadLine);
        }
        let Some(item) = read_weighted(word) else {
            return Err(LineFault::BadLine);
        };
        let Ok(()) = items.push(item) else {
            return Err(LineFault::OutOfMemory);
        };
        rest = more;
    }
    Ok(items)
}
