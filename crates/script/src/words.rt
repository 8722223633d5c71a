//! The words of a script's line, and what they stand for.
ghost use Rattle.std.specs.Prelude.{◌≡◌, None, Some, MatchResult, IfOk, IfErr, IfSome};
ghost use Rattle.std.specs.Prelude.{option_map};
ghost use Rattle.std.specs.Option.{option_and_then};
ghost use Rattle.text_parts.specs.Words.{is_empty, single_word, word_of};
ghost use Rattle.addr_book.specs.Addr.{port_value};
ghost use Rattle.addr_book.specs.AddrList.{IsWeight};
ghost use Rattle.addr_book.specs.Name.{name_of};
ghost use Rattle.name_tree.specs.Computed.{path_of};
ghost use Rattle.dtab_table.specs.Computed.{table_of};
ghost use Rattle.dtab_table.specs.Dtab.{rules_of};
ghost use Rattle.dtab_table.specs.TableCanon.{AreSoundRules};
ghost use Rattle.script.specs.Words.{addr_in, behind, drop_blanks, version_of, weighted_in};

use addr_book::{Addr, Name, NameFault, Weighted, read_ip, read_line_weight, read_port};
use dtab_table::{Dtab, DtabFault, read_dtab};
use name_tree::{Path, TextFault, is_blank_byte, read_path};
use std::alloc::Global;
use text_parts::{cut_at, read_number, single_word, split_word, without_gap};
use thiserror::Error;

/// Why a line was not read.
#[derive(Clone, Copy, Debug, PartialEq, Eq, Error)]
pub enum LineFault {
    /// It is no line of a script.
    #[error("the line is none of a script")]
    BadLine,
    /// There was no memory for what it says.
    #[error("out of memory")]
    OutOfMemory,
}

/// Whether a line has nothing but blanks.
pub(crate) fn is_blank_line(line: &[u8]) -> bool
    ensures { result ≡ is_empty (drop_blanks line.now) }
{
    for byte in line {
        if !is_blank_byte(*byte) {
            return false;
        }
    }
    true
}

/// The word that a text begins with, and what follows it without the gap between them.
pub(crate) fn cut_word(text: &[u8]) -> (&[u8], &[u8])
    ensures word { result.0.now ≡ word_of text.now }
    ensures behind { result.1.now ≡ behind text.now }
{
    let (word, rest) = split_word(text);
    (word, without_gap(rest))
}

/// The one word of a text, between gaps. The text of gaps alone has the empty word.
pub(crate) fn only_word(text: &[u8]) -> Result<&[u8], LineFault>
    ensures word { IfOk result (λ word. single_word text.now ≡ Some word.now) }
    ensures more { IfErr result (λ fault. single_word text.now ≡ None) }
{
    match single_word(text) {
        Some(word) => Ok(word),
        None => Err(LineFault::BadLine),
    }
}

/// The name that a word is.
pub(crate) fn read_name(alloc: Global, word: &[u8]) -> Result<Name, LineFault>
    ensures { MatchResult result (λ name. name_of word.now ≡ Some name)
        (λ fault. fault ≡ LineFault.BadLine → name_of word.now ≡ None) }
{
    match Name::of(alloc, word) {
        Ok(name) => Ok(name),
        Err(NameFault::NotName) => Err(LineFault::BadLine),
        Err(NameFault::OutOfMemory) => Err(LineFault::OutOfMemory),
    }
}

/// The path that a word is.
pub(crate) fn read_path_word(alloc: Global, word: &[u8]) -> Result<Path, LineFault>
    ensures { MatchResult result (λ path. path_of word.now ≡ Some path)
        (λ fault. fault ≡ LineFault.BadLine → path_of word.now ≡ None) }
{
    match read_path(alloc, word) {
        Ok(path) => Ok(path),
        Err(TextFault::OutOfMemory) => Err(LineFault::OutOfMemory),
        Err(_) => Err(LineFault::BadLine),
    }
}

/// The table that a text is. The empty text is the table without entries.
pub(crate) fn read_table(alloc: Global, text: &[u8]) -> Result<Dtab, LineFault>
    ensures table { MatchResult result (λ dtab. table_of text.now ≡ Some (rules_of dtab))
        (λ fault. fault ≡ LineFault.BadLine → table_of text.now ≡ None) }
    ensures sound { IfOk result (λ dtab. AreSoundRules (rules_of dtab)) }
{
    if text.is_empty() {
        return Ok(Dtab::empty(alloc));
    }
    match read_dtab(alloc, text) {
        Ok(dtab) => Ok(dtab),
        Err(DtabFault::OutOfMemory) => Err(LineFault::OutOfMemory),
        Err(_) => Err(LineFault::BadLine),
    }
}

/// The version that a word says a namespace must have, none for `*`.
pub(crate) fn read_version(word: &[u8]) -> Option<Option<u64>>
    ensures { result ≡ version_of word.now }
{
    if word == b"*".as_slice() {
        return Some(None);
    }
    match read_number(word) {
        Some(version) => Some(Some(version)),
        None => None,
    }
}

/// The port of a text, if there is one.
fn port_of(text: Option<&[u8]>) -> Option<u16>
    ensures { result ≡ option_and_then port_value (option_map (λ text. text.now) text.entry) }
{
    read_port(text?)
}

/// The address that a word `host:port` is. `None` where it is none.
pub fn read_addr(word: &[u8]) -> Option<Addr>
    ensures { result ≡ addr_in word.now }
{
    let (host, port) = cut_at(word, b':');
    match (read_ip(host), port_of(port)) {
        (Some(ip), Some(port)) => Some(Addr { ip, port }),
        _ => None,
    }
}

/// The address that a word is, with the weight behind its `*`, which is one where it has none.
pub(crate) fn read_weighted(word: &[u8]) -> Option<Weighted>
    ensures value { result ≡ weighted_in word.now }
    ensures weight { IfSome result (λ item. IsWeight item.weight) }
{
    let (addr, weight) = cut_at(word, b'*');
    match (read_addr(addr), read_line_weight(weight)) {
        (Some(addr), Some(weight)) => Some(Weighted { addr, weight }),
        _ => None,
    }
}
