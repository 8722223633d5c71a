//! The words of a line.
ghost use Rattle.std.specs.Prelude.{◌≡◌, ◌≤◌, ◌++◌, length, take, drop, option_map};
ghost use Rattle.std.specs.Prelude.{OnErr, OnOk};
ghost use Rattle.text_parts.specs.Words.{before_byte, behind_byte, behind_word, drop_gaps, is_gap};
ghost use Rattle.text_parts.specs.Words.{single_word, spaced, word_of};

use crate::{Bytes, Mem};

/// A text without the spaces and tabs that it begins with.
pub fn without_gap(text: &[u8]) -> &[u8]
    ensures { result.now ≡ drop_gaps text.now }
{
    let end = gap_end(text);
    &text[end..]
}

/// The word that a text begins with, to the first space or tab, and what follows it from there on.
pub fn split_word(text: &[u8]) -> (&[u8], &[u8])
    ensures word { result.0.now ≡ word_of text.now }
    ensures rest { result.1.now ≡ behind_word text.now }
{
    let end = word_end(text);
    text.split_at(end)
}

/// The one word of a text, between spaces and tabs. `None` where there are more. A text without a
/// word has the empty one.
pub fn single_word(text: &[u8]) -> Option<&[u8]>
    ensures { option_map (λ word. word.now) result ≡ single_word text.now }
{
    let (word, rest) = split_word(without_gap(text));
    if without_gap(rest).is_empty() {
        Some(word)
    } else {
        None
    }
}

/// The bytes before the first of a value, and those behind it, if there is one.
pub fn cut_at(text: &[u8], mark: u8) -> (&[u8], Option<&[u8]>)
    ensures before { result.0.now ≡ before_byte mark text.now }
    ensures behind { option_map (λ rest. rest.now) result.1 ≡ behind_byte mark text.now }
{
    for (at, byte) in text.iter().enumerate() {
        if *byte == mark {
            return (&text[..at], Some(&text[at + 1..]));
        }
    }
    (text, None)
}

/// Puts a space and a text behind some bytes, unless the text is empty. An `Err` may leave the
/// space there; what stood before stays.
pub fn append_spaced(text: &[u8], out: &mut Bytes) -> Mem<()>
    ensures ok { OnOk result (out.new.items ≡ out.old.items ++ spaced text.now) }
    ensures err { OnErr result (take (length out.old.items) out.new.items ≡ out.old.items) }
{
    if text.is_empty() {
        return Ok(());
    }
    out.push(b' ')?;
    out.extend_from_slice(text)
}

/// A space or a tab.
fn is_gap_byte(byte: u8) -> bool
    ensures { result ≡ is_gap byte }
{
    byte == b' ' || byte == b'\t'
}

/// Where the gap ends that a text begins with.
fn gap_end(text: &[u8]) -> usize
    ensures rest { drop result text.now ≡ drop_gaps text.now }
    ensures within { result ≤ length text.now }
{
    for (at, byte) in text.iter().enumerate() {
        if !is_gap_byte(*byte) {
            return at;
        }
    }
    text.len()
}

/// Where the word ends that a text begins with.
fn word_end(text: &[u8]) -> usize
    ensures word { take result text.now ≡ word_of text.now }
    ensures rest { drop result text.now ≡ behind_word text.now }
    ensures within { result ≤ length text.now }
{
    for (at, byte) in text.iter().enumerate() {
        if is_gap_byte(*byte) {
            return at;
        }
    }
    text.len()
}
