//! What a line of an address file says.
ghost use Rattle.std.specs.Prelude.{◌≡◌, option_map, IfSome};
ghost use Rattle.std.specs.Option.{option_and_then};
ghost use Rattle.text_parts.specs.Words.{single_word};
ghost use Rattle.addr_book.specs.Addr.{addr_of, host_value, port_value};
ghost use Rattle.addr_book.specs.AddrList.{IsWeight};
ghost use Rattle.addr_book.specs.FileLine.{HasWeight, line_value, line_weight};

use crate::addr::{Addr, ONE_WEIGHT, Weighted};
use crate::host::{read_ip, read_port};
use name_tree::read_weight;
use text_parts::{cut_at, single_word, split_word, without_gap};

/// What a line of an address file says.
#[derive(Clone, Copy)]
pub(crate) enum FileLine {
    /// Nothing: it has only spaces and tabs.
    Blank,
    /// An address with its weight.
    Item(Weighted),
    /// It is neither.
    Bad,
}

/// Reads a line, without its line feed: a host, spaces or tabs, a port, and then `*` and a weight
/// or nothing; or spaces and tabs alone.
pub(crate) fn read_line(line: &[u8]) -> FileLine
    ensures line { result ≡ line_value line.now }
    ensures weight { HasWeight result }
{
    let words = without_gap(line);
    if words.is_empty() {
        return FileLine::Blank;
    }
    let (host, rest) = split_word(words);
    let (port, weight) = cut_at(rest, b'*');
    match (read_addr(host, port), read_line_weight(weight)) {
        (Some(addr), Some(weight)) => FileLine::Item(Weighted { addr, weight }),
        _ => FileLine::Bad,
    }
}

/// The address of a host, and of a text with a port between gaps.
fn read_addr(host: &[u8], text: &[u8]) -> Option<Addr>
    ensures { result ≡ addr_of (host_value host.now)
        (option_and_then port_value (single_word text.now)) }
{
    match (read_ip(host), read_port(single_word(text)?)) {
        (Some(ip), Some(port)) => Some(Addr { ip, port }),
        _ => None,
    }
}

/// The weight behind a `*`, between spaces and tabs, in millionths and not 0; one where there is no
/// `*`. `None` where the text is none.
pub fn read_line_weight(text: Option<&[u8]>) -> Option<u64>
    ensures weight { result ≡ line_weight (option_map (λ text. text.now) text.entry) }
    ensures range { IfSome result IsWeight }
{
    let Some(text) = text else {
        return Some(ONE_WEIGHT);
    };
    match read_weight(single_word(text)?) {
        Some(0) | None => None,
        Some(weight) => Some(weight),
    }
}
