//! Address files: the addresses of a service, line by line.
ghost use Rattle.std.specs.Prelude.{◌≡◌, IfOk, MatchResult};
ghost use Rattle.addr_book.specs.AddrList.{HaveWeights};
ghost use Rattle.addr_book.specs.AddrFile.{IsFileAnswer, IsLinesAnswer, file_value};

use crate::addr::Weighted;
use crate::addr_list::{AddrList, MOST_ADDRS};
use crate::file_line::{FileLine, read_line};
use std::alloc::{AllocError, AllocFailed, Global};
use text_parts::cut_line;
use thiserror::Error;

/// Why a text is no address file.
#[derive(Clone, Copy, Debug, PartialEq, Eq, Error)]
pub enum AddrFault {
    /// The first line, counted from 1, that is neither blank nor an address; a number above
    /// 4,294,967,295 is given as that.
    #[error("line {0} is no address")]
    BadLine(u32),
    /// It has so many lines with an address, which is more than 1,024.
    #[error("{0} addresses are too many")]
    TooMany(usize),
    /// There was no memory for the addresses.
    #[error("out of memory")]
    OutOfMemory,
}

impl From<AllocError> for AddrFault {
    ghost use Rattle.addr_book.specs.declared.addr_file.AddrFault.{AddrFault};

    ghost from_gives = { λ _ fault. fault ≡ AddrFault.OutOfMemory };

    fn from(_error: AllocError) -> AddrFault {
        AddrFault::OutOfMemory
    }
}

impl<T: Drop> From<AllocFailed<T>> for AddrFault {
    ghost use Rattle.addr_book.specs.declared.addr_file.AddrFault.{AddrFault};

    ghost from_gives = { λ _ fault. fault ≡ AddrFault.OutOfMemory };

    fn from(_error: AllocFailed<T>) -> AddrFault {
        AddrFault::OutOfMemory
    }
}

/// Reads an address file. A line is a host as [`read_ip`](crate::read_ip) has it, one or more
/// spaces or tabs, and a port as [`read_port`](crate::read_port) has it; then `*` and a weight as
/// [`read_weight`](name_tree::read_weight) has it, which is not 0, or nothing, which is the weight
/// 1. Spaces and tabs may stand round the `*` and at both ends, and a line of them alone is
/// skipped. Lines end with LF, which the last may lack, and a CR right before an LF is dropped. An
/// address that is repeated is kept once, at its first place and with the weight that it has there.
///
/// It looks at each byte a few times, takes memory for each line with an address, and for `n` of
/// them about `n log n` comparisons.
pub fn read_addrs(alloc: Global, text: &[u8]) -> Result<AddrList, AddrFault>
    ensures { IsFileAnswer (file_value text.now) result }
{
    let items = read_lines(alloc, text)?;
    if items.len() > MOST_ADDRS {
        return Err(AddrFault::TooMany(items.len()));
    }
    Ok(AddrList::distinct(alloc, items.as_slice())?)
}

/// The addresses of all lines with their weights, in order.
fn read_lines(alloc: Global, text: &[u8]) -> Result<Vec<Weighted>, AddrFault>
    ensures lines { IsLinesAnswer (file_value text.now) result }
    ensures weights { IfOk result (λ items. HaveWeights items.items) }
{
    let mut items = Vec::new(alloc);
    let mut line: usize = 0;
    let mut at = 0;
    while at < text.len() {
        let cut = cut_line(text, at);
        line += 1;
        match read_line(&text[at..cut.stop]) {
            FileLine::Blank => {}
            FileLine::Item(item) => items.push(item)?,
            FileLine::Bad => return Err(AddrFault::BadLine(line.min(u32::MAX as usize) as u32)),
        }
        at = cut.next;
    }
    Ok(items)
}
