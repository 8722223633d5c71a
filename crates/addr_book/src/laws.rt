//! What holds of the slots of all books, and of all texts of hosts, ports and lines. The functions
//! do nothing: their contracts are the laws.
ghost use Rattle.text_parts.specs.Exact.{ComputesLines};
ghost use Rattle.addr_book.specs.Exact.{ComputesAddrs, ComputesBlanks, ComputesHosts};
ghost use Rattle.addr_book.specs.Exact.{ComputesPorts};
ghost use Rattle.addr_book.specs.Laws.{HasOwnSlots, SlotsStay};
ghost use Rattle.addr_book.specs.Seated.{IsSeated};

use crate::book::Book;
use name_tree::computed_weights_are_exact;
use text_parts::lines_are_exact;

/// Two addresses of a book never share a slot.
pub fn slots_are_apart(book: &Book)
    ensures { HasOwnSlots book.now }
{
    book.has_own_slots();
}

/// Exactly the addresses that some service has have a slot, and there are at most 8,192 of them.
pub fn addresses_are_seated(book: &Book)
    ensures { IsSeated book.now }
{
    book.is_seated();
}

/// Whatever is set or dropped, an address that some service still has keeps its slot.
pub fn slots_stay()
    ensures { SlotsStay }
{}

/// The hosts and ports that `specs/Addr.antt` computes from texts, and the lines of address files
/// that `specs/FileLine.antt` does, are those of the grammar in `specs/AddrGrammar.antt`, and no
/// others.
pub fn computed_lines_are_exact()
    ensures lines { ComputesLines }
    ensures hosts { ComputesHosts }
    ensures ports { ComputesPorts }
    ensures blanks { ComputesBlanks }
    ensures addrs { ComputesAddrs }
{
    lines_are_exact();
    computed_weights_are_exact();
}
