//! What is told on standard error of a table that is looked through: what its text shows beside
//! which of its entries are never asked. It has no part in the status.
use dtab_check::{Note, NoteList, Remark, notes_of};
use dtab_table::read_dtab;
use std::alloc::Global;

/// Tells what else a table shows: in one line how many entries lead to services, and in a line each
/// which have a branch of weight 0 and which are the same as a later one. Entries are counted from
/// 1, as `lint` counts them. Of a text that is no table nothing is told.
pub(crate) fn tell_notes<R: Eprint + AllocGlobal>(rt: &R, text: &[u8]) {
    if let Some(notes) = read_notes(rt.alloc(), text) {
        tell_of_services(rt, notes.items());
        for note in notes.items() {
            tell_note(rt, note);
        }
    }
}

/// The notes on the table of a text, if it is one and there is memory for them.
fn read_notes(alloc: Global, text: &[u8]) -> Option<NoteList> {
    let dtab = read_dtab(alloc, text).ok()?;
    notes_of(alloc, &dtab).ok()
}

/// Tells how many entries lead to services, and which the first is, if there is one.
fn tell_of_services<R: Eprint>(rt: &R, notes: &[Note]) {
    let mut first = 0u64;
    let mut count = 0u64;
    for note in notes {
        if note.remark == Remark::LeadsToServices {
            if count == 0 {
                first = number_of(note.entry);
            }
            count = count.saturating_add(1);
        }
    }
    let _ = match count {
        0 => Ok(()),
        1 => eprintln!(rt;
            "linker: entry {first} leads to services (/#/io.l5d.fs), which are not looked at"
        ),
        _ => eprintln!(rt;
            "linker: {count} entries from {first} on lead to services (/#/io.l5d.fs), not looked at"
        ),
    };
}

/// Tells that an entry has a branch of weight 0, or that it is the same as a later one.
fn tell_note<R: Eprint>(rt: &R, note: &Note) {
    let number = number_of(note.entry);
    match note.remark {
        Remark::LeadsToServices => {}
        Remark::HasIdleBranch => {
            let _ = eprintln!(rt;
                "linker: entry {number} has a branch of weight 0, which is never asked"
            );
        }
        Remark::IsRepeatedAt(later) => {
            let later = number_of(later);
            let _ = eprintln!(rt; "linker: entry {number} is the same as entry {later}");
        }
    }
}

/// The number of the entry at a position, counted from 1.
fn number_of(entry: u32) -> u64 {
    u64::from(entry) + 1
}
