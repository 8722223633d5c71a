//! The lines of an access log.
ghost use Rattle.std.specs.Prelude.{◌≡◌, option_map};
ghost use Rattle.std.specs.Option.{option_copied};
ghost use Rattle.exchange_record.specs.Told.{told_of};
ghost use Rattle.worker_record.specs.Recording.{IsEntryOf, IsLogged, words_of_head, words_of_line};

use crate::Bytes;
use access_log::{Entry, RequestLine, write_line};
use exchange_record::Exchange;
use exchange_tally::Timed;
use http_wire::Head;
use line_log::Journal;
use std::alloc::Global;

/// An access log, as one worker writes it: its journal, and room for a line.
pub(crate) struct AccessLog<L> {
    pub(crate) journal: L,
    line: Bytes,
}

impl<L: Drop> Drop for AccessLog<L> {
    fn drop(self) {
        let AccessLog { journal, line } = self;
        drop(journal);
        drop(line);
    }
}

impl<L: Journal> AccessLog<L> {
    /// A log whose lines go to this journal. It takes no memory.
    pub(crate) fn of(alloc: Global, journal: L) -> AccessLog<L>
        ensures { result.journal ≡ journal }
    {
        AccessLog {
            journal,
            line: Vec::new(alloc),
        }
    }

    /// Its journal, as the lines left it.
    pub(crate) fn into_journal(self) -> L
        ensures { result ≡ self.journal }
    {
        let AccessLog { journal, line: _ } = self;
        journal
    }

    /// Appends the line of an exchange, or loses it.
    pub(crate) fn append(&mut self, exchange: &Exchange<'_>, timed: &Timed)
        requires { timed.now.done ≡ exchange.now.done }
        ensures { IsLogged (told_of exchange.now) timed.now (L.log self.old.journal)
            (L.log self.new.journal) }
    {
        let entry = entry_of(exchange, timed);
        match write_line(&entry, &mut self.line) {
            Ok(()) => self.journal.append(self.line.as_slice(), timed.ended),
            Err(_) => self.journal.lose(),
        }
    }
}

/// What an exchange was, as its line says it.
fn entry_of<'a>(exchange: &Exchange<'a>, timed: &Timed) -> Entry<'a>
    requires { timed.now.done ≡ exchange.now.done }
    ensures { IsEntryOf (told_of exchange.now) timed.now result }
{
    let done = timed.done;
    Entry {
        moment: timed.begun,
        client: exchange.client,
        request: request_of(exchange.head),
        answer: done.answer,
        bytes: done.reply_bytes,
        milliseconds: timed.lasted(),
        name: exchange.name,
        replica: done.replica,
        broken: done.broken,
    }
}

/// The request line of a head, if one was read.
fn request_of<'a>(head: Option<&'a Head>) -> Option<RequestLine<'a>>
    ensures { option_map words_of_line result
        ≡ option_map words_of_head (option_copied head.entry) }
{
    match head {
        Some(head) => Some(RequestLine {
            method: head.method.as_str().as_bytes(),
            target: head.target.bytes(),
            version: head.version,
        }),
        None => None,
    }
}
