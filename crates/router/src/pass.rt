//! What each caller has: its way to the shared value, and what it asked.
ghost use Rattle.std.specs.Prelude.{◌≡◌, ◌+◌, Some};
ghost use Rattle.std.specs.Coded.{Coded-set};
ghost use Rattle.load_words.specs.Seats.{words_of_seat};
ghost use Rattle.router_log.specs.Codes.{coded_settings};
ghost use Rattle.snap_cell.specs.Views.{cell_of, number_of, IsThere};
ghost use Rattle.router.specs.Standing.{Stands, Stands-prop};
ghost use Rattle.router.specs.Views.{BeganEmpty, settings_by, seen_by, items_by};

use crate::call::Call;
use crate::current::Current;
use crate::naming::Naming;
use crate::update::Update;
use load_words::LoadSeat;
use snap_cell::Reader;
use std::sync::ledger::Share;

/// One caller's way to the router. Contracts see its number (`number_in`), what it has seen of the
/// list of all operations (`seen_in`), its calls, each with its point in that list (`items_in`),
/// how often it was not let in (`refusals_in`), what it read of the load words (`reads_in`), which
/// slots it took (`taken_in`) and which one it holds (`slot_in`).
///
/// The lists exist in proofs alone. What runs is a place in the cell, a seat at the load words, and
/// a few numbers.
pub struct Pass<J: Naming> {
    pub(crate) reader: Reader<Current, Update, Call>,
    pub(crate) seat: LoadSeat,
    pub(crate) share: Share<J>,
    pub(crate) made: u64,
    pub(crate) kept: u64,
    pub(crate) place: u64,
    ghost of_router: { Some (cell_of reader) ≡ J.cell },
    ghost there: { IsThere reader },
    ghost of_words: { Some (words_of_seat seat) ≡ J.words },
    ghost empty: { BeganEmpty reader },
    ghost settings: { settings_by reader ≡ J.settings } by { Coded-set coded_settings _ _ },
    ghost stands: { Stands J.settings (number_of reader) (seen_by reader) (items_by reader) made
        kept place } by { Stands-prop _ _ _ _ _ _ _ },
    ghost counted: { share.amount ≡ made + kept },
    ghost one_part: { share.parts ≡ 1 },
}

impl<J: Naming> Drop for Pass<J> {
    fn drop(self) {
        let Pass {
            reader,
            seat,
            share,
            made: _,
            kept: _,
            place: _,
        } = self;
        drop(reader);
        drop(seat);
        drop(share);
    }
}

impl<J: Naming> Pass<J> {
    ghost use Rattle.std.specs.Prelude.{◌<◌, IfSome};
    ghost use Rattle.router_log.specs.Operation.{place_of};
    ghost use Rattle.router.specs.Passes.{number_in, seen_in, made_in, kept_in, refusals_in};
    ghost use Rattle.router.specs.Passes.{slot_in};

    /// What it is made of, but for its counts.
    pub(crate) fn into_parts(self) -> (Reader<Current, Update, Call>, LoadSeat, Share<J>)
        ensures { (result.0 ≡ self.reader) × (result.1 ≡ self.seat) × (result.2 ≡ self.share) }
    {
        let Pass {
            reader,
            seat,
            share,
            made: _,
            kept: _,
            place: _,
        } = self;
        (reader, seat, share)
    }

    /// Its number among the passes of its router, from 0. No call changes it.
    pub fn number(&self) -> u32
        ensures { result ≡ number_in self.now }
    {
        self.reader.number()
    }

    /// How many accepted changes it has seen.
    pub fn place(&self) -> u64
        ensures { result ≡ place_of (seen_in self.now) }
    {
        self.place
    }

    /// How many of its changes were accepted.
    pub fn made(&self) -> u64
        ensures { result ≡ made_in self.now }
    {
        self.made
    }

    /// How many of the delegations that it gave back are kept.
    pub fn kept(&self) -> u64
        ensures { result ≡ kept_in self.now }
    {
        self.kept
    }

    /// How often it was not let in, up to `u64::MAX`. It never falls.
    pub fn refused(&self) -> u64
        ensures { result ≡ refusals_in self.now }
    {
        self.reader.refused()
    }

    /// The slot that it holds, below 8,192.
    pub fn holds(&self) -> Option<u32>
        ensures slot { result ≡ slot_in self.now }
        ensures within { IfSome result (λ held. held < 8192) }
    {
        self.seat.holds()
    }
}
