//! How a router begins.
ghost use Rattle.std.specs.Prelude.{◌≡◌, ◌≤◌, [], All, Some, length, map, IfOk, vec_len};
ghost use Rattle.std.specs.Prelude.{vec_capacity};
ghost use Rattle.std.specs.Arc.{arc_value};
ghost use Rattle.load_words.specs.Seats.{IsUnused, words_of_seat};
ghost use Rattle.machine.specs.Code.{settings_of};
ghost use Rattle.router.specs.Opening.{IsReady, IsNamedBy, AreNew, beginning_of};
ghost use Rattle.router.specs.Update.{updates_in};

use crate::Mem;
use crate::call::Call;
use crate::current::Current;
use crate::desk::Desk;
use crate::naming::Naming;
use crate::opened::Opened;
use crate::pass::Pass;
use crate::router::Router;
use crate::update::Update;
use load_words::{LoadSeat, Loads};
use machine::Settings;
use snap_cell::{Reader, Writer, start};
use std::alloc::{AllocError, Global};
use std::sync::ledger::{Blank, Share};
use std::sync::{Arc, Mutex, Wait};

/// Two copies of the value in which nothing was changed and nothing is kept.
fn first_copies(alloc: Global, settings: Arc<Settings>) -> Mem<(Current, Current)>
    ensures first { IfOk result
        (λ both. (updates_in both.0.past.value ≡ [])
        × (arc_value both.0.settings ≡ arc_value settings)) }
    ensures second { IfOk result
        (λ both. (updates_in both.1.past.value ≡ [])
        × (arc_value both.1.settings ≡ arc_value settings)) }
{
    let first = Current::start(alloc, Arc::try_clone(&settings)?)?;
    match Current::start(alloc, settings) {
        Ok(second) => Ok((first, second)),
        Err(want) => {
            drop(first);
            Err(want)
        }
    }
}

/// A router for so many passes, 1 to 1,024. Nothing was changed in it, and nothing is kept.
pub fn open<R: Wait>(rt: &R, alloc: Global, settings: Settings, seats: u32) -> Mem<Opened>
    requires { (1 ≤ seats) × (seats ≤ 1024) }
    ensures seats { IfOk result (λ o. (beginning_of o).seats ≡ seats) }
    ensures settings { IfOk result (λ o. (beginning_of o).settings ≡ settings_of settings) }
{
    let settings = Arc::new(alloc, settings)?;
    let (loads, places) = load_words::start(alloc, seats)?;
    let (first, second) = first_copies(alloc, settings)?;
    let (writer, readers) = start::<Current, Update, Call, R>(rt, alloc, first, second, seats)?;
    Ok(Opened {
        writer,
        readers,
        blank: Blank::new(seats as u64),
        loads,
        places,
        seats,
    })
}

fn new_pass<J: Naming>(
    reader: Reader<Current, Update, Call>,
    seat: LoadSeat,
    share: Share<J>,
) -> Pass<J>
    requires reader { IsReady J.cell J.settings reader }
    requires seat { Some (words_of_seat seat) ≡ J.words }
    requires share { (share.parts ≡ 1) × (share.amount ≡ 0) }
    ensures { (result.reader ≡ reader) × (result.seat ≡ seat) }
{
    Pass {
        reader,
        seat,
        share,
        made: 0,
        kept: 0,
        place: 0,
    }
}

/// Room for so many passes, and for as many readers.
fn set_aside<J: Naming>(
    alloc: Global,
    count: usize,
) -> Mem<(Vec<Pass<J>>, Vec<Reader<Current, Update, Call>>)>
    ensures passes { IfOk result (λ r. (vec_len r.0 ≡ 0) × (count ≤ vec_capacity r.0)) }
    ensures readers { IfOk result (λ r. (vec_len r.1 ≡ 0) × (count ≤ vec_capacity r.1)) }
{
    let passes = Vec::with_capacity(alloc, count)?;
    let readers = Vec::with_capacity(alloc, count)?;
    Ok((passes, readers))
}

/// The passes, each with a reader and a part of the ledger. What is left of the ledger's share
/// comes back.
fn passes_of<J: Naming>(
    mut passes: Vec<Pass<J>>,
    mut all: Share<J>,
    readers: Vec<Reader<Current, Update, Call>>,
    mut places: Vec<LoadSeat>,
) -> (Vec<Pass<J>>, Share<J>)
    requires places { (vec_len places ≡ vec_len readers) × All
        (λ s. Some (words_of_seat s) ≡ J.words) places.items }
    requires unused { All IsUnused places.items }
    requires room { (vec_len passes ≡ 0) × (vec_len readers ≤ vec_capacity passes) }
    requires ready { All (IsReady J.cell J.settings) readers.items }
    requires parts { (all.parts ≡ vec_len readers) × (all.amount ≡ 0) }
    ensures readers { map (λ p. p.reader) result.0.items ≡ readers.items }
    ensures unused { All (λ p. IsUnused p.seat) result.0.items }
    ensures count { length result.0.items ≡ length readers.items }
    ensures rest { (result.1.parts ≡ 0) × (result.1.amount ≡ 0) }
{
    for reader in readers {
        let share = all.split_off(1, 0);
        let Some(seat) = places.pop() else {
            unreachable!()
        };
        passes.push_reserved(new_pass(reader, seat, share));
    }
    (passes, all)
}

impl Opened {
    /// The router and its passes, numbered from 0, under a name, which says which router it is.
    /// Want of memory is the one error; the router then never was.
    pub fn named<J: Naming, R: Wait>(self, rt: &R, alloc: Global) -> Mem<(Router<J>, Vec<Pass<J>>)>
        requires named { IsNamedBy (beginning_of self) J.Naming.own J.Ledger.own }
        ensures passes { IfOk result (λ r. AreNew r.1.items) }
        ensures count { IfOk result (λ r. length r.1.items ≡ J.seats) }
    {
        let Opened {
            writer,
            readers,
            blank,
            loads,
            places,
            seats,
        } = self;
        let Ok((passes, room)) = set_aside::<J>(alloc, readers.len()) else {
            match writer.close(rt, readers) {
                Ok(()) => return Err(AllocError),
                Err(_back) => unreachable!(),
            }
        };
        let (book, all) = blank.open::<J>();
        let (passes, rest) = passes_of(passes, all, readers, places);
        let desk = Desk {
            writer,
            place: 0,
            kept: 0,
            book,
            rest,
            room,
        };
        Ok((
            Router {
                desk: Mutex::new(desk),
                loads,
                seats,
            },
            passes,
        ))
    }
}
