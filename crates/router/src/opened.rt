//! A router before it has a name.
ghost use Rattle.std.specs.Prelude.{◌≡◌, All, [], length};
ghost use Rattle.load_words.specs.Seats.{IsOf, IsUnused};
ghost use Rattle.snap_cell.specs.Views.{EachNew, EachThere};
ghost use Rattle.snap_cell.specs.Writers.{published_by, cell_written, opening_written};
ghost use Rattle.snap_cell.specs.Writers.{reader_count};
ghost use Rattle.router.specs.Values.{IsEmpty};

use crate::call::Call;
use crate::current::Current;
use crate::update::Update;
use load_words::{LoadSeat, Loads};
use snap_cell::{Reader, Writer};
use std::sync::ledger::Blank;

/// A router that has no name yet. [`Opened::named`] gives it one.
///
/// Contracts see which router it is as `beginning_of opened`. The name is a type, which says the
/// same, so it can be picked only once the router is there: by a call of a function that is generic
/// in it, with the router as an argument.
pub struct Opened {
    pub(crate) writer: Writer<Current, Update>,
    pub(crate) readers: Vec<Reader<Current, Update, Call>>,
    pub(crate) blank: Blank,
    pub(crate) loads: Loads,
    pub(crate) places: Vec<LoadSeat>,
    pub(crate) seats: u32,
    ghost new: { published_by writer ≡ [] },
    ghost empty: { IsEmpty (opening_written writer) },
    ghost each: { EachNew (cell_written writer) readers.items },
    ghost count: { (length readers.items ≡ seats) × (reader_count writer ≡ seats) },
    ghost parts: { blank.parts ≡ seats },
    ghost there: { EachThere readers.items },
    ghost words: { (length places.items ≡ seats) × All (IsOf loads) places.items },
    ghost unused: { All IsUnused places.items },
}
