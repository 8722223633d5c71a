//! A new cell.
ghost use Rattle.std.specs.Prelude.{◌≡◌, ◌+◌, ◌<◌, ◌^◌, [], ◌∷◌, None, Some, length, drop, IfOk};
ghost use Rattle.std.specs.Prelude.{MatchResult};
ghost use Rattle.left_right.specs.Sides.{view};
ghost use Rattle.snap_cell.specs.Rule.{IsFirst, Opens, Stands};
ghost use Rattle.snap_cell.specs.Origins.{origin_at};
ghost use Rattle.snap_cell.specs.Views.{EachNew, EachThere};
ghost use Rattle.snap_cell.specs.Writers.{published_by, cell_written, opening_written};
ghost use Rattle.snap_cell.specs.Writers.{reader_count, IsReadable};

use crate::history::Prefix;
use crate::kept::{Entry, Kept, Origin};
use crate::rule::{Desk, Door, Names, OneList, View, show_pending};
use crate::trail::Trail;
use crate::{Mem, Operation, Published, Reader, Writer};
use left_right::{reader, writer};
use std::alloc::{AllocError, Global};
use std::snapshot::Snapshot;
use std::sync::Wait;
use std::thread;

// A place for one more reader. It asks again where a place is in use for a moment.
fn new_place<V: Published<O>, O: Operation, R: Wait>(
    rt: &R,
    desk: &Desk<V, O>,
) -> reader::Reader<Kept<V, O>, View<V, O>, OneList>
    ensures { (view result.place ≡ None) × (result.place.table_id ≡ desk.now.desk.place.table_id) }
{
    for _ in rt.forever() {
        match desk.factory().reader() {
            Ok(reader) => return reader,
            Err(_) => thread::yield_now(),
        }
    }
    unreachable!()
}

// A reader's place that knows of which cell it is.
fn new_door<V: Published<O>, O: Operation, R: Wait>(rt: &R, desk: &mut Desk<V, O>) -> Door<V, O>
    ensures door { view result.reader.place ≡ view desk.old.desk.place }
    ensures shown { desk.new.desk.shown ≡ desk.old.desk.shown }
    ensures pending { (desk.new.log ≡ desk.old.log) × (desk.new.behind ≡ desk.old.behind) }
    ensures told { view desk.new.desk.place ≡ view desk.old.desk.place }
{
    let mut reader = new_place(rt, desk);
    reader.learn::<Names>(desk.tell::<Names>());
    Door { reader }
}

// Shows the copy that the opening entry leaves, after which the writer knows of which cell it is.
fn open_now<V: Published<O>, O: Operation, R: Wait>(
    desk: Desk<V, O>,
    rt: &R,
) -> (Desk<V, O>, Result<(), AllocError>)
    requires { Opens desk.desk.shown.value (drop desk.behind desk.log.items) }
    ensures { MatchResult result.1
        (λ _. Stands desk.desk.shown.value.origin desk.desk.shown.value.known
        result.0.desk.shown.value (view result.0.desk.place)
        × (drop result.0.behind result.0.log.items ≡ []))
        (λ _. result.0.desk.shown.value ≡ desk.desk.shown.value) }
{
    show_pending(desk, rt)
}

// The two copies. What a first publish has to allocate is allocated here.
fn new_desk<V: Published<O>, O: Operation, R: Wait>(
    alloc: Global,
    rt: &R,
    first: Kept<V, O>,
    second: Kept<V, O>,
) -> Mem<Desk<V, O>>
    requires first { IsFirst first }
    requires alike { (V.state second.value ≡ V.state first.value) × (second.origin ≡ first.origin)
        × (second.known ≡ first.known) }
    ensures { IfOk result
        (λ d. Stands first.origin first.known d.desk.shown.value (view d.desk.place)
        × (drop d.behind d.log.items ≡ [])) }
{
    if first.origin.readers == u32::MAX {
        return Err(AllocError);
    }
    let entry = Entry {
        operation: None,
        known: first.known.again(),
    };
    let places = first.origin.readers as usize + 1;
    let mut desk: Desk<V, O> = writer::Writer::new(alloc, first, second, places)?;
    match desk.append(entry) {
        Err(_) => {
            desk.take(rt);
            Err(AllocError)
        }
        Ok(()) => match open_now(desk, rt) {
            (desk, Ok(())) => Ok(desk),
            (desk, Err(_)) => {
                desk.take(rt);
                Err(AllocError)
            }
        },
    }
}

// Readers that have seen nothing, numbered from 0, which have no place yet.
fn new_readers<V: Published<O>, O: Operation, Q>(
    alloc: Global,
    first: &V,
    known: &Prefix<O>,
    count: u32,
) -> Mem<Vec<Reader<V, O, Q>>>
    requires { known.now.seen.log ≡ [] }
    ensures { IfOk result
        (λ v. (length v.items ≡ count) × EachNew (origin_at first.now count known.now) v.items) }
{
    let mut all = Vec::new(alloc);
    for number in 0..count {
        all.push(Reader {
            door: None,
            origin: Origin::of(first, count, known),
            known: known.again(),
            items: Snapshot::of(&Trail::Empty),
            number,
            refused: 0,
        })?;
    }
    Ok(all)
}

// Gives each reader its place.
fn open_doors<V: Published<O>, O: Operation, Q, R: Wait>(
    rt: &R,
    desk: &mut Desk<V, O>,
    all: &mut Vec<Reader<V, O, Q>>,
)
    requires new { EachNew desk.old.desk.shown.value.origin all.old.items }
    requires told { view desk.old.desk.place ≡ Some desk.old.desk.shown.value.origin }
    ensures new { EachNew desk.old.desk.shown.value.origin all.new.items }
    ensures count { length all.new.items ≡ length all.old.items }
    ensures there { EachThere all.new.items }
    ensures shown { desk.new.desk.shown ≡ desk.old.desk.shown }
    ensures pending { (desk.new.log ≡ desk.old.log) × (desk.new.behind ≡ desk.old.behind) }
    ensures told { view desk.new.desk.place ≡ view desk.old.desk.place }
{
    for reader in all.iter_mut() {
        reader.door = Some(new_door(rt, desk));
    }
}

/// A new cell: its writer, and its readers, numbered from 0. Want of memory is the one error; the
/// cell then never was.
pub fn start<V: Published<O>, O: Operation, Q, R: Wait>(
    rt: &R,
    alloc: Global,
    first: V,
    second: V,
    readers: u32,
) -> Mem<(Writer<V, O>, Vec<Reader<V, O, Q>>)>
    requires alike { V.state first ≡ V.state second }
    requires some { 0 < readers }
    ensures writer { IfOk result
        (λ t. (published_by t.0 ≡ []) × (opening_written t.0 ≡ first)
        × (reader_count t.0 ≡ readers)) }
    ensures readers { IfOk result
        (λ t. (length t.1.items ≡ readers) × EachNew (cell_written t.0) t.1.items) }
    ensures there { IfOk result (λ t. IsReadable t.0 × EachThere t.1.items) }
{
    let (head, known) = Prefix::start();
    let mut all = new_readers(alloc, &first, &known, readers)?;
    let origin = Origin::of(&first, readers, &known);
    let kept = (
        Origin::of(&first, readers, &known),
        Origin::of(&first, readers, &known),
    );
    let first = Kept {
        value: first,
        origin: kept.0,
        known: known.again(),
    };
    let second = Kept {
        value: second,
        origin: kept.1,
        known: known.again(),
    };
    let mut desk = new_desk(alloc, rt, first, second)?;
    open_doors(rt, &mut desk, &mut all);
    let door = new_door(rt, &mut desk);
    let writer = Writer {
        desk: Some(desk),
        head,
        door: Some(door),
        origin,
        known,
        stuck: false,
    };
    Ok((writer, all))
}
