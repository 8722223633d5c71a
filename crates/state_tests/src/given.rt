//! Paths and tables out of their texts, and changes, questions and picks out of the lines of
//! scripts that spell them.
ghost use Rattle.std.specs.Prelude.{IfOk};
ghost use Rattle.machine.specs.Code.{change_of};
ghost use Rattle.machine.specs.State.{IsSoundChange};
ghost use Rattle.script.specs.Said.{line_said, IsSoundLine};

use addr_book::Name;
use dtab_table::{Dtab, read_dtab};
use machine::{Ask, Change, Look};
use name_tree::{Path, read_path};
use script::{Line, read_line};
use std::alloc::Global;
use std::test::Fail;

/// The path of a text; the empty one where it has none.
pub(crate) fn path(alloc: Global, text: &str) -> Path {
    match read_path(alloc, text.as_bytes()) {
        Ok(path) => path,
        Err(_) => Path::new(alloc),
    }
}

/// The table of a text; the empty one where it has none.
pub(crate) fn table(alloc: Global, text: &[u8]) -> Dtab {
    match read_dtab(alloc, text) {
        Ok(dtab) => dtab,
        Err(_) => Dtab::empty(alloc),
    }
}

/// The change of what a line says.
fn change_in(said: Line) -> Result<Change, Fail>
    requires { IsSoundLine (line_said said) }
    ensures { IfOk result (λ change. IsSoundChange (change_of change)) }
{
    match said {
        Line::Change(change) => Ok(change),
        other => {
            drop(other);
            Err("no change".into())
        }
    }
}

/// The change of a line.
pub(crate) fn change(alloc: Global, line: &str) -> Result<Change, Fail>
    ensures { IfOk result (λ change. IsSoundChange (change_of change)) }
{
    match read_line(alloc, line.as_bytes()) {
        Ok(said) => change_in(said),
        Err(_) => Err("no line".into()),
    }
}

/// The question of a line; `addresses` are those of the service `web`, and `counts` how many there
/// are of each kind.
pub(crate) fn look(alloc: Global, line: &str) -> Result<Look, Fail> {
    if line == "counts" {
        return Ok(Look::Counts);
    }
    if line == "addresses" {
        return addresses(alloc);
    }
    match read_line(alloc, line.as_bytes()) {
        Ok(said) => look_in(said),
        Err(_) => Err("no line".into()),
    }
}

/// The question of what a line says.
fn look_in(said: Line) -> Result<Look, Fail> {
    match said {
        Line::Look(look) => Ok(look),
        other => {
            drop(other);
            Err("no question".into())
        }
    }
}

fn addresses(alloc: Global) -> Result<Look, Fail> {
    let service = Name::of(alloc, b"web")?;
    Ok(Look::Addrs { service })
}

/// The pick of a line.
pub(crate) fn ask(alloc: Global, line: &str) -> Result<Ask, Fail> {
    match read_line(alloc, line.as_bytes()) {
        Ok(said) => ask_in(said),
        Err(_) => Err("no line".into()),
    }
}

/// The pick of what a line says.
fn ask_in(said: Line) -> Result<Ask, Fail> {
    match said {
        Line::Ask(ask) => Ok(ask),
        other => {
            drop(other);
            Err("no pick".into())
        }
    }
}
