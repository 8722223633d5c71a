//! Lines that are carried out on a state.
ghost use Rattle.std.specs.Prelude.{◌≡◌, IfOk, OnOk, OnErr, option_map};
ghost use Rattle.dtab_table.specs.Dtab.{rules_of};
ghost use Rattle.dtab_table.specs.TableCanon.{AreSoundRules};
ghost use Rattle.machine.specs.Code.{settings_of, state_of, change_of, reply_value};
ghost use Rattle.machine.specs.State.{reply_of, after, IsSoundChange};
ghost use Rattle.script.specs.Carried.{default_name, script_settings, table_change, table_said};
ghost use Rattle.script.specs.Carried.{line_answer, line_after};
ghost use Rattle.script.specs.Said.{line_said, said_of, IsSoundLine};

use crate::Mem;
use crate::line::Line;
use crate::reply::Said;
use addr_book::Name;
use choose_core::Limits;
use dtab_table::Dtab;
use machine::{Change, Reply, Settings, State};
use std::alloc::{AllocError, Global};
use std::sync::ledger::Ledger;
use step_count::Steps;

/// The namespace of scripts.
pub(crate) fn default_name(alloc: Global) -> Mem<Name>
    ensures { IfOk result (λ name. name ≡ default_name) }
{
    match Name::of(alloc, b"default") {
        Ok(name) => Ok(name),
        Err(_) => Err(AllocError),
    }
}

/// What the router of scripts is set up with: the namespace `default`, no configured table, and
/// replicas that are left out for 5,000 milliseconds after five failures in a row.
pub fn script_settings(alloc: Global) -> Mem<Settings>
    ensures { IfOk result (λ settings. settings_of settings ≡ script_settings) }
{
    let space = default_name(alloc)?;
    Ok(Settings {
        space,
        base: Dtab::empty(alloc),
        limits: Limits {
            failures: 5,
            backoff: 5_000,
        },
    })
}

/// Carries a line out: the answer to it, none for a line of blanks. An `Err` changes nothing.
///
/// A pick copies no table and no list of addresses.
pub fn carry_out<L: Ledger>(
    alloc: Global,
    settings: &Settings,
    state: &mut State,
    line: Line,
    steps: &mut Steps<L>,
) -> Mem<Option<Said>>
    requires { IsSoundLine (line_said line) }
    ensures said { IfOk result
        (λ said. option_map said_of said
        ≡ line_answer (settings_of settings.now) (state_of state.old) (line_said line)) }
    ensures ok { OnOk result
        (state_of state.new ≡ line_after (settings_of settings.now) (state_of state.old)
        (line_said line)) }
    ensures err { OnErr result (state_of state.new ≡ state_of state.old) }
{
    match line {
        Line::Blank => Ok(None),
        Line::Table(dtab) => Ok(Some(set_table(alloc, settings, state, dtab)?)),
        Line::Change(change) => {
            let applied = state.apply(alloc, settings, &change);
            drop(change);
            Ok(Some(Said::Reply(applied?)))
        }
        Line::Look(look) => {
            let answered = state.answer(alloc, settings, &look, steps);
            drop(look);
            Ok(Some(Said::Reply(answered?)))
        }
        Line::Ask(ask) => {
            let chosen = state.choose(alloc, settings, &ask, steps);
            drop(ask);
            Ok(Some(Said::Chosen(chosen?)))
        }
    }
}

/// Makes a table that of the namespace `default`, which need not be there. An `Err` changes
/// nothing.
fn set_table(alloc: Global, settings: &Settings, state: &mut State, dtab: Dtab) -> Mem<Said>
    requires { AreSoundRules (rules_of dtab) }
    ensures said { IfOk result
        (λ said. said_of said ≡ table_said
        (reply_of (settings_of settings.now) (state_of state.old)
        (table_change (state_of state.old) (rules_of dtab)))) }
    ensures ok { OnOk result
        (state_of state.new ≡ after (settings_of settings.now) (state_of state.old)
        (table_change (state_of state.old) (rules_of dtab))) }
    ensures err { OnErr result (state_of state.new ≡ state_of state.old) }
{
    let name = default_name(alloc)?;
    let change = table_change(state, name, dtab);
    let applied = state.apply(alloc, settings, &change);
    drop(change);
    Ok(said_of_table(applied?))
}

/// The change that makes a table that of the namespace `default`.
fn table_change(state: &State, name: Name, dtab: Dtab) -> Change
    requires name { name ≡ default_name }
    requires sound { AreSoundRules (rules_of dtab) }
    ensures change { change_of result ≡ table_change (state_of state.now) (rules_of dtab) }
    ensures sound { IsSoundChange (change_of result) }
{
    if state.store().get(&name).is_some() {
        Change::Put {
            name,
            version: None,
            dtab,
        }
    } else {
        Change::Create { name, dtab }
    }
}

/// How a `dtab` line is answered that has this reply.
fn said_of_table(reply: Reply) -> Said
    ensures { said_of result ≡ table_said (reply_value reply) }
{
    match reply {
        Reply::Version(..) => {
            drop(reply);
            Said::Ok
        }
        reply => Said::Reply(reply),
    }
}
