//! The play of a script, line by line.
ghost use Rattle.std.specs.Prelude.{◌≡◌, ◌≤◌, ◌++◌, [], List, ℕ, length, IfOk, OnOk, OnErr};
ghost use Rattle.line_base.specs.Counts.{Rose};
ghost use Rattle.machine.specs.Code.{settings_of, state_of};
ghost use Rattle.machine.specs.State.{opening};
ghost use Rattle.script.specs.Carried.{script_settings};
ghost use Rattle.script.specs.Line.{line_value};
ghost use Rattle.script.specs.Played.{Answers, Plays, Finishes, Flushes};
ghost use Rattle.script.specs.Written.{AppendsFront};

use crate::answers::{append_answer, append_bad_line};
use crate::carried::{carry_out, script_settings};
use crate::ends::write_all;
use crate::line::read_line;
use crate::words::LineFault;
use crate::{Bytes, Mem};
use line_base::{Failed, Sink};
use machine::{Settings, State};
use std::alloc::{AllocError, Global};
use std::sync::ledger::Ledger;
use step_count::Steps;
use text_parts::cut_line;

/// Replies are written once there are so many bytes of them.
const FLUSH: usize = 65_536;

/// Whether a script goes on behind a line.
#[derive(Clone, Copy)]
pub enum Turn {
    /// It goes on.
    Next,
    /// The line is bad, and ends it.
    Stop,
}

/// How the play of a script ends.
#[derive(Clone, Copy)]
pub enum PlayEnd {
    /// Every line was answered.
    Done,
    /// A line was bad.
    BadLine,
    /// A write failed.
    WriteFault,
    /// There was no memory.
    OutOfMemory,
}

/// Carries out one line, and puts what is answered behind the replies. An `Err` leaves the replies
/// as they were.
fn answer<L: Ledger>(
    alloc: Global,
    settings: &Settings,
    line: &[u8],
    number: u64,
    state: &mut State,
    replies: &mut Bytes,
    steps: &mut Steps<L>,
) -> Mem<Turn>
    requires { settings_of settings.now ≡ script_settings }
    ensures ok { IfOk result (λ turn. (piece : List ℕ) ×
        (replies.new.items ≡ replies.old.items ++ piece) × Answers (line_value line.now)
        (state_of state.old) number (state_of state.new) piece turn) }
    ensures err { OnErr result (replies.new.items ≡ replies.old.items) }
{
    match read_line(alloc, line) {
        Ok(line) => {
            let said = carry_out(alloc, settings, state, line, steps)?;
            append_answer(alloc, said, replies)?;
            Ok(Turn::Next)
        }
        Err(LineFault::BadLine) => {
            append_bad_line(alloc, number, replies)?;
            Ok(Turn::Stop)
        }
        Err(LineFault::OutOfMemory) => Err(AllocError),
    }
}

/// Writes the last replies, and ends so, unless the write fails.
fn finish<K: Sink>(sink: &mut K, replies: &[u8], end: PlayEnd) -> PlayEnd
    ensures finishes { Finishes replies.now end (K.output sink.old).held (K.output sink.new).held
        (K.output sink.old).faults (K.output sink.new).faults result }
    ensures kept { (result ≡ PlayEnd.WriteFault → ⊥) → (K.output sink.new).faults
        ≡ (K.output sink.old).faults }
    ensures later { (K.output sink.old).faults ≤ (K.output sink.new).faults }
{
    match write_all(sink, replies) {
        Ok(()) => end,
        Err(_) => PlayEnd::WriteFault,
    }
}

/// Writes the replies where there are many of them. At `Err` a front of them was written.
fn flush<K: Sink>(sink: &mut K, replies: &mut Bytes) -> Result<(), Failed>
    ensures ok { OnOk result (Flushes replies.old.items replies.new.items (K.output sink.old).held
        (K.output sink.new).held) }
    ensures err { OnErr result (AppendsFront (K.output sink.old).held (K.output sink.new).held
        replies.old.items) }
    ensures cause { OnErr result (Rose (K.output sink.old).faults (K.output sink.new).faults) }
    ensures kept { OnOk result ((K.output sink.new).faults ≡ (K.output sink.old).faults) }
    ensures later { (K.output sink.old).faults ≤ (K.output sink.new).faults }
{
    if replies.len() < FLUSH {
        return Ok(());
    }
    write_all(sink, replies.as_slice())?;
    replies.clear();
    Ok(())
}

/// Carries out the lines of a script in order on a new state, and writes their replies, up to the
/// first line that is bad. Replies are written once 65,536 bytes of them wait, and at the end.
pub fn play<K: Sink, L: Ledger>(
    alloc: Global,
    script: &[u8],
    sink: &mut K,
    steps: &mut Steps<L>,
) -> PlayEnd
    requires { length script.now ≤ 67108864 }
    ensures played { Plays script.now (K.output sink.old).held (K.output sink.new).held result }
    ensures cause { result ≡ PlayEnd.WriteFault → Rose (K.output sink.old).faults
        (K.output sink.new).faults }
    ensures kept { (result ≡ PlayEnd.WriteFault → ⊥) → (K.output sink.new).faults
        ≡ (K.output sink.old).faults }
    ensures later { (K.output sink.old).faults ≤ (K.output sink.new).faults }
{
    let Ok(settings) = script_settings(alloc) else {
        return PlayEnd::OutOfMemory;
    };
    let Ok(mut state) = State::start(alloc) else {
        drop(settings);
        return PlayEnd::OutOfMemory;
    };
    let end = play_on(alloc, &settings, &mut state, script, sink, steps);
    drop(state);
    drop(settings);
    end
}

/// Carries out the lines of a script in order on the state in which nothing is there.
fn play_on<K: Sink, L: Ledger>(
    alloc: Global,
    settings: &Settings,
    state: &mut State,
    script: &[u8],
    sink: &mut K,
    steps: &mut Steps<L>,
) -> PlayEnd
    requires few { length script.now ≤ 67108864 }
    requires settings { settings_of settings.now ≡ script_settings }
    requires state { state_of state.old ≡ opening }
    ensures played { Plays script.now (K.output sink.old).held (K.output sink.new).held result }
    ensures cause { result ≡ PlayEnd.WriteFault → Rose (K.output sink.old).faults
        (K.output sink.new).faults }
    ensures kept { (result ≡ PlayEnd.WriteFault → ⊥) → (K.output sink.new).faults
        ≡ (K.output sink.old).faults }
    ensures later { (K.output sink.old).faults ≤ (K.output sink.new).faults }
{
    let mut replies: Bytes = Vec::new(alloc);
    let mut at = 0;
    let mut number = 1u64;
    while at < script.len() {
        let cut = cut_line(script, at);
        match answer(
            alloc,
            settings,
            &script[at..cut.stop],
            number,
            state,
            &mut replies,
            steps,
        ) {
            Ok(Turn::Next) => {}
            Ok(Turn::Stop) => return finish(sink, replies.as_slice(), PlayEnd::BadLine),
            Err(_) => return finish(sink, replies.as_slice(), PlayEnd::OutOfMemory),
        }
        let Ok(()) = flush(sink, &mut replies) else {
            return PlayEnd::WriteFault;
        };
        at = cut.next;
        number += 1;
    }
    finish(sink, replies.as_slice(), PlayEnd::Done)
}
