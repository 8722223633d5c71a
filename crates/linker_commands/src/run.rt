//! The program, from its words to its status.
ghost use Rattle.std.specs.Prelude.{◌≡◌, ◌<◌, ◌≤◌, ℕ, List, length, map, string_bytes, IfOk};
ghost use Rattle.line_base.specs.Files.{Filed};
ghost use Rattle.line_base.specs.Streams.{Input, Output};
ghost use Rattle.command_lines.specs.Check.{TellsPath};
ghost use Rattle.linker_commands.specs.Courses.{verdict_course};
ghost use Rattle.command_lines.specs.Lint.{TellsTablePath};
ghost use Rattle.linker_commands.specs.Outside.{RanOver};
ghost use Rattle.linker_commands.specs.Run.{Course, words_refused, script_read, output_of};
ghost use Rattle.linker_commands.specs.Run.{status_if, Reads, Checks, Makes, EndsCourse};
ghost use Rattle.linker_commands.specs.Told.{code_of, Tells};

use crate::follow::follow;
use crate::outside::Outside;
use crate::serve::serve;
use crate::{Bytes, Mem};
use command_lines::{CheckEnd, Command, Verdict, check, lint, read_words, storm_line, weave_line};
use line_base::{Clock, Folder, Listener, Net, Sink, Source};
use line_log::Journals;
use script::{PlayEnd, ReadEnd, play, read_all, write_all};
use std::alloc::Global;
use std::sync::Wait;
use std::sync::ledger::{Blank, Ledger};
use std::thread::Threads;
use step_count::Steps;

/// The most bytes of a script.
pub const MOST_SCRIPT: usize = 67_108_864;

/// How a run ends, which the process tells whoever started it.
#[derive(Clone, Copy, Debug, PartialEq, Eq)]
pub enum ExitStatus {
    /// All was done.
    Done = 0,
    /// The words fit no command.
    Words = 2,
    /// What was read is wrong: a line of the script, the configuration, a table or the file of a
    /// service; or there is no room for the services.
    Wrong = 3,
    /// The input or the folder could not be read.
    Read = 4,
    /// A write failed.
    Write = 5,
    /// An address can't be listened on, or a listener is broken.
    Net = 6,
    /// There was no memory, or not enough for a session of a router.
    Memory = 7,
    /// The script is too long.
    Long = 8,
}

impl ExitStatus {
    /// All was done with what is right, and else it is wrong.
    fn of_right(is_right: bool) -> ExitStatus
        ensures { code_of result ≡ status_if is_right }
    {
        if is_right {
            ExitStatus::Done
        } else {
            ExitStatus::Wrong
        }
    }

    /// The number of the status, with which the program ends.
    pub fn code(self) -> u8
        ensures { result ≡ code_of self }
    {
        self as u8
    }
}

/// Writes a last line, and ends so, unless the write fails.
pub fn tell<K: Sink>(out: &mut K, line: &[u8], status: ExitStatus) -> ExitStatus
    ensures { Tells line.now status (K.output out.old) (K.output out.new) result }
{
    match write_all(out, line) {
        Ok(()) => status,
        Err(_) => ExitStatus::Write,
    }
}

/// The line that tells of the first word that fits no command.
fn words_line(alloc: Global, place: usize) -> Mem<String>
    ensures { IfOk result (λ line. string_bytes line ≡ output_of (words_refused place)) }
{
    format!(in alloc; "error words {place}\n")
}

/// Tells of the first word that fits no command.
fn refuse_words<K: Sink>(alloc: Global, out: &mut K, place: usize) -> ExitStatus
    ensures { EndsCourse (words_refused place) (K.output out.old) (K.output out.new)
        (code_of result) }
{
    match words_line(alloc, place) {
        Ok(line) => tell(out, line.as_bytes(), ExitStatus::Words),
        Err(_) => tell(out, b"error memory\n", ExitStatus::Memory),
    }
}

/// Carries out a script that was read.
fn carry_out<K: Sink, L: Ledger>(
    alloc: Global,
    script: &[u8],
    out: &mut K,
    steps: &mut Steps<L>,
) -> ExitStatus
    requires { length script.now ≤ 67108864 }
    ensures { EndsCourse (script_read script.now) (K.output out.old) (K.output out.new)
        (code_of result) }
{
    match play(alloc, script, out, steps) {
        PlayEnd::Done => ExitStatus::Done,
        PlayEnd::BadLine => ExitStatus::Wrong,
        PlayEnd::WriteFault => ExitStatus::Write,
        PlayEnd::OutOfMemory => tell(out, b"error memory\n", ExitStatus::Memory),
    }
}

/// Reads a script to its end, and carries it out.
fn replay<S: Source, K: Sink, L: Ledger>(
    alloc: Global,
    input: &mut S,
    out: &mut K,
    steps: &mut Steps<L>,
) -> ExitStatus
    ensures { (course : Course) × Reads (S.input input.old) (S.input input.new) course
        × EndsCourse course (K.output out.old) (K.output out.new) (code_of result) }
{
    match read_all(alloc, input, MOST_SCRIPT) {
        Ok(script) => carry_out(alloc, script.as_slice(), out, steps),
        Err(ReadEnd::Fault) => tell(out, b"error read\n", ExitStatus::Read),
        Err(ReadEnd::Long) => tell(out, b"error long\n", ExitStatus::Long),
        Err(ReadEnd::OutOfMemory) => tell(out, b"error memory\n", ExitStatus::Memory),
    }
}

/// Tells what was found of a file, or why nothing is told of it.
fn tell_verdict<K: Sink>(out: &mut K, verdict: Result<Verdict, CheckEnd>) -> ExitStatus
    ensures { EndsCourse (verdict_course verdict) (K.output out.old) (K.output out.new)
        (code_of result) }
{
    match verdict {
        Ok(told) => tell(
            out,
            told.line.as_slice(),
            ExitStatus::of_right(told.is_right),
        ),
        Err(CheckEnd::Fault) => tell(out, b"error read\n", ExitStatus::Read),
        Err(CheckEnd::OutOfMemory) => tell(out, b"error memory\n", ExitStatus::Memory),
    }
}

/// Tells of the configuration at a path.
fn check_config<F: Folder, K: Sink>(
    alloc: Global,
    folder: &mut F,
    path: &str,
    out: &mut K,
) -> ExitStatus
    ensures checked { (course : Course) × Checks (TellsPath (F.filed folder.old).files path.now)
        (F.filed folder.old) (F.filed folder.new) course × EndsCourse course (K.output out.old)
        (K.output out.new) (code_of result) }
    ensures files { (F.filed folder.new).files ≡ (F.filed folder.old).files }
{
    tell_verdict(out, check(alloc, folder, path))
}

/// Tells which entries of the table at a path are never asked.
fn lint_table<F: Folder, K: Sink>(
    alloc: Global,
    folder: &mut F,
    path: &str,
    out: &mut K,
) -> ExitStatus
    ensures linted { (course : Course) × Checks (TellsTablePath (F.filed folder.old).files path.now)
        (F.filed folder.old) (F.filed folder.new) course × EndsCourse course (K.output out.old)
        (K.output out.new) (code_of result) }
    ensures files { (F.filed folder.new).files ≡ (F.filed folder.old).files }
{
    tell_verdict(out, lint(alloc, folder, path))
}

/// Tells the line that was made from the words alone, unless there was no memory for it.
fn tell_made<K: Sink>(out: &mut K, made: Mem<Bytes>) -> ExitStatus
    ensures { (line : List ℕ) → IfOk made (λ made. made.items ≡ line) → (course : Course)
        × Makes line course × EndsCourse course (K.output out.old) (K.output out.new)
        (code_of result) }
{
    match made {
        Ok(line) => tell(out, line.as_slice(), ExitStatus::Done),
        Err(_) => tell(out, b"error memory\n", ExitStatus::Memory),
    }
}

/// Does what the words say.
pub fn run<
    R: Threads + Wait + Sync,
    F: Folder,
    N: Net + Send,
    C: Clock + Drop + Send,
    S: Source,
    K: Sink,
    O: Journals,
    L: Ledger,
>(
    rt: &R,
    alloc: Global,
    words: &[String],
    outside: &mut Outside<F, N, C, S, K, O>,
    blank: Blank,
) -> ExitStatus
where
    <N::L as Listener>::P: Send,
    requires name { blank.name ≡ L.name }
    requires parts { blank.parts ≡ L.parts }
    requires some { 0 < blank.parts }
    ensures { RanOver F.filed N.state N.faults N.L.P.line N.L.P.address C.of_fork S.input K.output
        O.closed (map string_bytes words.now) outside.old outside.new (code_of result) }
{
    let mut steps = Steps::<L>::start(blank);
    match read_words(words) {
        Ok(Command::Replay) => replay(alloc, &mut outside.input, &mut outside.out, &mut steps),
        Ok(Command::Check(path)) => {
            check_config(alloc, &mut outside.folder, path, &mut outside.out)
        }
        Ok(Command::Lint(path)) => {
            lint_table(alloc, &mut outside.folder, path, &mut outside.out)
        }
        Ok(Command::Serve(path)) => serve(rt, alloc, path, outside),
        Ok(Command::Storm(run)) => tell_made(&mut outside.out, storm_line(alloc, run)),
        Ok(Command::Weave(run)) => {
            tell_made(&mut outside.out, weave_line(alloc, run, &mut steps))
        }
        Ok(Command::Follow(following)) => {
            follow(alloc, &mut outside.net, following, &mut outside.out)
        }
        Err(place) => refuse_words(alloc, &mut outside.out, place),
    }
}
