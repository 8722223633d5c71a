//! The program from the arguments of its process to the code that it exits with.
ghost use Rattle.std.specs.Prelude.{◌≡◌, ◌↔◌, IsTrue, IfOk, drop};
ghost use Rattle.std.specs.Process.{exit_status};
ghost use Rattle.std.specs.Vec.Iter.{into_iter_items};
ghost use Rattle.linker_commands.specs.Outside.{RanOver};
ghost use Rattle.linker_commands.specs.Run.{words_of};

use crate::outside::Outside;
use crate::program::linker;
use crate::run::{ExitStatus, tell};
use line_base::{Clock, Folder, Listener, Net, Sink, Source};
use line_log::Journals;
use std::alloc::{AllocError, AllocGlobal, Global};
use std::env::Args;
use std::io::{self, ErrorKind};
use std::process::ExitCode;
use std::sync::Wait;
use std::thread::Threads;

/// What the process ends with.
#[derive(Drop)]
pub struct Exit {
    /// The code that it exits with, which is the program's status.
    pub code: ExitCode,
    /// The program's status.
    pub status: u8,
    /// Whether the words fit no command: how to call the program is then written to standard error.
    pub tells_usage: bool,
}

/// The arguments behind the first, which is the program's name.
pub fn words_behind_name(alloc: Global, arguments: Args) -> Result<Vec<String>, AllocError>
    ensures { IfOk result (λ words. words.items ≡ drop 1 (into_iter_items arguments)) }
{
    let mut words = Vec::new(alloc);
    for word in arguments {
        words.push(word)?;
    }
    if !words.is_empty() {
        drop(words.remove(0));
    }
    Ok(words)
}

/// The status for the arguments of the process. Those that are no text are one empty word, which
/// fits no command.
fn status_for<
    R: AllocGlobal + Threads + Wait + Sync,
    F: Folder,
    N: Net + Send,
    C: Clock + Drop + Send,
    S: Source,
    K: Sink,
    O: Journals,
>(rt: &R, arguments: io::Result<Args>, outside: &mut Outside<F, N, C, S, K, O>) -> u8
where
    <N::L as Listener>::P: Send,
    ensures { RanOver F.filed N.state N.faults N.L.P.line N.L.P.address C.of_fork S.input K.output
        O.closed (words_of arguments) outside.old outside.new result }
{
    let alloc = rt.alloc();
    match arguments {
        Ok(arguments) => match words_behind_name(alloc, arguments) {
            Ok(words) => linker(rt, words.as_slice(), outside),
            Err(_) => tell(&mut outside.out, b"error memory\n", ExitStatus::Memory).code(),
        },
        Err(error) if error.kind() == ErrorKind::OutOfMemory => {
            tell(&mut outside.out, b"error memory\n", ExitStatus::Memory).code()
        }
        Err(_) => linker(rt, &[String::new(alloc)], outside),
    }
}

/// Does what the arguments say, the first of which is the program's name, and gives what the
/// process ends with.
pub fn run_arguments<
    R: AllocGlobal + Threads + Wait + Sync,
    F: Folder,
    N: Net + Send,
    C: Clock + Drop + Send,
    S: Source,
    K: Sink,
    O: Journals,
>(rt: &R, arguments: io::Result<Args>, outside: &mut Outside<F, N, C, S, K, O>) -> Exit
where
    <N::L as Listener>::P: Send,
    ensures ran { RanOver F.filed N.state N.faults N.L.P.line N.L.P.address C.of_fork S.input
        K.output O.closed (words_of arguments) outside.old outside.new (exit_status result.code) }
    ensures status { exit_status result.code ≡ result.status }
    ensures usage { IsTrue result.tells_usage ↔ (exit_status result.code ≡ 2) }
{
    let status = status_for(rt, arguments, outside);
    Exit {
        code: ExitCode::from(status),
        status,
        tells_usage: status == 2,
    }
}
