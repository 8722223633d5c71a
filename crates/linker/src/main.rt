//! `linker`: a service proxy that routes HTTP/1.1 requests by logical name.
//!
//! The commands are in the crate `linker_commands`, over any folder, net, clock, input, output and
//! access logs. `main` makes these of the file system, sockets, the system's clock and the standard
//! streams, hands the arguments on, and ends with the code that it is given. What is told to people
//! goes to standard error: how to call the program where the words fit no command, by which
//! configuration it serves, why it ended, that a configuration does what few want, that lines of
//! an access log are lost, and what else the text of a table shows. Beside a router that serves, a
//! thread watches for a signal that asks for an end and that whoever started the program has
//! blocked (`env --block-signal=TERM,INT`).
//!
//! A run of it is stored beside its sources; the tests of its commands are those of `linker_tests`.
//!
//! # What is proved
//! That the code to exit with is the status of the words is a clause of
//! [`run_arguments`](linker_commands::run_arguments); what the statuses stand for are clauses of
//! [`linker`](linker_commands::linker). What the machine's files, sockets and clock do is not
//! proved.
//!
//! # Examples
//! ```text
//! $ printf 'dtab /svc => /$/inet/127.0.0.1/8080\npick /svc/a\n' | linker replay
//! ok
//! 127.0.0.1:8080 /$/inet/127.0.0.1/8080 /a
//! $ linker check examples/linker.json
//! ok router 127.0.0.1:4140 namerd 127.0.0.1:4180 admin 127.0.0.1:9990
//! ```
#![tactic(auto)]

use announcing::{Asked, asked_of, reason};
use line_base::Sink;
use linker_commands::{ExitStatus, Outside, run_arguments, tell};
use log_file::FileJournals;
use net_edge::{FileSystem, ReaderSource, SocketNet, SystemClock, WriterSink};
use signal_watch::{Finish, StopCell, StoppableNet, Watch};
use std::process::ExitCode;
use std::sync::atomic::AtomicU64;
use std::{env, io, thread};
use warnings::{WarningFolder, WarningJournals};

mod announcing;

/// What is written to standard error where the words fit no command.
const USAGE: &str = "usage: linker replay < SCRIPT
  The lines of a script: dtab TABLE, create NAME TABLE, put NAME VERSION TABLE, delete NAME VERSION,
  get NAME, list, addrs NAME ADDRESS .., drop NAME, fail ADDRESS MOMENT, good ADDRESS MOMENT,
  pick PATH [MOMENT WORD WORD WORD TABLE], view PATH. Each is answered with a line.
usage: linker check CONFIG
  CONFIG is the path of a router's configuration in JSON. A line tells that it is right, or its
  first fault.
usage: linker serve CONFIG
  Serves by the configuration at this path, until it is shut down.
usage: linker lint FILE
  FILE is the path of a table. Its entries that are never asked are told, and the table without
  them.
usage: linker follow A NS N
  Asks the leader at the address A, as 127.0.0.1:4181, N times for the table of the namespace NS,
  and tells each one that is later than those before it. N is at most 1000000.
usage: linker storm N SEED
  Makes N generated changes and picks by the words of the generator with this seed, and sums them
  up in a line. N is at most 1000000.
usage: linker weave N SEED
  Makes N generated steps of four passes that change, ask and are answered later, and sums them up
  in a line. N is at most 1000000.
";

/// What is told where a signal is held back, and there is no thread to watch for it.
const UNWATCHED: &str = "linker: SIGTERM and SIGINT are blocked, and no thread could be made to \
    watch for them";

/// Tells that there was no memory.
fn without_memory<K: Sink>(out: &mut K) -> ExitCode {
    ExitCode::from(tell(out, b"error memory\n", ExitStatus::Memory).code())
}

fn main(rt: HostRuntime) -> ExitCode {
    let mut out = WriterSink::of(io::writer(&rt));
    let Ok(stops) = StopCell::new(rt.alloc()) else {
        return without_memory(&mut out);
    };
    let Ok(finish) = Finish::awaited(rt.alloc()) else {
        return without_memory(&mut out);
    };
    let Ok(sockets) = SocketNet::of(&rt) else {
        return without_memory(&mut out);
    };
    let asked = asked_of(rt.alloc(), env::args(&rt));
    let expected = asked.as_ref().map(Asked::expected);
    if let Some(Asked::Serve(path)) = &asked {
        let _ = eprintln!(rt; "linker: serving by {path}");
    }
    let serves = matches!(asked, Some(Asked::Serve(_)));
    let wanted = if serves {
        Watch::wanted(&mut FileSystem::of(&rt), &stops, &finish)
    } else {
        Ok(None)
    };
    let Ok(watch) = wanted else {
        return without_memory(&mut out);
    };
    let watching = match watch {
        Some(watch) => match thread::spawn(&rt, move || watch.run(&rt, &mut FileSystem::of(&rt))) {
            Ok(thread) => Some(thread),
            Err(_) => {
                let _ = eprintln!(rt; "{UNWATCHED}");
                None
            }
        },
        None => None,
    };
    let losing = AtomicU64::new(0);
    let mut outside = Outside {
        folder: WarningFolder::of(&rt, FileSystem::of(&rt), expected),
        net: StoppableNet::of(&rt, sockets, stops),
        clock: SystemClock::of(&rt),
        input: ReaderSource::of(rt.reader()),
        out,
        journals: WarningJournals::of(&rt, FileJournals::of(&rt), &losing),
    };
    let exit = run_arguments(&rt, env::args(&rt), &mut outside);
    finish.come();
    if let Some(thread) = watching {
        let _ = thread.join(&rt);
    }
    if exit.tells_usage {
        let _ = eprint!(rt; "{USAGE}");
    }
    let refused = outside.net.net().refused();
    if serves && let Ok(reason) = reason(rt.alloc(), exit.status, refused) {
        let _ = eprintln!(rt; "linker: ended: {reason}");
    }
    exit.code
}
