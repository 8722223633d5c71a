//! The top call: all that the program does, over any folder, input and output.
ghost use Rattle.std.specs.Prelude.{◌≡◌, ◌⊎◌, ◌<◌, Contains, IsErr, IsSome, true, false, map};
ghost use Rattle.std.specs.Prelude.{string_bytes};
ghost use Rattle.line_base.specs.Counts.{Rose};
ghost use Rattle.command_lines.specs.Generated.{storm_line, weave_line};
ghost use Rattle.linker_commands.specs.Outside.{RanOver, linked_in};
ghost use Rattle.linker_commands.specs.Run.{statuses, EndsWhole, Shows, ReadsLong};
ghost use Rattle.linker_commands.specs.Run.{Yields, ReplaysAll, ChecksAll, LintsAll, MakesAll};
ghost use Rattle.command_lines.specs.Words.{command_of, storm, weave};

use crate::outside::Outside;
use crate::run::run;
use line_base::{Clock, Folder, Listener, Net, Sink, Source};
use line_log::Journals;
use std::marker::Brand;
use std::sync::Wait;
use std::sync::ledger::Blank;
use std::thread::Threads;

/// Does what the words after the program's name say, and gives the status to end with.
///
/// - `replay` reads a script from the input, to its end and at most 67,108,864 bytes of it, carries
///   out its lines in order, and writes a reply line for each; a bad line ends it.
/// - `check CONFIG` reads the configuration at the path CONFIG, at most 1,048,576 bytes of it, and
///   writes a line that says that it is right and where its router listens, or what its first fault
///   is.
/// - `lint FILE` reads the table at the path FILE, at most 65,536 bytes of it, and writes a line
///   for each of its entries that is never asked, a line that counts them, and the table without
///   them.
/// - `serve CONFIG` reads the configuration at the path CONFIG and the services of the folder that
///   it names, listens on the router's address, on those of the two interfaces and on that of the
///   feed, if there is one, writes a line that says where, serves until it is shut down, and writes
///   how many changes there were.
/// - `storm N SEED` makes N generated turns, each a change or a pick by the words of the generator
///   with this seed, on one state, and writes the line that sums them up.
/// - `weave N SEED` makes N generated steps of four passes, each a change, a question, an answer to
///   an earlier one, or what passes learn or keep, and writes the line that sums them up.
/// - `follow A NS N` asks the leader at the address A, as `host:port`, N times for the feed of the
///   namespace NS, and writes a line for each feed that is later than those before it, and a line
///   that counts the polls. A poll that is lost is one of them.
///
/// A path is a word that is not empty, and NS is a name; neither begins with `-`. N is at most
/// 1,000,000 and SEED at most 2^64 - 1, both in decimal digits without leading zeros. Where
/// something is wrong, the last line that is written tells what.
///
/// | status | where | last line |
/// |---|---|---|
/// | 0 | all was done | |
/// | 2 | the word at P fits no command, counted from 1, or is missing | `error words P` |
/// | 3 | line N of the script is bad; those before it are answered | `error line N` |
/// | 3 | the configuration has a fault; `docs/CONFIGURATION.md` has them | `error config ..` |
/// | 3 | the file is absent or too long, or `read_dtab` refuses its text | `error table ..` |
/// | 3 | the file of the service NAME is bad or too long | `error file NAME` |
/// | 3 | there is no room for the services | `error book` |
/// | 4 | the input or the folder could not be read | `error read` |
/// | 5 | a write failed; this comes before every other status | |
/// | 6 | an address can't be listened on, or 100 waits at one failed in a row | `error net` |
/// | 7 | there was no memory, or not enough for a session of a router | `error memory` |
/// | 8 | the script is longer than 67,108,864 bytes | `error long` |
pub fn linker<
    R: AllocGlobal + Threads + Wait + Sync,
    F: Folder,
    N: Net + Send,
    C: Clock + Drop + Send,
    S: Source,
    K: Sink,
    O: Journals,
>(rt: &R, words: &[String], outside: &mut Outside<F, N, C, S, K, O>) -> u8
where
    <N::L as Listener>::P: Send,
    // What was read, what was written, and the status go together: at 0 the output has grown by the
    // replay of what was read, or by the line that tells of the configuration that was found, or of
    // the generated run, or by what is told of the table that was found, or by the lines that tell
    // where a router served and how many changes there were. That router served by the
    // configuration and the services of its folder: each stay of a client's connection went on with
    // what was seen for it before, all connections were finished, and all listeners and stops came
    // back.
    ensures ran { RanOver F.filed N.state N.faults N.L.P.line N.L.P.address C.of_fork S.input
        K.output O.closed (map string_bytes words.now) outside.old outside.new result }

    // 2 exactly where the words fit no command.
    ensures words { result ≡ 2 → IsErr (command_of (map string_bytes words.now)) }
    ensures refused { IsErr (command_of (map string_bytes words.now)) → (result ≡ 2)
        ⊎ Yields result (K.output outside.old.out) (K.output outside.new.out) }

    // 0 and 3 only where the input was read to its end and each line of it is good, or one is bad;
    // where the configuration is right, or is not, or its services are refused; and where the file
    // has a table, or has none. A generated run is never wrong.
    ensures done { result ≡ 0
        → Shows (command_of (map string_bytes words.now)) (S.input outside.old.input)
        (S.input outside.new.input) (F.filed outside.old.folder) true }
    ensures wrong { result ≡ 3
        → Shows (command_of (map string_bytes words.now)) (S.input outside.old.input)
        (S.input outside.new.input) (F.filed outside.old.folder) false }

    // 0 of `serve` only where every listener came back clean, as many connections were finished as
    // were accepted, and as many stops came back as were handed out.
    ensures all_back { result ≡ 0 → EndsWhole (command_of (map string_bytes words.now))
        (F.filed outside.old.folder) (linked_in N.state N.faults O.closed outside.old)
        (linked_in N.state N.faults O.closed outside.new) }

    // 5 exactly where the output's count of faults rose, 4 exactly where the input's or the
    // folder's did, and 6 exactly where the net's did, but for want of memory.
    ensures read { result ≡ 4
        → Rose (S.input outside.old.input).faults (S.input outside.new.input).faults
        ⊎ Rose (F.filed outside.old.folder).faults (F.filed outside.new.folder).faults }
    ensures write { result ≡ 5
        → Rose (K.output outside.old.out).faults (K.output outside.new.out).faults }
    ensures net { result ≡ 6 → Rose (N.faults outside.old.net) (N.faults outside.new.net) }
    ensures read_fault { (S.input outside.old.input).faults < (S.input outside.new.input).faults
        → (result ≡ 4)
        ⊎ Yields result (K.output outside.old.out) (K.output outside.new.out) }
    ensures folder_fault { (F.filed outside.old.folder).faults < (F.filed outside.new.folder).faults
        → (result ≡ 4)
        ⊎ Yields result (K.output outside.old.out) (K.output outside.new.out) }
    ensures write_fault { (K.output outside.old.out).faults < (K.output outside.new.out).faults
        → result ≡ 5 }
    ensures net_fault { N.faults outside.old.net < N.faults outside.new.net → (result ≡ 6)
        ⊎ Yields result (K.output outside.old.out) (K.output outside.new.out) }

    // 8 exactly where more was read than a script may have.
    ensures long { result ≡ 8 → ReadsLong (S.input outside.old.input) (S.input outside.new.input) }
    ensures longer { IsSome (S.input outside.old.input).left → ReadsLong (S.input outside.old.input)
        (S.input outside.new.input) → (result ≡ 8)
        ⊎ Yields result (K.output outside.old.out) (K.output outside.new.out) }

    // Where nothing fails, an input that tells its bytes is carried out in full, and a
    // configuration, a table and a generated run are told of.
    ensures replays { ReplaysAll (map string_bytes words.now) (S.input outside.old.input)
        (S.input outside.new.input) (K.output outside.old.out) (K.output outside.new.out) result }
    ensures checks { ChecksAll (map string_bytes words.now) (F.filed outside.old.folder)
        (F.filed outside.new.folder) (K.output outside.old.out) (K.output outside.new.out) result }
    ensures lints { LintsAll (map string_bytes words.now) (F.filed outside.old.folder)
        (F.filed outside.new.folder)
        (K.output outside.old.out) (K.output outside.new.out) result }
    ensures storms { MakesAll storm storm_line (map string_bytes words.now)
        (K.output outside.old.out)
        (K.output outside.new.out) result }
    ensures weaves { MakesAll weave weave_line (map string_bytes words.now)
        (K.output outside.old.out)
        (K.output outside.new.out) result }
    ensures status { Contains statuses result }
{
    run::<R, F, N, C, S, K, O, Brand>(rt, rt.alloc(), words, outside, Blank::new(1)).code()
}
