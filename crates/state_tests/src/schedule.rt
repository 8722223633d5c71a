//! Worked schedules, and generated ones.
ghost use Rattle.std.specs.Prelude.{◌≡◌, ◌<◌, All, IfOk, map};
ghost use Rattle.weave.specs.Code.{step_of};
ghost use Rattle.weave.specs.Held.{IsSoundStep};

use crate::given::{ask, change, look};
use machine::{Chosen, Reply, Settings};
use script::script_settings;
use std::alloc::Global;
use std::marker::Brand;
use std::sync::ledger::{Blank, Ledger};
use std::test::Fail;
use step_count::Steps;
use weave::{Asked, Bytes, Mem, Step, Told, ToldList, World, run, weave};

/// A pass and what it does: `answer`, `remember`, `meet` with pass 0, a pick or another question,
/// or a change, as lines of scripts have them.
type Row<'a> = (u32, &'a str);

/// The step in which a pass asks something.
fn entering(alloc: Global, pass: u32, line: &str) -> Result<Step, Fail>
    ensures { IfOk result (λ step. IsSoundStep (step_of step)) }
{
    if line.starts_with("pick") {
        return Ok(Step::Enter(pass, Asked::Pick(ask(alloc, line)?)));
    }
    Ok(Step::Enter(pass, Asked::Look(look(alloc, line)?)))
}

/// The step in which a pass asks for a change.
fn publishing(alloc: Global, pass: u32, line: &str) -> Result<Step, Fail>
    ensures { IfOk result (λ step. IsSoundStep (step_of step)) }
{
    let change = change(alloc, line)?;
    Ok(Step::Publish(pass, change))
}

/// The step of a row.
fn step(alloc: Global, pass: u32, line: &str) -> Result<Step, Fail>
    ensures { IfOk result (λ step. IsSoundStep (step_of step)) }
{
    if line == "answer" {
        Ok(Step::Answer(pass))
    } else if line == "remember" {
        Ok(Step::Remember(pass))
    } else if line == "meet" {
        Ok(Step::Meet(0, pass))
    } else if line.starts_with("pick") || line == "counts" {
        entering(alloc, pass, line)
    } else {
        publishing(alloc, pass, line)
    }
}

/// The steps of some rows.
fn steps(alloc: Global, rows: &[Row<'_>]) -> Result<Vec<Step>, Fail>
    ensures { IfOk result (λ steps. All IsSoundStep (map step_of steps.items)) }
{
    let mut steps = Vec::new(alloc);
    for row in rows {
        let made = step(alloc, row.0, row.1)?;
        steps.push(made)?;
    }
    Ok(steps)
}

fn run_steps<L: Ledger>(
    alloc: Global,
    settings: Settings,
    steps: &[Step],
    blank: Blank,
) -> Mem<(World, ToldList)>
    requires name { blank.name ≡ L.name }
    requires parts { blank.parts ≡ L.parts }
    requires some { 0 < blank.parts }
    requires sound { All IsSoundStep (map step_of steps.now) }
{
    run(alloc, settings, 3, steps, &mut Steps::<L>::start(blank))
}

/// What the steps of some rows tell, by three passes.
fn told(alloc: Global, rows: &[Row<'_>]) -> Result<ToldList, Fail> {
    let steps = steps(alloc, rows)?;
    let settings = script_settings(alloc)?;
    let (world, told) = run_steps::<Brand>(alloc, settings, steps.as_slice(), Blank::new(1))?;
    drop(world);
    Ok(told)
}

/// A reply in a word and a number.
fn reply_words(reply: &Reply) -> (&'static str, u64) {
    match reply {
        Reply::Version(version) => ("version", *version),
        Reply::Counts { changes, .. } => ("changes", *changes),
        _ => ("done", 0),
    }
}

/// What a pick came to, in a word and a number.
fn chosen_words(chosen: &Chosen) -> (&'static str, u64) {
    match chosen {
        Chosen::Picked { addr, .. } => ("port", u64::from(addr.port)),
        Chosen::None(_) => ("none", 0),
    }
}

/// What a step told, in words with `; ` before them.
fn words(alloc: Global, told: &Told) -> Mem<String> {
    let (place, (word, number)) = match told {
        Told::Reply(place, reply) => (*place, reply_words(reply)),
        Told::Chosen(place, chosen) => (*place, chosen_words(chosen)),
        Told::Kept => return String::from_str(alloc, "; kept"),
        Told::NotKept => return String::from_str(alloc, "; not kept"),
        Told::Nothing => return String::from_str(alloc, "; -"),
    };
    format!(in alloc; "; at {place} {word} {number}")
}

/// Puts what steps told behind a text in words, with `; ` before each.
fn put_told(alloc: Global, told: &[Told], text: &mut String) -> Mem<()> {
    for said in told {
        let words = words(alloc, said)?;
        let put = text.push_str(words.as_str());
        drop(words);
        put?;
    }
    Ok(())
}

/// What each step told in words, with `; ` before each.
fn told_text(alloc: Global, rows: &[Row<'_>]) -> Result<String, Fail> {
    let told = told(alloc, rows)?;
    let mut text = String::new(alloc);
    let put = put_told(alloc, told.items(), &mut text);
    drop(told);
    put?;
    Ok(text)
}

/// Schedules, and what is told in them.
const SCHEDULES: [(&[Row<'static>], &str); 4] = [
    // A pass is answered behind a change.
    (
        &[
            (0, "create default /s => /$/inet/127.0.0.1/1"),
            (1, "pick /s"),
            (0, "put default * /s => /$/inet/127.0.0.1/2"),
            (1, "answer"),
            (1, "pick /s"),
            (1, "answer"),
            (1, "answer"),
        ],
        "; at 0 version 1; -; at 1 version 2; at 1 port 1; -; at 2 port 2; -",
    ),
    // A question takes the place of one that waits, and a pass that is not there makes no step.
    (
        &[
            (0, "create default /s => /$/inet/127.0.0.1/1"),
            (1, "pick /s"),
            (1, "counts"),
            (1, "answer"),
            (1, "answer"),
            (1, "remember"),
            (3, "meet"),
            (3, "counts"),
            (3, "answer"),
        ],
        "; at 0 version 1; -; -; at 1 changes 1; -; -; -; -; -",
    ),
    // Two passes offer the same, and one of them again behind a change.
    (
        &[
            (0, "create default /s => /$/inet/127.0.0.1/1"),
            (1, "pick /s"),
            (2, "pick /s"),
            (1, "answer"),
            (2, "answer"),
            (1, "remember"),
            (2, "remember"),
            (0, "put default * /s => /$/inet/127.0.0.1/2"),
            (1, "remember"),
        ],
        "; at 0 version 1; -; -; at 1 port 1; at 1 port 1; kept; not kept; at 1 version 2; not \
            kept",
    ),
    // What is kept for a path is kept for the request's own table too, and for no other one.
    (
        &[
            (0, "create default /s => /$/inet/127.0.0.1/1"),
            (1, "pick /s"),
            (1, "answer"),
            (1, "remember"),
            (2, "pick /s 0 0 0 0 /a => /b"),
            (2, "answer"),
            (2, "remember"),
            (0, "pick /s"),
            (0, "answer"),
            (0, "remember"),
        ],
        "; at 0 version 1; -; at 1 port 1; kept; -; at 1 port 1; kept; -; at 1 port 1; -",
    ),
];

#[test]
fn schedules_are_carried_out(rt: HostRuntime) -> Result<(), Fail> {
    for (rows, want) in &SCHEDULES {
        let told = told_text(rt.alloc(), rows)?;
        assert!(rt; told.as_str() == *want, "{told}");
    }
    Ok(())
}

/// A text, a part so many times, and an end.
fn repeated(alloc: Global, front: &str, part: &str, count: usize, end: &str) -> Mem<String> {
    let mut text = String::from_str(alloc, front)?;
    for _part in 0..count {
        text.push_str(part)?;
    }
    text.push_str(end)?;
    Ok(text)
}

/// Whether the delegation of a path by the table of `default` is kept.
fn is_kept<'a>(alloc: Global, create: &'a str, pick: &'a str) -> Result<bool, Fail> {
    let rows = [(0, create), (0, pick), (0, "answer"), (0, "remember")];
    let told = told_text(alloc, &rows)?;
    let is_kept = told.as_str() == "; at 0 version 1; -; at 1 port 1; kept";
    drop(told);
    Ok(is_kept)
}

/// Whether the delegation is kept of a pick that goes on with so many bytes, by a table in which a
/// part stands so often.
fn is_size_kept(
    alloc: Global,
    branch: &str,
    branches: usize,
    pick: &str,
    bytes: usize,
) -> Result<bool, Fail> {
    let front = "create default /s => ";
    let create = repeated(alloc, front, branch, branches, "/$/inet/127.0.0.1/1")?;
    let pick = repeated(alloc, pick, "a", bytes, "")?;
    let is_kept = is_kept(alloc, create.as_str(), pick.as_str());
    drop(create);
    drop(pick);
    is_kept
}

/// A part of a table and how often it stands there, a pick and with how many bytes it goes on, and
/// whether the delegation is kept.
const SIZES: [(&str, usize, &str, usize, bool); 4] = [
    ("/x | ", 254, "pick /s", 0, true),
    ("/x | ", 255, "pick /s", 0, false),
    ("/x | ", 2, "pick /s/a", 1_631, true),
    ("/x | /xx | ", 1, "pick /s/a", 1_631, false),
];

/// A delegation of 256 lookups is kept, and one of 8,192 bytes, which are those of the path and of
/// each path that was looked up.
#[test]
fn large_delegations_are_not_kept(rt: HostRuntime) -> Result<(), Fail> {
    for (branch, branches, pick, bytes, want) in &SIZES {
        let is_kept = is_size_kept(rt.alloc(), branch, *branches, pick, *bytes)?;
        assert!(rt; is_kept == *want, "{branch}");
    }
    Ok(())
}

/// What is told behind a change of two picks, and whether what they come to is kept from then on.
/// `/svc/web` and `/a/x` were kept before the change; behind it two other passes ask for one each,
/// and offer what they worked out.
fn told_behind(alloc: Global, change: &str) -> Result<String, Fail> {
    let rows = [
        (0, "create default /svc => /#/io.l5d.fs; /a => /b"),
        (0, "addrs web 127.0.0.1:1"),
        (0, "pick /svc/web"),
        (0, "answer"),
        (0, "remember"),
        (0, "pick /a/x"),
        (0, "answer"),
        (0, "remember"),
        (0, change),
        (1, "pick /svc/web"),
        (1, "answer"),
        (1, "remember"),
        (2, "pick /a/x"),
        (2, "answer"),
        (2, "remember"),
    ];
    told_text(alloc, &rows)
}

/// Changes, and what is told behind them: nothing at the end of a pick where its delegation is kept
/// still.
const CHANGES: [(&str, &str); 8] = [
    (
        "put default * /svc => /#/io.l5d.fs; /a => /c",
        "; -; at 3 port 1; -; -; at 3 none 0; kept",
    ),
    (
        "put default * /svc => /#/io.l5d.fs; /a => /b",
        "; -; at 3 port 1; -; -; at 3 none 0; -",
    ),
    (
        "put default * /svc => /b; /a => /b",
        "; -; at 3 none 0; kept; -; at 3 none 0; -",
    ),
    ("drop web", "; -; at 3 none 0; kept; -; at 3 none 0; -"),
    // A service whose name begins one that is kept.
    (
        "addrs we 127.0.0.1:2",
        "; -; at 3 port 1; -; -; at 3 none 0; -",
    ),
    (
        "addrs web 127.0.0.1:2",
        "; -; at 3 port 2; -; -; at 3 none 0; -",
    ),
    (
        "fail 127.0.0.1:1 0",
        "; -; at 3 port 1; -; -; at 3 none 0; -",
    ),
    (
        "create other /svc/web => /a",
        "; -; at 3 port 1; -; -; at 3 none 0; -",
    ),
];

#[test]
fn changes_drop_what_they_touch(rt: HostRuntime) -> Result<(), Fail> {
    for (change, want) in &CHANGES {
        let told = told_behind(rt.alloc(), change)?;
        assert!(rt; told.as_str().ends_with(want), "{change}: {told}");
    }
    Ok(())
}

fn woven<L: Ledger>(
    alloc: Global,
    settings: Settings,
    turns: u32,
    seed: u64,
    blank: Blank,
) -> Mem<Bytes>
    requires name { blank.name ≡ L.name }
    requires parts { blank.parts ≡ L.parts }
    requires some { 0 < blank.parts }
{
    weave(alloc, settings, turns, seed, &mut Steps::<L>::start(blank))
}

/// The line of a generated schedule.
fn line_of(alloc: Global, turns: u32, seed: u64) -> Mem<Bytes> {
    woven::<Brand>(alloc, script_settings(alloc)?, turns, seed, Blank::new(1))
}

/// Turns, seeds, and the lines of the schedules.
const LINES: [(u32, u64, &str); 2] = [
    (0, 7, "history 1 looks 0 kept 0"),
    (1_000, 1, "history 254 looks 127 kept 3"),
];

#[test]
fn sums_generated_schedules_up(rt: HostRuntime) -> Result<(), Fail> {
    for (turns, seed, want) in &LINES {
        let line = line_of(rt.alloc(), *turns, *seed)?;
        let is_so = line.as_slice() == want.as_bytes();
        drop(line);
        assert!(rt; is_so, "{want}");
    }
    Ok(())
}
