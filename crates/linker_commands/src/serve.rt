//! `serve`: a router with its interfaces, from its configuration until it is stopped.
ghost use Rattle.std.specs.Prelude.{◌≡◌, ◌+◌, ◌≤◌, ◌++◌, ℕ, List, Option, IfOk, OnOk, false};
ghost use Rattle.std.specs.Prelude.{length, string_bytes};
ghost use Rattle.line_base.specs.Files.{File};
ghost use Rattle.command_lines.specs.Check.{IsConfig};
ghost use Rattle.linker_commands.specs.Courses.{load_course};
ghost use Rattle.linker_commands.specs.Linked.{Linked};
ghost use Rattle.linker_commands.specs.Outside.{EndsOver, ServesOver, linked_in};
ghost use Rattle.linker_commands.specs.Run.{EndsCourse, line_told};
ghost use Rattle.linker_commands.specs.Served.{Finish, IsLast, IsMadeBy, LoadsRoot};
ghost use Rattle.linker_commands.specs.Served.{TellsEnd, TellsNet, file_line, finish_code, last_of};
ghost use Rattle.linker_commands.specs.Served.{IsFeeding, IsRun, IsSiteOf, feed_port, feed_words};
ghost use Rattle.linker_commands.specs.Served.{main_words, site_line};
ghost use Rattle.linker_commands.specs.Told.{Tells, code_of};
ghost use Rattle.linker_config.specs.declared.loaded.LoadedItem.{LoadedItem};
ghost use Rattle.linker_config.specs.Loading.{HasLoadCause};
ghost use Rattle.router.specs.Opening.{IsNamedBy, beginning_of};
ghost use Rattle.serving.specs.Policies.{IsHandledBy};
ghost use Rattle.serving.specs.Posts.{jobs_of};
ghost use Rattle.serving.specs.Services.{HaveSeen};
ghost use Rattle.serving.specs.Returning.{listened};
ghost use Rattle.serving.specs.Running.{IsReady, Listens, bound_of, passes_of};

use crate::outside::Outside;
use crate::recording::{LoggedSite, run_recorded};
use crate::run::{ExitStatus, tell};
use crate::{Bytes, Mem};
use addr_book::Name;
use client_stays::Handling;
use command_lines::{ConfigEnd, configured};
use line_base::{Clock, Folder, Listener, Net, Sink, Source};
use line_log::Journals;
use linker_config::{Config, FeedAt, LoadFault, Loaded, Text, append_port, load_folder};
use machine::Settings;
use router::{Opened, open};
use script::write_all;
use serving::{Feeding, Policy, RunFault, Served, Serving, Site, StartFault, start};
use std::alloc::Global;
use std::marker::Brand;
use std::sync::Wait;
use std::thread::Threads;

/// The services of the folder that a configuration names, and none where it names none.
fn load<F: Folder>(alloc: Global, folder: &mut F, root: &Option<Text>) -> Result<Loaded, LoadFault>
    ensures loads { LoadsRoot (F.filed folder.old).files root.now result }
    ensures files { (F.filed folder.new).files ≡ (F.filed folder.old).files }
    ensures cause { HasLoadCause (F.filed folder.old).faults (F.filed folder.new).faults result }
{
    match root {
        Some(root) => load_folder(alloc, folder, root.as_str()),
        None => Ok(Loaded::of(Vec::new(alloc))),
    }
}

/// The line that tells of a service's file that is refused.
fn refused_line(alloc: Global, name: &Name) -> Mem<Bytes>
    ensures { IfOk result (λ line. line.items ≡ file_line name.now) }
{
    let mut line = Vec::from_slice(alloc, b"error file ")?;
    line.extend_from_slice(name.text())?;
    line.push(b'\n')?;
    Ok(line)
}

/// The words that tell where a router serves, but for the feed.
fn main_text(alloc: Global, site: &Site) -> Mem<Bytes>
    ensures { IfOk result (λ line. line.items
        ≡ main_words site.now.server site.now.namerd site.now.admin) }
{
    let mut line = Vec::from_slice(alloc, b"serving ")?;
    append_port(site.server, &mut line)?;
    line.push(b' ')?;
    append_port(site.namerd, &mut line)?;
    line.push(b' ')?;
    append_port(site.admin, &mut line)?;
    Ok(line)
}

/// The line that tells where a router serves: its own address, those of the two interfaces, and
/// that of the feed, if it is served.
fn site_text(alloc: Global, site: &Site) -> Mem<Bytes>
    ensures { IfOk result (λ line. line.items ≡ site_line site.now) }
{
    let mut line = main_text(alloc, site)?;
    append_feed(site.feed, &mut line)?;
    line.push(b'\n')?;
    Ok(line)
}

/// Puts where the feed is served behind a line, with a blank before it, if it is served.
fn append_feed(feed: Option<Feeding>, line: &mut Bytes) -> Mem<()>
    ensures { OnOk result (line.new.items ≡ line.old.items ++ feed_words (feed_port feed)) }
{
    let Some(feeding) = feed else {
        return Ok(());
    };
    line.push(b' ')?;
    append_port(feeding.port, line)
}

/// The number of this run of the router: the one that is said, or else the moment now.
fn run_number<C: Clock + Drop>(said: Option<u64>, clock: &C) -> u64
    ensures { IsRun (C.of_fork clock.now) said result }
{
    match said {
        Some(run) => run,
        None => {
            let mut now = clock.fork();
            now.now()
        }
    }
}

/// Where the feed is served, and which run it tells, if it is served.
fn feeding<C: Clock + Drop>(feed: Option<FeedAt>, clock: &C) -> Option<Feeding>
    ensures { IsFeeding (C.of_fork clock.now) feed result }
{
    match feed {
        Some(at) => Some(Feeding {
            port: at.port,
            run: run_number(at.run, clock),
        }),
        None => None,
    }
}

/// What is told last: how many changes there were, and whether memory was wanting in a session.
fn last_line(alloc: Global, served: Served) -> Mem<String>
    ensures { IfOk result (λ line. string_bytes line ≡ last_of served.place served.lacked_memory) }
{
    let place = served.place;
    let mut line = format!(in alloc; "closed {place}\n")?;
    if served.lacked_memory {
        line.push_str("error memory\n")?;
    }
    Ok(line)
}

/// Tells of a file that is refused.
fn tell_file<K: Sink>(alloc: Global, out: &mut K, name: &Name) -> ExitStatus
    ensures { EndsCourse (line_told false (file_line name.now)) (K.output out.old)
        (K.output out.new)
        (code_of result) }
{
    match refused_line(alloc, name) {
        Ok(line) => tell(out, line.as_slice(), ExitStatus::Wrong),
        Err(_) => tell(out, b"error memory\n", ExitStatus::Memory),
    }
}

/// Tells why the services of a configuration were not loaded.
fn tell_load_fault<K: Sink>(alloc: Global, out: &mut K, fault: LoadFault) -> ExitStatus
    ensures { EndsCourse (load_course fault) (K.output out.old) (K.output out.new)
        (code_of result) }
{
    match fault {
        LoadFault::LongFile { name } => tell_file(alloc, out, &name),
        LoadFault::BadFile { name, line: _ } => tell_file(alloc, out, &name),
        LoadFault::FolderFault => tell(out, b"error read\n", ExitStatus::Read),
        LoadFault::OutOfMemory => tell(out, b"error memory\n", ExitStatus::Memory),
    }
}

/// Where a router serves by a configuration, with its access log, and what its state goes by.
fn site_and_settings<C: Clock + Drop>(config: Config, clock: &C) -> (LoggedSite, Settings)
    requires workers { (1 ≤ config.workers) × (config.workers ≤ 256) }
    ensures site { IsSiteOf (C.of_fork clock.now) config result.0.site }
    ensures workers { (1 ≤ result.0.site.workers) × (result.0.site.workers ≤ 256) }
    ensures log { result.0.log ≡ config.access_log }
    ensures settings { result.1 ≡ config.settings }
{
    let Config {
        admin,
        namerd,
        server,
        root: _,
        rule,
        clear_context: _,
        settings,
        pool,
        retries,
        access_log,
        workers,
        seed,
        feed,
    } = config;
    let site = Site {
        server,
        namerd,
        admin,
        policy: Policy {
            rule,
            retries,
            pool,
        },
        workers,
        seed,
        feed: feeding(feed, clock),
    };
    let logged = LoggedSite {
        site,
        log: access_log,
    };
    (logged, settings)
}

/// Tells how it was to serve.
fn tell_served<K: Sink>(alloc: Global, out: &mut K, served: Served) -> ExitStatus
    ensures { (last : List ℕ) × (finish : Finish) × (end : ExitStatus) × TellsEnd served last finish
        × (code_of end ≡ finish_code finish) × Tells last end (K.output out.old) (K.output out.new)
        result }
{
    let Ok(line) = last_line(alloc, served) else {
        return tell(out, b"error memory\n", ExitStatus::Memory);
    };
    if served.lacked_memory {
        tell(out, line.as_bytes(), ExitStatus::Memory)
    } else {
        tell(out, line.as_bytes(), ExitStatus::Done)
    }
}

/// Serves where it was told, and tells how it was.
fn serve_on<
    J: Handling + Send + Sync,
    R: Threads + Wait + Sync,
    F: Folder,
    N: Net + Send,
    C: Clock + Drop + Send,
    S: Source,
    K: Sink,
    O: Journals,
>(
    rt: &R,
    alloc: Global,
    serving: Serving<J, N::L>,
    logged: &LoggedSite,
    outside: &mut Outside<F, N, C, S, K, O>,
) -> ExitStatus
where
    <N::L as Listener>::P: Send,
    requires ready { IsReady serving }
    requires listens { Listens N.L.state (N.state outside.old.net).told logged.now.site
        (bound_of serving) }
    requires seats { length (passes_of serving) ≡ jobs_of logged.now.site + 1 }
    requires parts { J.parts ≡ J.seats }
    requires handled { IsHandledBy J.rule J.tries logged.now.site.policy }
    requires workers { (1 ≤ logged.now.site.workers) × (logged.now.site.workers ≤ 256) }
    ensures served { (files : Option (List File)) → (c : Config) → (before : Linked N.L.P)
        → (loaded : List LoadedItem)
        → IsMadeBy (C.of_fork outside.old.clock) files c logged.now.site J.settings loaded
        logged.now.log
        → HaveSeen loaded (passes_of serving)
        → N.state outside.old.net ≡ listened (jobs_of logged.now.site) before.state
        → O.closed outside.old.journals ≡ before.logs
        → (last : List ℕ) × (finish : Finish) × (end : ExitStatus)
        × IsLast J N.L.P.line N.L.P.address (C.of_fork outside.old.clock) files c before
        (linked_in N.state N.faults O.closed outside.new) last finish
        × TellsNet (N.faults outside.old.net) (N.faults outside.new.net) finish
        × (code_of end ≡ finish_code finish)
        × Tells last end (K.output outside.old.out) (K.output outside.new.out) result }
    ensures kept { (outside.new.folder ≡ outside.old.folder)
        × (outside.new.input ≡ outside.old.input) }
{
    match run_recorded(
        rt,
        alloc,
        serving,
        logged,
        &mut outside.net,
        &outside.clock,
        &mut outside.journals,
    ) {
        Ok(served) => tell_served(alloc, &mut outside.out, served),
        Err(RunFault::Net) => tell(&mut outside.out, b"error net\n", ExitStatus::Net),
        Err(RunFault::OutOfMemory) => {
            tell(&mut outside.out, b"error memory\n", ExitStatus::Memory)
        }
    }
}

/// Serves with a router that was opened.
fn serve_opened<
    J: Handling + Send + Sync,
    R: Threads + Wait + Sync,
    F: Folder,
    N: Net + Send,
    C: Clock + Drop + Send,
    S: Source,
    K: Sink,
    O: Journals,
>(
    rt: &R,
    alloc: Global,
    opened: Opened,
    loaded: Loaded,
    logged: &LoggedSite,
    outside: &mut Outside<F, N, C, S, K, O>,
) -> ExitStatus
where
    <N::L as Listener>::P: Send,
    requires named { IsNamedBy (beginning_of opened) J.Naming.own J.Ledger.own }
    requires seats { J.seats ≡ jobs_of logged.now.site + 1 }
    requires handled { IsHandledBy J.rule J.tries logged.now.site.policy }
    requires workers { (1 ≤ logged.now.site.workers) × (logged.now.site.workers ≤ 256) }
    ensures served { (files : Option (List File)) → (c : Config)
        → IsMadeBy (C.of_fork outside.old.clock) files c logged.now.site J.settings loaded
        logged.now.log
        → EndsOver F.filed N.state N.faults N.L.P.line N.L.P.address C.of_fork S.input K.output
        O.closed J files c outside.old outside.new (code_of result) }
    ensures kept { (outside.new.folder ≡ outside.old.folder)
        × (outside.new.input ≡ outside.old.input) }
{
    let serving = match start::<J, R, N>(
        rt,
        alloc,
        opened,
        loaded,
        &logged.site,
        &mut outside.net,
    ) {
        Ok(serving) => serving,
        Err(StartFault::Book) => return tell(&mut outside.out, b"error book\n", ExitStatus::Wrong),
        Err(StartFault::Net) => return tell(&mut outside.out, b"error net\n", ExitStatus::Net),
        Err(StartFault::OutOfMemory) => {
            return tell(&mut outside.out, b"error memory\n", ExitStatus::Memory);
        }
    };
    let Ok(line) = site_text(alloc, &logged.site) else {
        serving.close(rt);
        return tell(&mut outside.out, b"error memory\n", ExitStatus::Memory);
    };
    match write_all(&mut outside.out, line.as_slice()) {
        Ok(()) => serve_on(rt, alloc, serving, logged, outside),
        Err(_) => {
            serving.close(rt);
            ExitStatus::Write
        }
    }
}

/// Serves by a configuration.
fn serve_by<
    R: Threads + Wait + Sync,
    F: Folder,
    N: Net + Send,
    C: Clock + Drop + Send,
    S: Source,
    K: Sink,
    O: Journals,
>(rt: &R, alloc: Global, config: Config, outside: &mut Outside<F, N, C, S, K, O>) -> ExitStatus
where
    <N::L as Listener>::P: Send,
    requires workers { (1 ≤ config.workers) × (config.workers ≤ 256) }
    ensures served { (path : List ℕ) → IsConfig (F.filed outside.old.folder).files path config
        → ServesOver F.filed N.state N.faults N.L.P.line N.L.P.address C.of_fork S.input
        K.output O.closed path outside.old outside.new (code_of result) }
    ensures files { (F.filed outside.new.folder).files ≡ (F.filed outside.old.folder).files }
    ensures input { outside.new.input ≡ outside.old.input }
{
    let loaded = match load(alloc, &mut outside.folder, &config.root) {
        Ok(loaded) => loaded,
        Err(fault) => {
            drop(config);
            return tell_load_fault(alloc, &mut outside.out, fault);
        }
    };
    let (logged, settings) = site_and_settings(config, &outside.clock);
    let Ok(opened) = open(rt, alloc, settings, logged.site.seats()) else {
        drop(loaded);
        drop(logged);
        return tell(&mut outside.out, b"error memory\n", ExitStatus::Memory);
    };
    let status = serve_opened::<Brand, R, F, N, C, S, K, O>(
        rt, alloc, opened, loaded, &logged, outside,
    );
    drop(logged);
    status
}

/// Serves by the configuration at a path, until it is stopped.
pub fn serve<
    R: Threads + Wait + Sync,
    F: Folder,
    N: Net + Send,
    C: Clock + Drop + Send,
    S: Source,
    K: Sink,
    O: Journals,
>(rt: &R, alloc: Global, path: &str, outside: &mut Outside<F, N, C, S, K, O>) -> ExitStatus
where
    <N::L as Listener>::P: Send,
    ensures served { ServesOver F.filed N.state N.faults N.L.P.line N.L.P.address C.of_fork S.input
        K.output O.closed path.now outside.old outside.new (code_of result) }
    ensures files { (F.filed outside.new.folder).files ≡ (F.filed outside.old.folder).files }
    ensures input { outside.new.input ≡ outside.old.input }
{
    match configured(alloc, &mut outside.folder, path) {
        Ok(config) => serve_by(rt, alloc, config, outside),
        Err(ConfigEnd::Wrong(line)) => tell(&mut outside.out, line.as_slice(), ExitStatus::Wrong),
        Err(ConfigEnd::Fault) => tell(&mut outside.out, b"error read\n", ExitStatus::Read),
        Err(ConfigEnd::OutOfMemory) => tell(
            &mut outside.out,
            b"error memory\n",
            ExitStatus::Memory,
        ),
    }
}
