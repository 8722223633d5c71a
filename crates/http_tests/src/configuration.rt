//! Configurations with the lines that tell of them, and folders with what they load.

use crate::requests::spelled;
use identifier::Kind;
use line_base::ConnectionPool;
use line_doubles::{MemFile, MemFolder};
use linker_config::{
    Config, ConfigFault, FeedAt, LoadedItem, Mem, Port, check_line, fault_line, load_folder,
    read_config,
};
use name_tree::{Path, write_path};
use retry_budget::Tries;
use std::alloc::Global;
use std::test::Fail;

/// Whole texts, and what is told of each.
const WHOLE: &str = r#"{} => routers missing
{"routerz":[]} => routerz unknown
{"routers":[{"protocol":"thrift"}]} => routers[0].protocol bad
{"routers":[{"protocol":"http"}]} => ok
{"routers":[{"protocol":"\u0068ttp"}],"workers":0,"workers":1} => ok
[ => json
{"routers":[{"protocol":"http"}],"seed":1e400} => json
[] => top bad
{"routers":{}} => routers bad
{"routers":[]} => routers bad
{"routers":[{},{}]} => routers bad
{"routers":[1]} => routers[0] bad
{"routers":[{}]} => routers[0].protocol missing
{"routers":[{"protocol":1}]} => routers[0].protocol bad
{"zz":1,"b":2} => b unknown
{"workers":0} => routers missing
"#;

/// Members beside a good router, and what is told of each: its numbers of workers and its seed.
const NUMBERS: &str = r#""telemetry":[],"usage":1 => ok
"workers":1 => ok
"workers":256 => ok
"workers":0 => workers bad
"workers":257 => workers bad
"workers":16.0 => workers bad
"workers":"16" => workers bad
"seed":0 => ok
"seed":18446744073709551615 => ok
"seed":18446744073709551616 => seed bad
"seed":-1 => seed bad
"#;

/// Where its interfaces are.
const PORTS: &str = r#""admin":[] => admin bad
"admin":{"x":0} => admin.x unknown
"admin":{"ip":"255.0.0.1","port":65535} => ok
"admin":{"ip":"localhost"} => admin.ip bad
"admin":{"ip":"256.0.0.1","port":0} => admin.ip bad
"admin":{"port":0} => admin.port bad
"admin":{"port":65536} => admin.port bad
"namerd":{"ip":1} => namerd.ip bad
"namerd":{"port":1,"namespace":"web"} => ok
"namerd":{"port":0,"namespace":""} => namerd.port bad
"namerd":{"namespace":"a b"} => namerd.namespace bad
"#;

/// Where its names come from.
const NAMERS: &str = r#""namers":{} => namers bad
"namers":[] => ok
"namers":[{},{}] => namers bad
"namers":["x"] => namers[0] bad
"namers":[{"rootDir":"x"}] => namers[0].kind missing
"namers":[{"kind":"io.l5d.fs"}] => namers[0].rootDir missing
"namers":[{"kind":"fs","rootDir":""}] => namers[0].kind bad
"namers":[{"kind":"io.l5d.fs","rootDir":""}] => namers[0].rootDir bad
"#;

/// Where its feed is.
const FEED: &str = r#""feed":[] => feed bad
"feed":{} => ok
"feed":{"x":0} => feed.x unknown
"feed":{"ip":"0.0.0.0","port":1,"run":0} => ok
"feed":{"port":65535,"run":18446744073709551615} => ok
"feed":{"ip":"localhost","port":0} => feed.ip bad
"feed":{"port":0,"run":-1} => feed.port bad
"feed":{"port":65536} => feed.port bad
"feed":{"run":-1} => feed.run bad
"feed":{"run":18446744073709551616} => feed.run bad
"feed":{"run":"1"} => feed.run bad
"#;

/// Of several faults the first is told.
const FIRST: &str = r#""workers":0,"x":1 => x unknown
"admin":1,"namerd":1 => admin bad
"namerd":1,"namers":1 => namerd bad
"workers":0,"seed":-1 => workers bad
"seed":-1,"feed":1 => seed bad
"#;

/// Members of a router beside its protocol, and what is told of each: its table and its prefix.
const TABLE: &str = r#""dtab":"/svc => /a ; " => ok
"dtab":"/svc =>" => routers[0].dtab bad
"dtab":1 => routers[0].dtab bad
"dstPrefix":"/" => ok
"dstPrefix":"svc" => routers[0].dstPrefix bad
"#;

/// Its servers, and what is not read or not known.
const SERVERS: &str = r#""label":{},"httpAccessLog":null => ok
"x":1 => routers[0].x unknown
"servers":[] => routers[0].servers bad
"servers":[1] => routers[0].servers[0] bad
"servers":[{"port":1}] => ok
"servers":[{"port":0}] => routers[0].servers[0].port bad
"servers":[{"label":""}] => routers[0].servers[0].label unknown
"servers":[{"clearContext":true}] => ok
"servers":[{"clearContext":"true"}] => routers[0].servers[0].clearContext bad
"servers":[{"clearContext":1,"port":0}] => routers[0].servers[0].port bad
"#;

/// How its connections to replicas are kept.
const CLIENT: &str = r#""client":1 => routers[0].client bad
"client":{} => ok
"client":{"tls":1} => routers[0].client.tls unknown
"client":{"failureAccrual":{}} => routers[0].client.failureAccrual.kind missing
"client":{"failureAccrual":{},"hostConnectionPool":1} => routers[0].client.failureAccrual.kind missing
"client":{"hostConnectionPool":1} => routers[0].client.hostConnectionPool bad
"client":{"hostConnectionPool":{}} => ok
"client":{"hostConnectionPool":{"minSize":0}} => routers[0].client.hostConnectionPool.minSize unknown
"client":{"hostConnectionPool":{"maxSize":0,"idleTimeMs":0}} => ok
"client":{"hostConnectionPool":{"maxSize":64,"idleTimeMs":3600000}} => ok
"client":{"hostConnectionPool":{"maxSize":65,"idleTimeMs":-1}} => routers[0].client.hostConnectionPool.maxSize bad
"client":{"hostConnectionPool":{"idleTimeMs":3600001}} => routers[0].client.hostConnectionPool.idleTimeMs bad
"client":{"failureAccrual":{"kind":"none","failures":0}} => routers[0].client.failureAccrual.kind bad
"#;

/// How often a request is tried again.
const RETRIES: &str = r#""retries":1 => routers[0].retries bad
"retries":{} => ok
"retries":{"budget":{}} => routers[0].retries.budget unknown
"retries":{"percent":0,"reserve":0,"most":0} => ok
"retries":{"percent":100,"reserve":100,"most":10} => ok
"retries":{"percent":101,"reserve":101} => routers[0].retries.percent bad
"retries":{"percent":-1} => routers[0].retries.percent bad
"retries":{"reserve":101,"most":11} => routers[0].retries.reserve bad
"retries":{"reserve":0.5} => routers[0].retries.reserve bad
"retries":{"most":11} => routers[0].retries.most bad
"#;

/// Of several faults the first is told.
const FIRST_OF_ROUTER: &str = r#""dtab":"","dstPrefix":"","identifier":1 => routers[0].dstPrefix bad
"dtab":1,"dstPrefix":1 => routers[0].dtab bad
"identifier":1,"servers":1 => routers[0].identifier bad
"servers":1,"client":1 => routers[0].servers bad
"client":1,"retries":1 => routers[0].client bad
"#;

/// What stands behind the kind of a count of failures, and what is told of each.
const ACCRUAL: &str = r#" => ok
,"failures":1,"backoff":{"kind":"constant","ms":0} => ok
,"failures":1000,"backoff":{"kind":"constant","ms":86400000} => ok
,"failures":0,"backoff":1 => routers[0].client.failureAccrual.failures bad
,"failures":1001 => routers[0].client.failureAccrual.failures bad
,"backoff":1 => routers[0].client.failureAccrual.backoff bad
,"backoff":{} => routers[0].client.failureAccrual.backoff.kind missing
,"backoff":{"kind":"jittered","ms":-1} => routers[0].client.failureAccrual.backoff.kind bad
,"backoff":{"kind":"constant","ms":86400001} => routers[0].client.failureAccrual.backoff.ms bad
"#;

/// Identifiers of a router, and what is told of each.
const IDENTIFIER: &str = r#"[] => routers[0].identifier bad
{} => routers[0].identifier.kind missing
{"kind":"x","x":1} => routers[0].identifier.x unknown
{"kind":"x","path":1} => routers[0].identifier.kind bad
{"kind":1} => routers[0].identifier.kind bad
{"kind":"io.l5d.methodAndHost","header":"Host"} => routers[0].identifier.header unknown
{"kind":"io.l5d.header.token","header":"X-Name"} => ok
{"kind":"io.l5d.header.token","header":"a b"} => routers[0].identifier.header bad
{"kind":"io.l5d.header","header":""} => routers[0].identifier.header bad
{"kind":"io.l5d.path","segments":1} => ok
{"kind":"io.l5d.path","segments":16} => ok
{"kind":"io.l5d.path","segments":0} => routers[0].identifier.segments bad
{"kind":"io.l5d.path","segments":17} => routers[0].identifier.segments bad
{"kind":"io.l5d.path","path":"/a"} => routers[0].identifier.path unknown
{"kind":"io.l5d.static"} => routers[0].identifier.path missing
{"kind":"io.l5d.static","header":"x"} => routers[0].identifier.header unknown
{"kind":"io.l5d.static","path":"a/b"} => ok
{"kind":"io.l5d.static","path":"a//b"} => routers[0].identifier.path bad
"#;

/// Whether the line of a fault is the one that a case's line ends in.
fn is_line_of(line: &[u8], end: &str) -> bool {
    let Some(rest) = line.strip_prefix(b"error config ") else {
        return false;
    };
    match rest.strip_suffix(b"\n") {
        Some(told) => told == end.as_bytes(),
        None => false,
    }
}

/// Whether the line of a fault is the one that a case's line ends in, and is `error ` and the fault
/// as it is shown.
fn is_told_of(alloc: Global, fault: &ConfigFault, end: &str) -> Mem<bool> {
    let line = fault_line(alloc, fault)?;
    let is_line = is_line_of(line.as_slice(), end);
    drop(line);
    let shown = format!(in alloc; "error {fault}\n")?;
    Ok(is_line && is_line_of(shown.as_bytes(), end))
}

/// Whether this is told of a text: `ok`, or the line of its fault.
fn is_told(alloc: Global, text: &[u8], end: &str) -> Mem<bool> {
    match read_config(alloc, text) {
        Ok(config) => {
            drop(config);
            Ok(end == "ok")
        }
        Err(fault) => {
            let is_told = is_told_of(alloc, &fault, end);
            drop(fault);
            is_told
        }
    }
}

/// Whether what a case says is told of its text, between a beginning and an end.
fn is_case_told(alloc: Global, front: &str, case: &str, back: &str) -> Mem<bool> {
    let Some((text, end)) = case.rsplit_once(" => ") else {
        return Ok(false);
    };
    let whole = format!(in alloc; "{front}{text}{back}")?;
    let is_told = is_told(alloc, whole.as_bytes(), end);
    drop(whole);
    is_told
}

/// The beginning of a configuration with members beside a good router.
const BESIDE: &str = r#"{"routers":[{"protocol":"http"}],"#;

/// The beginning of one whose router has members beside its protocol.
const ROUTER: &str = r#"{"routers":[{"protocol":"http","#;

/// The beginning of one that counts failures.
const COUNTING: &str =
    r#"{"routers":[{"protocol":"http","client":{"failureAccrual":{"kind":"io.l5d.consecutiveFailures""#;

/// The beginning of one whose router has an identifier.
const IDENTIFIED: &str = r#"{"routers":[{"protocol":"http","identifier":"#;

/// Cases, each between a beginning and an end.
static CASES: [(&str, &str, &str); 13] = [
    // JSON or none, the keys of the whole, the array of routers
    ("", WHOLE, ""),
    (BESIDE, NUMBERS, "}"),
    (BESIDE, PORTS, "}"),
    (BESIDE, NAMERS, "}"),
    (BESIDE, FEED, "}"),
    (BESIDE, FIRST, "}"),
    (ROUTER, TABLE, "}]}"),
    (ROUTER, SERVERS, "}]}"),
    (ROUTER, CLIENT, "}]}"),
    (ROUTER, RETRIES, "}]}"),
    (ROUTER, FIRST_OF_ROUTER, "}]}"),
    (COUNTING, ACCRUAL, "}}}]}"),
    (IDENTIFIED, IDENTIFIER, "}]}"),
];

#[test]
fn configurations_are_told(rt: HostRuntime) -> Result<(), Fail> {
    for (front, cases, back) in &CASES {
        for case in cases.lines() {
            assert!(rt; is_case_told(rt.alloc(), front, case, back)?, "{case}");
        }
    }
    Ok(())
}

fn config_of(alloc: Global, text: &str) -> Result<Config, Fail> {
    match read_config(alloc, text.as_bytes()) {
        Ok(config) => Ok(config),
        Err(fault) => {
            drop(fault);
            Err("no configuration".into())
        }
    }
}

/// A configuration whose line tells the usual addresses.
const USUAL: &str =
    r#"{"namers":[{"kind":"io.l5d.fs","rootDir":"disco"}],"routers":[{"protocol":"http","dtab":"/svc => /#/io.l5d.fs","servers":[{"port":4140}]}]}"#;

/// A configuration where all is said.
const SAID: &str =
    r#"{"routers":[{"protocol":"http","dstPrefix":"/x","identifier":{"kind":"io.l5d.static","path":"a"},"client":{"failureAccrual":{"kind":"io.l5d.consecutiveFailures","failures":3}}}],"namerd":{"namespace":"web"},"seed":7}"#;

/// Whether a configuration is told by this line.
fn is_line(alloc: Global, config: &Config, line: &str) -> Mem<bool> {
    let told = check_line(alloc, config)?;
    Ok(told.as_slice() == line.as_bytes())
}

/// Whether a path has this text.
fn is_path(alloc: Global, path: &Path, text: &str) -> Mem<bool> {
    let written = write_path(alloc, path)?;
    Ok(written.as_slice() == text.as_bytes())
}

/// Whether the folder of a configuration has this name.
fn is_root(config: &Config, name: &str) -> bool {
    match &config.root {
        Some(root) => root.as_str() == name,
        None => false,
    }
}

/// Whether the folder, the line and the prefix of a configuration are those of the usual one, and
/// how many entries its table has.
fn usual_of(alloc: Global, config: &Config) -> Mem<([bool; 3], usize)> {
    let line = "ok router 127.0.0.1:4140 namerd 127.0.0.1:4180 admin 127.0.0.1:9990\n";
    let is_line = is_line(alloc, config, line)?;
    let is_prefix = is_path(alloc, &config.rule.prefix, "/svc")?;
    let is_root = is_root(config, "disco");
    Ok(([is_root, is_line, is_prefix], config.settings.base.len()))
}

/// The same of the configuration whose line tells the usual addresses.
fn usual(alloc: Global) -> Result<([bool; 3], usize), Fail> {
    let config = config_of(alloc, USUAL)?;
    let usual = usual_of(alloc, &config);
    drop(config);
    Ok(usual?)
}

#[test]
fn usual_values(rt: HostRuntime) -> Result<(), Fail> {
    assert_eq!(rt; usual(rt.alloc())?, ([true; 3], 1));
    Ok(())
}

/// Whether requests are named by one label, the same for all.
fn is_static(kind: &Kind) -> bool {
    match kind {
        Kind::Static(path) => path.len() == 1,
        _ => false,
    }
}

/// The seed of a configuration, its workers, failures and backoff; and whether its namespace, its
/// prefix and its identifier are those that are said.
fn said_of(alloc: Global, config: &Config) -> Mem<([u64; 4], [bool; 3])> {
    let limits = &config.settings.limits;
    let (workers, failures) = (u64::from(config.workers), u64::from(limits.failures));
    let is_space = config.settings.space.text() == b"web".as_slice();
    let is_prefix = is_path(alloc, &config.rule.prefix, "/x")?;
    let is_kind = is_static(&config.rule.kind);
    let numbers = [config.seed, workers, failures, limits.backoff];
    Ok((numbers, [is_space, is_prefix, is_kind]))
}

/// The same of a configuration where all is said.
fn said(alloc: Global) -> Result<([u64; 4], [bool; 3]), Fail> {
    let config = config_of(alloc, SAID)?;
    let said = said_of(alloc, &config);
    drop(config);
    Ok(said?)
}

#[test]
fn values_that_are_said(rt: HostRuntime) -> Result<(), Fail> {
    assert_eq!(rt; said(rt.alloc())?, ([7, 16, 3, 5000], [true; 3]));
    Ok(())
}

/// Which connections to replicas are kept, how often a request may be tried again, and where the
/// feed is served.
type Additions = (Option<ConnectionPool>, Option<Tries>, Option<FeedAt>);

fn additions_of(alloc: Global, text: &str) -> Result<Additions, Fail> {
    let config = config_of(alloc, text)?;
    let additions = (config.pool, config.retries, config.feed);
    drop(config);
    Ok(additions)
}

/// Configurations, and their additions.
static ADDITIONS: [(&str, Additions); 5] = [
    (r#"{"routers":[{"protocol":"http"}]}"#, (None, None, None)),
    (
        r#"{"routers":[{"protocol":"http","client":{"hostConnectionPool":{}}}]}"#,
        (
            Some(ConnectionPool {
                max_size: 16,
                idle_ms: 10_000,
            }),
            None,
            None,
        ),
    ),
    (
        r#"{"routers":[{"protocol":"http","retries":{}}],"feed":{}}"#,
        (
            None,
            Some(Tries {
                percent: 20,
                reserve: 10,
                most: 3,
            }),
            Some(FeedAt {
                port: Port {
                    ip: 0x7f00_0001,
                    port: 4181,
                },
                run: None,
            }),
        ),
    ),
    (
        r#"{"routers":[{"protocol":"http","retries":{"percent":1,"reserve":2,"most":4}}]}"#,
        (
            None,
            Some(Tries {
                percent: 1,
                reserve: 2,
                most: 4,
            }),
            None,
        ),
    ),
    (
        r#"{"routers":[{"protocol":"http"}],"feed":{"ip":"10.0.0.1","port":5,"run":6}}"#,
        (
            None,
            None,
            Some(FeedAt {
                port: Port {
                    ip: 0x0a00_0001,
                    port: 5,
                },
                run: Some(6),
            }),
        ),
    ),
];

#[test]
fn additions(rt: HostRuntime) -> Result<(), Fail> {
    for (text, want) in &ADDITIONS {
        assert!(rt; additions_of(rt.alloc(), text)? == *want, "of {text}");
    }
    Ok(())
}

/// Configurations, and whether the table of each covers its prefix.
static COVERING: [(&str, bool); 6] = [
    (r#"{"routers":[{"protocol":"http"}]}"#, false),
    (
        r#"{"routers":[{"protocol":"http","dtab":"/svc => /host"}]}"#,
        true,
    ),
    (
        r#"{"routers":[{"protocol":"http","dtab":"/host => /svc; /svc/web => /host"}]}"#,
        false,
    ),
    (
        r#"{"routers":[{"protocol":"http","dtab":"/* => /host; /host => !"}]}"#,
        true,
    ),
    (
        r#"{"routers":[{"protocol":"http","dtab":"/a => /host","dstPrefix":"/a/b"}]}"#,
        true,
    ),
    (
        r#"{"routers":[{"protocol":"http","dtab":"/a/b => /host","dstPrefix":"/a"}]}"#,
        false,
    ),
];

fn covers(alloc: Global, text: &str) -> Result<bool, Fail> {
    let config = config_of(alloc, text)?;
    let covers = config.table_covers_prefix();
    drop(config);
    Ok(covers)
}

#[test]
fn tables_that_cover_the_prefix(rt: HostRuntime) -> Result<(), Fail> {
    for (text, is_covered) in &COVERING {
        assert!(rt; covers(rt.alloc(), text)? == *is_covered, "of {text}");
    }
    Ok(())
}

/// What loading a folder comes to: each service with the number of its addresses, or the refusal.
fn loaded(alloc: Global, folder: &mut MemFolder) -> Mem<String> {
    match load_folder(alloc, folder, "disco") {
        Ok(loaded) => {
            let text = listed(alloc, loaded.items());
            drop(loaded);
            text
        }
        Err(fault) => {
            let text = fault.to_string(alloc);
            drop(fault);
            text
        }
    }
}

/// Puts services behind a text, each with the number of its addresses.
fn list(items: &[LoadedItem], text: &mut String) -> Mem<()> {
    for item in items {
        write!(text, "{} {} ", item.service, item.list.items().len())?;
    }
    Ok(())
}

/// Services, each with the number of its addresses.
fn listed(alloc: Global, items: &[LoadedItem]) -> Mem<String> {
    let mut text = String::new(alloc);
    list(items, &mut text)?;
    Ok(text)
}

/// A file of the folder, in whose text `%` stands for so many blanks.
fn file(alloc: Global, name: &str, text: &str, blanks: usize) -> Mem<MemFile> {
    let folder = String::from_str(alloc, "disco")?;
    let name = String::from_str(alloc, name)?;
    Ok(MemFile::of(folder, name, spelled(alloc, text, " ", blanks)?))
}

/// Puts a file of this text behind others, one of another kind of name, and one of so many blanks.
fn add_files(alloc: Global, files: &mut Vec<MemFile>, blanks: usize, text: &str) -> Mem<()> {
    for (name, text) in &[("web", text), ("no name", text), ("api", "%")] {
        files.push(file(alloc, name, text, blanks)?)?;
    }
    Ok(())
}

/// A folder with these files.
fn folder_of(alloc: Global, blanks: usize, text: &str) -> Mem<MemFolder> {
    let failing = Vec::from_elem(alloc, 5, 1)?;
    let mut files = Vec::new(alloc);
    match add_files(alloc, &mut files, blanks, text) {
        Ok(()) => Ok(MemFolder::of(alloc, files, failing)),
        Err(fault) => {
            drop(files);
            drop(failing);
            Err(fault)
        }
    }
}

/// What loading a folder comes to, so many times: the last answer.
fn last_of(alloc: Global, folder: &mut MemFolder, times: u32) -> Mem<String> {
    let mut told = String::new(alloc);
    for _time in 0..times {
        told = loaded(alloc, folder)?;
    }
    Ok(told)
}

/// The same of a folder with a file of this text and one of so many blanks.
fn told_last(alloc: Global, blanks: usize, text: &str, times: u32) -> Mem<String> {
    let mut folder = folder_of(alloc, blanks, text)?;
    let told = last_of(alloc, &mut folder, times);
    drop(folder);
    told
}

/// How many blanks one file has, the bytes of another, how often the folder is loaded, and what the
/// last time comes to.
static FOLDERS: [(usize, &str, u32, &str); 4] = [
    (1_048_576, "127.0.0.1 9001\n", 1, "api 0 web 1 "),
    (
        1_048_576,
        "127.0.0.1 9001\n",
        2,
        "the folder of services could not be read",
    ),
    (
        0,
        "\n127.0.0.1\n",
        1,
        "the file of the service web is bad at line 2",
    ),
    (1_048_577, "x", 1, "the file of the service api is too long"),
];

/// Services come in the order of their names; the first file that is refused decides, and a file of
/// one byte too many is; a call that fails is told.
#[test]
fn folders(rt: HostRuntime) -> Result<(), Fail> {
    for (blanks, text, times, want) in &FOLDERS {
        let told = told_last(rt.alloc(), *blanks, text, *times)?;
        assert!(rt; told.as_str() == *want, "{want}");
    }
    Ok(())
}
