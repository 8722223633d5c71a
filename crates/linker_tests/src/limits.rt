//! Limits of scripts, at the limit and one past it.
use crate::running::{assert_told, replayed};
use std::alloc::{AllocError, AllocGlobal, Global};
use std::process::Abort;
use std::sync::Wait;
use std::test::Fail;
use std::thread::Threads;

/// Writes `/c0 => /c1` and so on, and the last to an address.
fn write_chain(script: &mut String, links: u32) -> Result<(), AllocError> {
    script.push_str("dtab ")?;
    for link in 0..links {
        let next = link + 1;
        write!(script, "/c{link} => /c{next};")?;
    }
    write!(script, "/c{links} => /$/inet/127.0.0.1/80\npick /c0")
}

/// Writes `/a0 => /a1 | /a1` and so on, where that is what joins the two: each level doubles the
/// lookups.
fn write_levels(script: &mut String, levels: u32, join: char) -> Result<(), AllocError> {
    script.push_str("dtab ")?;
    for level in 0..levels {
        let next = level + 1;
        write!(script, "/a{level} => /a{next} {join} /a{next};")?;
    }
    Ok(())
}

/// Writes such levels of alternatives.
fn write_doubling(script: &mut String, levels: u32) -> Result<(), AllocError> {
    write_levels(script, levels, '|')?;
    script.push_str("\npick /a0")
}

/// Writes such levels of unions, and the last to an address.
fn write_unions(script: &mut String, levels: u32) -> Result<(), AllocError> {
    write_levels(script, levels, '&')?;
    write!(script, "/a{levels} => /$/inet/127.0.0.1/80\npick /a0")
}

/// Writes `pick` of one label of so many bytes.
fn write_label(script: &mut String, bytes: u32) -> Result<(), AllocError> {
    script.push_str("pick /")?;
    for _ in 0..bytes {
        script.push('a')?;
    }
    Ok(())
}

/// Writes `dtab` and a table of so many entries.
fn write_entries(script: &mut String, count: u32) -> Result<(), AllocError> {
    script.push_str("dtab ")?;
    for entry in 0..count {
        write!(script, "/e{entry} => ~;")?;
    }
    Ok(())
}

/// Writes `dtab`, so many blanks, and a table of so many bytes.
fn write_table(script: &mut String, blanks: u32, bytes: u32) -> Result<(), AllocError> {
    script.push_str("dtab")?;
    for _ in 0..blanks {
        script.push(' ')?;
    }
    script.push_str("/a=>/")?;
    for _ in 5..bytes {
        script.push('b')?;
    }
    Ok(())
}

/// A script that comes to a limit.
#[derive(Clone, Copy, Debug)]
enum Shape {
    /// Names that lead from one to the next.
    Chain,
    /// Names that lead to the next one twice, one try after the other.
    Doubling,
    /// Names that lead to the next one twice, in a union.
    Unions,
    /// A label of so many bytes.
    LongLabel,
    /// A table of so many entries.
    Entries,
    /// A table of so many bytes.
    Table,
    /// The same behind many blanks.
    TableBehindBlanks,
}

/// Writes a script of such a shape and size.
fn write_script(script: &mut String, shape: Shape, size: u32) -> Result<(), AllocError> {
    match shape {
        Shape::Chain => write_chain(script, size),
        Shape::Doubling => write_doubling(script, size),
        Shape::Unions => write_unions(script, size),
        Shape::LongLabel => write_label(script, size),
        Shape::Entries => write_entries(script, size),
        Shape::Table => write_table(script, 1, size),
        Shape::TableBehindBlanks => write_table(script, 70_000, size),
    }
}

/// A script of such a shape and size.
fn script_of(alloc: Global, shape: Shape, size: u32) -> Result<String, AllocError> {
    let mut script = String::new(alloc);
    write_script(&mut script, shape, size)?;
    Ok(script)
}

/// Asserts what is written of a shape at the largest size that is within a limit, and what is
/// written one past it, and the status then.
fn assert_limits<R: AllocGlobal + Threads + Wait + Sync + Abort>(
    rt: &R,
    shape: Shape,
    most: u32,
    within: &str,
    past: &str,
    status: u8,
) -> Result<(), Fail> {
    assert_limit(rt, shape, most, within, 0)?;
    assert_limit(rt, shape, most.saturating_add(1), past, status)
}

/// Asserts that a script of such a shape and size is answered so, and ends with this status.
fn assert_limit<R: AllocGlobal + Threads + Wait + Sync + Abort>(
    rt: &R,
    shape: Shape,
    size: u32,
    written: &str,
    status: u8,
) -> Result<(), Fail> {
    let script = script_of(rt.alloc(), shape, size)?;
    let told = replayed(rt, script.as_str());
    drop(script);
    assert_told(rt, told?, (written, status), &(shape, size));
    Ok(())
}

/// Limits of names that lead to others.
#[test]
fn limits_of_lookups(rt: HostRuntime) -> Result<(), Fail> {
    let found = "ok\n127.0.0.1:80 /$/inet/127.0.0.1/80 /\n";
    assert_limits(&rt, Shape::Chain, 98, found, "ok\ntoo-deep\n", 0)?;
    assert_limits(
        &rt,
        Shape::Doubling,
        12,
        "ok\nnegative\n",
        "ok\ntoo-wide\n",
        0,
    )?;
    assert_limits(&rt, Shape::Unions, 11, found, "ok\ntoo-wide\n", 0)?;
    assert_limits(&rt, Shape::LongLabel, 2047, "negative\n", "too-deep\n", 0)
}

/// Limits of a line: of its words, and of its table. A table begins behind the gap, and the limit
/// is on its text alone.
#[test]
fn limits_of_lines(rt: HostRuntime) -> Result<(), Fail> {
    let wrong = "error line 1\n";
    assert_limits(&rt, Shape::LongLabel, 65_535, "too-deep\n", wrong, 3)?;
    assert_limits(&rt, Shape::Entries, 1024, "ok\n", wrong, 3)?;
    assert_limits(&rt, Shape::Table, 65_536, "ok\n", wrong, 3)?;
    assert_limits(&rt, Shape::TableBehindBlanks, 65_536, "ok\n", wrong, 3)
}
