//! The words of the command line, and generated runs.
use crate::running::{answered, assert_answered, assert_told};
use std::test::Fail;

#[test]
fn words(rt: HostRuntime) -> Result<(), Fail> {
    let unnamed = answered(&rt, &[], &[])?;
    assert_told(&rt, unnamed, ("error words 1\n", 2), &"no words");
    assert_answered(&rt, &["", "storms", "--help"], "error words 1\n", 2)?;
    assert_answered(
        &rt,
        &[
            "serve -c.json",
            "replay x",
            "replay --help",
            "replay replay x",
            "check",
            "check ",
            "check -",
            "check --help c.json",
            "lint",
            "lint -t",
        ],
        "error words 2\n",
        2,
    )?;
    assert_answered(
        &rt,
        &["check c.json x", "lint t.dtab x"],
        "error words 3\n",
        2,
    )?;
    // A path may have a `-` elsewhere; there is no such file.
    assert_answered(&rt, &["check ./-"], "error config absent\n", 3)
}

/// Words that don't fit `storm` and `weave`.
#[test]
fn words_of_generated_runs(rt: HostRuntime) -> Result<(), Fail> {
    assert_answered(
        &rt,
        &[
            "storm",
            "storm  5",
            "storm 01 5",
            "storm +1 5",
            "storm 1000001 5",
            "storm x x x",
            "weave 01 5",
        ],
        "error words 2\n",
        2,
    )?;
    assert_answered(
        &rt,
        &[
            "storm 1000000 x",
            "storm 5",
            "storm 5 x",
            "storm 5 -1",
            "storm 5 00",
            "storm 5 18446744073709551616",
            "storm 5 x x",
            "weave 5 x",
        ],
        "error words 3\n",
        2,
    )?;
    assert_answered(&rt, &["storm 5 7 x"], "error words 4\n", 2)
}

/// Runs of no turn, and runs of a hundred thousand.
#[test]
fn generated_runs_of_none_and_many(rt: HostRuntime) -> Result<(), Fail> {
    let empty = "changes 1 refused 0 picked 0 none 0 ports 0\n";
    assert_answered(
        &rt,
        &["storm 0 7", "storm 0 18446744073709551615"],
        empty,
        0,
    )?;
    assert_answered(&rt, &["weave 0 7"], "history 1 looks 0 kept 0\n", 0)?;
    let storm = "changes 31178 refused 18675 picked 20804 none 29344 ports 63923968\n";
    assert_answered(&rt, &["storm 100000 7"], storm, 0)?;
    let weave = "history 25133 looks 12522 kept 466\n";
    assert_answered(&rt, &["weave 100000 7"], weave, 0)
}

/// Runs of a thousand turns; where the write fails, that is told.
#[test]
fn generated_runs(rt: HostRuntime) -> Result<(), Fail> {
    let storm = "changes 334 refused 168 picked 242 none 257 ports 809971\n";
    let weave = "history 254 looks 127 kept 3\n";
    assert_answered(&rt, &["storm 1000 1"], storm, 0)?;
    assert_answered(&rt, &["weave 1000 1"], weave, 0)?;
    for command in &["storm", "weave"] {
        let told = answered(&rt, &[*command, "1000", "1"], &[0])?;
        assert_told(&rt, told, ("", 5), command);
    }
    Ok(())
}
