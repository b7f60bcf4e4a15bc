//! Words, and the command that they are.

use crate::runs::words_of;
use command_words::{Command, JobFiles, read_words};
use std::test::Fail;

// The files `o` and `f`, with a bill and terms or without.
const fn files(bill: Option<&'static str>, terms: Option<&'static str>) -> JobFiles<'static> {
    JobFiles {
        orders: "o",
        bill,
        offers: "f",
        terms,
    }
}

// A `solve` of them, by so many workers.
const fn solve(
    files: JobFiles<'static>,
    tree: Option<&'static str>,
    workers: u64,
) -> Command<'static> {
    Command::Solve {
        files,
        tree,
        workers,
    }
}

#[test]
fn reads_words_on_jobs(rt: HostRuntime) -> Result<(), Fail> {
    let alloc = rt.alloc();
    let cases = [
        ("solve o - f - -", solve(files(None, None), None, 1)),
        (
            "solve o b f t tree",
            solve(files(Some("b"), Some("t")), Some("tree"), 1),
        ),
        (
            "solve o b f - - --workers 64",
            solve(files(Some("b"), None), None, 64),
        ),
        (
            "solve o - f t o --workers 007",
            solve(files(None, Some("t")), Some("o"), 7),
        ),
        (
            "check o - f t tree",
            Command::Check {
                files: files(None, Some("t")),
                tree: "tree",
            },
        ),
    ];
    for (line, command) in cases {
        let words = words_of(alloc, line)?;
        assert!(rt; read_words(&words) == Some(command), "at {line}");
    }
    Ok(())
}

#[test]
fn reads_other_words(rt: HostRuntime) -> Result<(), Fail> {
    let alloc = rt.alloc();
    let cases = [
        (
            "needs o b",
            Command::Needs {
                orders: "o",
                bill: Some("b"),
            },
        ),
        (
            "needs needs -",
            Command::Needs {
                orders: "needs",
                bill: None,
            },
        ),
        (
            "make 0 1 064",
            Command::Make {
                seed: 0,
                goods: 1,
                suppliers: 64,
            },
        ),
        (
            "make 999999999999999999 1000 1",
            Command::Make {
                seed: 999_999_999_999_999_999,
                goods: 1_000,
                suppliers: 1,
            },
        ),
    ];
    for (line, command) in cases {
        let words = words_of(alloc, line)?;
        assert!(rt; read_words(&words) == Some(command), "at {line}");
    }
    Ok(())
}

#[test]
fn reads_words_on_old_trees(rt: HostRuntime) -> Result<(), Fail> {
    let alloc = rt.alloc();
    let cases = [
        (
            "requote o b f t old tree",
            Command::Requote {
                files: files(Some("b"), Some("t")),
                old: "old",
                tree: Some("tree"),
            },
        ),
        (
            "requote o - f - old -",
            Command::Requote {
                files: files(None, None),
                old: "old",
                tree: None,
            },
        ),
        (
            "requote o - f - tree tree",
            Command::Requote {
                files: files(None, None),
                old: "tree",
                tree: Some("tree"),
            },
        ),
    ];
    for (line, command) in cases {
        let words = words_of(alloc, line)?;
        assert!(rt; read_words(&words) == Some(command), "at {line}");
    }
    Ok(())
}

#[test]
fn reads_words_on_costs(rt: HostRuntime) -> Result<(), Fail> {
    let alloc = rt.alloc();
    let cases = [
        (
            "winners o b f t",
            Command::Winners {
                files: files(Some("b"), Some("t")),
                workers: 1,
            },
        ),
        (
            "winners o - f - --workers 64",
            Command::Winners {
                files: files(None, None),
                workers: 64,
            },
        ),
        (
            "break-even o - f t North",
            Command::BreakEven {
                files: files(None, Some("t")),
                supplier: "North",
            },
        ),
        (
            "break-even o - f - -",
            Command::BreakEven {
                files: files(None, None),
                supplier: "-",
            },
        ),
    ];
    for (line, command) in cases {
        let words = words_of(alloc, line)?;
        assert!(rt; read_words(&words) == Some(command), "at {line}");
    }
    Ok(())
}

// How many words of terms a `scenarios` of the files `o` and `f` has, and its workers.
fn scenarios_of(words: &[String]) -> Option<(usize, u64)> {
    match read_words(words) {
        Some(
            Command::Scenarios {
                files: named,
                terms,
                workers,
            },
        ) if named == files(None, None) => Some((terms.len(), workers)),
        _ => None,
    }
}

#[test]
fn reads_words_on_scenarios(rt: HostRuntime) -> Result<(), Fail> {
    let alloc = rt.alloc();
    // How many words of terms there are, and the workers.
    let cases = [
        ("scenarios o - f t", 1, 1),
        ("scenarios o - f - t1 t1 --workers 4", 3, 4),
        ("scenarios o - f --workers --workers 2", 1, 2),
        ("scenarios o - f t --workers 2 t", 4, 1),
        (
            "scenarios o - f 1 2 3 4 5 6 7 8 9 10 11 12 13 14 15 16 --workers 64",
            16,
            64,
        ),
    ];
    for (line, count, workers) in cases {
        let words = words_of(alloc, line)?;
        assert!(rt; scenarios_of(&words) == Some((count, workers)), "at {line}");
    }
    Ok(())
}

#[test]
fn refuses_words_of_no_form(rt: HostRuntime) -> Result<(), Fail> {
    let alloc = rt.alloc();
    // Two spaces have an empty word between them.
    let lines = [
        "",
        "solve",
        "solve o - f",
        "solve o - f - - -",
        "solve o - f - tree --workers 65",
        "solve o - f - tree --workers 0",
        "solve o - f - tree --workers ",
        "solve o - f - tree --workers",
        "solve o - f - tree --worker 2",
        "solve o - f - tree --workers 2 -",
        "solve - - f - -",
        "solve o - - - -",
        "solve o  f - -",
        "solve o - f - ",
        "Solve o - f - -",
        "check o - f - -",
        "check o - f - tree --workers 2",
        "needs o",
        "needs - b",
        "needs o ",
        "make 1 1",
        "make 1 0 1",
        "make 1 1001 1",
        "make 1 1 65",
        "make 1000000000000000000 1 1",
        "make -1 1 1",
        "requote o - f - - tree",
        "requote o - f -  tree",
        "requote o - f - old ",
        "requote o - f - old",
        "requote o - - - old tree",
        "requote o - f - old tree --workers 2",
        "scenarios o - f",
        "scenarios o - f --workers 2",
        "scenarios o - - t",
        "scenarios - - f t",
        "scenarios o - f t --workers 65",
        "scenarios o - f t ",
        "scenarios o - f 1 2 3 4 5 6 7 8 9 10 11 12 13 14 15 16 17",
        "winners o - f",
        "winners o - f - tree",
        "winners o - f - --workers 65",
        "winners o - - -",
        "break-even o - f -",
        "break-even o - f - ",
        "break-even o - f - A --workers 2",
        "break_even o - f - A",
    ];
    for line in lines {
        let words = words_of(alloc, line)?;
        assert!(rt; read_words(&words).is_none(), "at {line}");
    }
    assert!(rt; read_words(&[]).is_none());
    Ok(())
}
