//! Runs of words on a desk in memory, by `run_plain` and by `run`.
ghost use Rattle.std.specs.Prelude.{◌≤◌, IfOk};
ghost use Rattle.tqd_base.specs.World.{IsIdle};
ghost use Rattle.tqd_base.specs.MemoryState.{memory_state};

use crate::check_rows::{FORMS, TREES};
use crate::cut_rows::{CUTS, FAILING_CUTS, NO_CUTS};
use crate::failing_rows::FAILING;
use crate::list_rows::{NEEDS, WORDS};
use crate::requote_rows::{CHANGED, FAILING_REQUOTES, OLD_FAULTS, OLD_TREES};
use crate::scenario_rows::{FAILING_SCENARIOS, SCENARIO_FAULTS, SCENARIOS};
use crate::solve_rows::{EDGES, FAULTS, FILES, ONE_GOOD, TWO_GOODS, WORKERS};
use crate::table_rows::{FAILING_TABLES, TABLES};
use search_run::NoGate;
use std::alloc::Global;
use std::process::Abort;
use std::sync::Wait;
use std::test::Fail;
use std::thread::Threads;
use tqd_base::{DeskCall, Memory, MemoryDesk};
use tqd_top::{run, run_plain};

/// Lines of words that are run one after the other on a desk with these files, each by its name and its text: each ends with
/// the status, and together they print the output.
#[derive(Clone, Copy)]
pub(crate) struct Row<'a> {
    pub(crate) files: &'a [(&'a str, &'a str)],
    pub(crate) lines: &'a [&'a str],
    pub(crate) status: u8,
    pub(crate) output: &'a str,
}

/// A line that is run on a desk whose nth call of a kind fails, and what the file `tree` has then.
#[derive(Clone, Copy)]
pub(crate) struct FailingRow<'a> {
    pub(crate) call: DeskCall,
    pub(crate) nth: u64,
    pub(crate) files: &'a [(&'a str, &'a str)],
    pub(crate) line: &'a str,
    pub(crate) status: u8,
    pub(crate) output: &'a str,
    pub(crate) tree: &'a str,
}

// The words of a command line.
pub(crate) fn words_of(alloc: Global, line: &str) -> Result<Vec<String>, Fail> {
    let mut words = Vec::new(alloc);
    for word in line.split(' ') {
        words.push(String::from_str(alloc, word)?)?;
    }
    Ok(words)
}

// A desk without files.
pub(crate) fn empty_desk(alloc: Global) -> Result<MemoryDesk, Fail>
    ensures { IfOk result (λ desk. IsIdle (memory_state desk).world) }
{
    match MemoryDesk::new(alloc) {
        Ok(desk) => Ok(desk),
        Err(_) => Err("memory".into()),
    }
}

// A file more on a desk.
pub(crate) fn set(desk: &mut MemoryDesk, name: &str, text: &str) -> Result<(), Memory>
    requires { IsIdle (memory_state desk.old).world }
    ensures { IsIdle (memory_state desk.new).world }
{
    desk.set_file(name, text.as_bytes())
}

// A desk with these files.
pub(crate) fn desk_with(alloc: Global, files: &[(&str, &str)]) -> Result<MemoryDesk, Fail>
    ensures { IfOk result (λ desk. IsIdle (memory_state desk).world) }
{
    let mut desk = empty_desk(alloc)?;
    for file in files {
        let (name, text) = *file;
        set(&mut desk, name, text).map_err(|_| "memory")?;
    }
    Ok(desk)
}

// Runs the words of a line, on the caller's thread alone or not, and gives the status.
pub(crate) fn ran<R: Threads + Wait + Sync>(
    rt: &R,
    alloc: Global,
    plain: bool,
    desk: &mut MemoryDesk,
    line: &str,
) -> Result<u8, Fail>
    requires { IsIdle (memory_state desk.old).world }
    ensures { IsIdle (memory_state desk.new).world }
{
    let words = words_of(alloc, line)?;
    let ended = if plain {
        run_plain(alloc, &words, desk)
    } else {
        run(rt, alloc, &words, desk, &NoGate)
    };
    Ok(ended.status)
}

// The text of some bytes.
fn text_of(alloc: Global, bytes: &[u8]) -> Result<String, Fail> {
    match str::from_utf8(bytes) {
        Ok(text) => Ok(String::from_str(alloc, text)?),
        Err(_) => Err("no text".into()),
    }
}

// The file `tree` after a line with status 0 on a desk with these files.
pub(crate) fn tree_of<R: Threads + Wait + Abort + Sync>(
    rt: &R,
    alloc: Global,
    plain: bool,
    files: &[(&str, &str)],
    line: &str,
) -> Result<String, Fail> {
    let mut desk = desk_with(alloc, files)?;
    assert_eq!(rt; ran(rt, alloc, plain, &mut desk, line)?, 0, "at {line}");
    text_of(alloc, desk.file("tree").unwrap_or(b""))
}

// What lines with status 0 print, one after the other, on a desk with these files.
pub(crate) fn printed_by<R: Threads + Wait + Abort + Sync>(
    rt: &R,
    alloc: Global,
    plain: bool,
    files: &[(&str, &str)],
    lines: &[&str],
) -> Result<String, Fail> {
    let mut desk = desk_with(alloc, files)?;
    for line in lines {
        assert_eq!(rt; ran(rt, alloc, plain, &mut desk, line)?, 0, "at {line}");
    }
    text_of(alloc, desk.output())
}

// Runs the lines of a row, whose files are read in pieces of so many bytes.
fn check_lines<R: Threads + Wait + Abort + Sync>(
    rt: &R,
    alloc: Global,
    plain: bool,
    row: &Row<'_>,
    piece: usize,
) -> Result<(), Fail>
    requires { 1 ≤ piece }
{
    let mut desk = desk_with(alloc, row.files)?;
    desk.piece(piece);
    for line in row.lines {
        let status = ran(rt, alloc, plain, &mut desk, line)?;
        assert_eq!(rt; status, row.status, "at {line}");
    }
    assert_eq!(rt; desk.output(), row.output.as_bytes());
    Ok(())
}

// Runs rows by both calls.
pub(crate) fn check_rows<R: Threads + Wait + Abort + Sync>(
    rt: &R,
    alloc: Global,
    rows: &[Row<'_>],
    piece: usize,
) -> Result<(), Fail>
    requires { 1 ≤ piece }
{
    for row in rows {
        check_lines(rt, alloc, true, row, piece)?;
        check_lines(rt, alloc, false, row, piece)?;
    }
    Ok(())
}

#[test]
fn solves_jobs(rt: HostRuntime) -> Result<(), Fail> {
    check_rows(&rt, rt.alloc(), &ONE_GOOD, 65_536)?;
    check_rows(&rt, rt.alloc(), &TWO_GOODS, 65_536)?;
    check_rows(&rt, rt.alloc(), &EDGES, 65_536)?;
    check_rows(&rt, rt.alloc(), &WORKERS, 65_536)
}

#[test]
fn reads_files(rt: HostRuntime) -> Result<(), Fail> {
    check_rows(&rt, rt.alloc(), &FILES, 65_536)?;
    check_rows(&rt, rt.alloc(), &FAULTS, 65_536)
}

#[test]
fn checks_trees(rt: HostRuntime) -> Result<(), Fail> {
    check_rows(&rt, rt.alloc(), &TREES, 65_536)?;
    check_rows(&rt, rt.alloc(), &TREES, 1)?;
    check_rows(&rt, rt.alloc(), &FORMS, 65_536)?;
    check_rows(&rt, rt.alloc(), &FORMS, 1)
}

#[test]
fn requotes_jobs(rt: HostRuntime) -> Result<(), Fail> {
    check_rows(&rt, rt.alloc(), &CHANGED, 65_536)?;
    check_rows(&rt, rt.alloc(), &CHANGED, 1)?;
    check_rows(&rt, rt.alloc(), &OLD_TREES, 65_536)?;
    check_rows(&rt, rt.alloc(), &OLD_FAULTS, 65_536)
}

#[test]
fn lists_needs_and_made_jobs(rt: HostRuntime) -> Result<(), Fail> {
    check_rows(&rt, rt.alloc(), &NEEDS, 65_536)?;
    check_rows(&rt, rt.alloc(), &WORDS, 65_536)
}

#[test]
fn compares_scenarios(rt: HostRuntime) -> Result<(), Fail> {
    check_rows(&rt, rt.alloc(), &SCENARIOS, 65_536)?;
    check_rows(&rt, rt.alloc(), &SCENARIO_FAULTS, 65_536)
}

#[test]
fn tabulates_winners(rt: HostRuntime) -> Result<(), Fail> {
    check_rows(&rt, rt.alloc(), &TABLES, 65_536)
}

#[test]
fn finds_cuts(rt: HostRuntime) -> Result<(), Fail> {
    check_rows(&rt, rt.alloc(), &CUTS, 65_536)?;
    check_rows(&rt, rt.alloc(), &NO_CUTS, 65_536)
}

// Runs the line of a row where a call fails.
pub(crate) fn check_failing<R: Threads + Wait + Abort + Sync>(
    rt: &R,
    alloc: Global,
    plain: bool,
    row: &FailingRow<'_>,
) -> Result<(), Fail> {
    let mut desk = desk_with(alloc, row.files)?;
    desk.fail(row.call, row.nth).map_err(|_| "memory")?;
    let status = ran(rt, alloc, plain, &mut desk, row.line)?;
    assert_eq!(rt; status, row.status, "at {}", row.line);
    assert_eq!(rt; desk.output(), row.output.as_bytes());
    assert_eq!(rt; desk.file("tree").unwrap_or(b""), row.tree.as_bytes());
    Ok(())
}

// Runs the lines of rows where a call fails, by both calls.
fn check_all_failing<R: Threads + Wait + Abort + Sync>(
    rt: &R,
    alloc: Global,
    rows: &[FailingRow<'_>],
) -> Result<(), Fail> {
    for row in rows {
        check_failing(rt, alloc, true, row)?;
        check_failing(rt, alloc, false, row)?;
    }
    Ok(())
}

#[test]
fn names_what_fails(rt: HostRuntime) -> Result<(), Fail> {
    check_all_failing(&rt, rt.alloc(), &FAILING)?;
    check_all_failing(&rt, rt.alloc(), &FAILING_REQUOTES)?;
    check_all_failing(&rt, rt.alloc(), &FAILING_SCENARIOS)?;
    check_all_failing(&rt, rt.alloc(), &FAILING_TABLES)?;
    check_all_failing(&rt, rt.alloc(), &FAILING_CUTS)
}
