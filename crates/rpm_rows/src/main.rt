//! Worked rows: command lines from files of data, run on objects in memory, and compared with what the files expect
//! of them.
#![tactic(auto)]

mod checking;
mod difference;
mod ending;
mod failing;
mod leavings;
mod tool;

use checking::check_row;
use difference::Stop;
use rpm_row_files::{Fixtures, Row, rows_of, statements_of};
use std::process::ExitCode;
use std::rt::{Env, Files};
use std::{env, fs, io};

/// How many rows were run, and how many of them failed.
#[derive(Clone, Copy)]
struct Tally {
    rows: u64,
    failed: u64,
}

/// Runs a row, and prints a line where it differs. Whether it didn't.
fn passes(rt: &(impl Print + AllocGlobal), path: &str, row: &Row) -> io::Result<bool> {
    match check_row(rt.alloc(), row) {
        Ok(()) => Ok(true),
        Err(Stop::Differs(difference)) => {
            let line = difference.line;
            let name = row.name.as_str();
            let text = difference.text.as_str();
            println!(rt; "{path}:{line}: {name}: {text}")?;
            Ok(false)
        }
        Err(Stop::NoMemory) => {
            println!(rt; "{path}: out of memory")?;
            Ok(false)
        }
    }
}

/// Runs the rows of a file.
fn run_rows(
    rt: &(impl Print + AllocGlobal),
    path: &str,
    rows: &[Row],
    tally: &mut Tally,
) -> io::Result<()> {
    for row in rows {
        if row.line == 0 && row.wrong.is_none() {
            continue;
        }
        tally.rows = tally.rows.saturating_add(1);
        if !passes(rt, path, row)? {
            tally.failed = tally.failed.saturating_add(1);
        }
    }
    Ok(())
}

/// Reads a file, and runs its rows.
fn run_file<R: Files + Print + AllocGlobal>(
    rt: &R,
    path: &str,
    fixtures: &mut Fixtures,
    tally: &mut Tally,
) -> io::Result<()> {
    let alloc = rt.alloc();
    let bytes = fs::read(rt, path)?;
    let statements = statements_of(alloc, &bytes)?;
    let rows = rows_of(alloc, fixtures, &statements)?;
    run_rows(rt, path, &rows, tally)
}

/// Runs the rows of all files that the arguments name.
fn run_files<R: Env + Files + Print + AllocGlobal>(rt: &R) -> io::Result<Tally> {
    let mut fixtures = Fixtures::new(rt.alloc());
    let mut tally = Tally { rows: 0, failed: 0 };
    for path in env::args(rt)?.skip(1) {
        run_file(rt, path.as_str(), &mut fixtures, &mut tally)?;
    }
    let rows = tally.rows;
    let failed = tally.failed;
    println!(rt; "{rows} rows, {failed} failed")?;
    Ok(tally)
}

fn main(rt: HostRuntime) -> io::Result<ExitCode> {
    let tally = run_files(&rt)?;
    Ok(if tally.rows > 0 && tally.failed == 0 {
        ExitCode::SUCCESS
    } else {
        ExitCode::FAILURE
    })
}
