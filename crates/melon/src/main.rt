//! The program: its words, standard input and output, what keeps the rows, and the status with which it ends.
#![tactic(auto)]

use melon_cli::{Status, melon_run};
use melon_outside::{Keeper, KeeperError, MemoryKeeper, StdSink, StdSource};
use melon_schema::List;
use melon_sqlite::open_file;
use std::io::ErrorKind;
use std::process::ExitCode;
use std::rt::Env;
use std::{env, io};

fn words_of<R: Env + AllocGlobal>(rt: &R) -> io::Result<Vec<String>> {
    let mut words = Vec::new(rt.alloc());
    for word in env::args(rt)?.skip(1) {
        words.push(word)?;
    }
    Ok(words)
}

/// How the program ends.
enum End {
    Ran(Status),
    /// The file can't be opened, or is none of this program's; nothing was run.
    NotOpened,
}

/// The number with which a program ends that could not open its file.
const NOT_OPENED: u8 = 8;

/// Runs these words over standard input and output.
fn run_over<K: Keeper>(rt: &HostRuntime, words: &[String], keeper: &mut K) -> Status {
    let mut input = StdSource::new(rt.stdin());
    let mut output = StdSink::new(rt.stdout());
    melon_run(rt.alloc(), words, &mut input, &mut output, keeper)
}

fn run_in_memory(rt: &HostRuntime, words: &[String]) -> Status {
    let alloc = rt.alloc();
    let mut keeper = MemoryKeeper::new(alloc, List::new(alloc), List::new(alloc));
    run_over(rt, words, &mut keeper)
}

/// Runs the script over the database file at a path.
fn run_on_file(rt: &HostRuntime, path: &str) -> End {
    let Ok(word) = String::from_str(rt.alloc(), "run") else {
        return End::Ran(Status::Memory);
    };
    let mut keeper = match open_file(rt, path) {
        Ok(keeper) => keeper,
        Err(KeeperError::Memory) => return End::Ran(Status::Memory),
        Err(KeeperError::Failed) => return End::NotOpened,
    };
    let status = run_over(rt, &[word], &mut keeper);
    // Where this fails, what was committed stays in the log, from which the next opening takes it.
    let _ = keeper.into_connection().close();
    End::Ran(status)
}

/// How a run ends whose words could not be read: a word that isn't UTF-8 is none of this program's.
fn unread(fault: &io::Error) -> Status {
    match fault.kind() {
        ErrorKind::OutOfMemory => Status::Memory,
        _ => Status::BadWords,
    }
}

fn run_on(rt: &HostRuntime) -> End {
    let words = match words_of(rt) {
        Ok(words) => words,
        Err(fault) => return End::Ran(unread(&fault)),
    };
    match words.as_slice() {
        [word, path] if word.as_str() == "keep" => run_on_file(rt, path.as_str()),
        words => End::Ran(run_in_memory(rt, words)),
    }
}

/// Says on standard error how a run ended that isn't done. A failed write there has nowhere to be told.
fn report(rt: &impl Eprint, end: &End) {
    let _ = match end {
        End::Ran(Status::Done) => Ok(()),
        End::Ran(Status::BadScript { line }) => eprintln!(rt; "melon: status 3 at line {line}"),
        End::Ran(status) => eprintln!(rt; "melon: status {}", status.code()),
        End::NotOpened => eprintln!(rt; "melon: cannot open"),
    };
}

fn main(rt: HostRuntime) -> ExitCode {
    let end = run_on(&rt);
    report(&rt, &end);
    match end {
        End::Ran(status) => ExitCode::from(status.code()),
        End::NotOpened => ExitCode::from(NOT_OPENED),
    }
}
