//! The program: its words, the one call of the tool over the real objects, and the status to end with.
#![tactic(auto)]

use rpm_command::{Kind, kind_of};
use rpm_real::{Purpose, RealDisk, RealShelf, RealSink, moment_of};
use rpm_tool::{Why, run};
use rpm_words::{Words, place_of, read};
use std::alloc::Global;
use std::fs::OpenOptions;
use std::os::fd::{AsRawFd, IntoRawFd};
use std::path::Path;
use std::process::ExitCode;
use std::rt::Env;
use std::{env, fs, io};

const NO_MEMORY: u8 = 254;

const NO_TEXT: u8 = 251;

/// Opens something that takes nothing and gives nothing.
fn open_nothing(rt: &HostRuntime) -> io::Result<fs::File> {
    let mut how = OpenOptions::new();
    how.read(true).write(true);
    match how.open(rt, "/dev/null") {
        Ok(file) => Ok(file),
        Err(_) => fs::open(rt, "/"),
    }
}

/// Takes the places of the standard streams that are closed. Else a file of the database would get one of them, and be
/// read as the input or written as an output.
fn take_streams(rt: &HostRuntime) {
    for _ in 0..3 {
        match open_nothing(rt) {
            Ok(file) if file.as_raw_fd() <= 2 => {
                let _kept_open = file.into_raw_fd();
            }
            _ => return,
        }
    }
}

/// The first word of a command line that is told by the program's own name: `rpm` or `rpmdb`, alone or at its end.
fn called_by(name: &str) -> Option<&'static str> {
    let name = Path::new(name).file_name()?;
    if name.ends_with("rpmdb") {
        Some("rpmdb")
    } else if name.ends_with("rpm") {
        Some("rpm")
    } else {
        None
    }
}

/// The words of the process, or the status to end with. The program's own name is left out where it tells no first
/// word.
fn words_of(rt: &(impl Env + AllocGlobal)) -> Result<Words, u8> {
    let mut words = Words::new(rt.alloc());
    let args = match env::args(rt) {
        Ok(args) => args,
        Err(error) if error.kind() == io::ErrorKind::InvalidData => return Err(NO_TEXT),
        Err(_) => return Err(NO_MEMORY),
    };
    let mut is_first = true;
    for arg in args {
        let word = if is_first {
            called_by(arg.as_str())
        } else {
            Some(arg.as_str())
        };
        is_first = false;
        if let Some(word) = word
            && (words.len() == u32::MAX || words.push(word).is_err())
        {
            return Err(NO_MEMORY);
        }
    }
    Ok(words)
}

/// What the command of these words is to do with the database.
fn purpose_of(alloc: Global, words: &Words) -> Purpose {
    match read(alloc, words) {
        Ok(ask) => match kind_of(alloc, words, &ask) {
            Ok(Kind::Change(_)) => Purpose::Change,
            Ok(Kind::Keyed(_)) => Purpose::Keyed,
            Ok(Kind::Files | Kind::Plain(_) | Kind::Text(_)) | Err(_) => Purpose::Plain,
        },
        Err(_) => Purpose::Plain,
    }
}

/// Runs the command line, and gives the status to end with.
fn status_of(rt: &HostRuntime) -> u8 {
    let words = match words_of(rt) {
        Ok(words) => words,
        Err(status) => {
            if status == NO_TEXT {
                let _ = eprintln!(rt; "rpm: a word is not UTF-8 text");
            }
            return status;
        }
    };
    let purpose = purpose_of(rt.alloc(), &words);
    let Ok(disk) = RealDisk::new(rt.alloc(), rt, place_of(&words), purpose) else {
        return NO_MEMORY;
    };
    let mut shelf = RealShelf::new(rt.alloc(), rt);
    let mut out = RealSink::new(rt.stdout());
    let mut err = RealSink::new(rt.stderr());
    let now = moment_of(rt);
    let (outcome, disk) = run(
        rt.alloc(),
        &words,
        disk,
        &mut shelf,
        &mut out,
        &mut err,
        now,
    );
    if let Some(obstacle) = disk.obstacle()
        && outcome.why == Why::DiskFault
    {
        let _ = eprintln!(rt; "rpm: {obstacle}");
    }
    outcome.status
}

fn main(rt: HostRuntime) -> ExitCode {
    take_streams(&rt);
    ExitCode::from(status_of(&rt))
}
