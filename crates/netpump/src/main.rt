//! A verified one-way relay from a low party to a high party.
#![tactic(auto)]

mod door_log;
mod explain;

use adapters::{
    Access, Counted, FileShelf, KeySource, ShownSource, StdSink, StdSource, Traffic, machine_side,
    now, stepping_side,
};
use disk_model::Shelf;
use dispatch::{batch, live};
use door_log::DoorLog;
use explain::{Ending, Passed, Trouble, explain, row};
use folder_adapters::{FileFolders, FolderNotes, ProgressLine};
use pump_frame::SessionRow;
use pump_link::{Ports, Sink, Source};
use relay_side::RelaySide;
use relay_threads::Watch;
use std::alloc::{Alloc, Global};
use std::fs::{File, Files};
use std::io::{self, IsTerminal};
use std::net::{Net, TcpListener, TcpStream};
use std::process::ExitCode;
use std::sync::Wait;
use std::thread::Threads;
use std::{env, time};
use transfer::transfer;

/// The words after the program's name.
fn words(rt: &HostRuntime) -> io::Result<Vec<String>> {
    let mut words: Vec<String> = Vec::new(rt.alloc());
    for word in env::args(rt)?.skip(1) {
        words.push(word)?;
    }
    Ok(words)
}

/// Is this the first word?
fn begin_with(words: &[String], name: &str) -> bool {
    words.first().map(String::as_str) == Some(name)
}

/// Does the first word name a command with threads or over a socket?
fn is_live(words: &[String]) -> bool {
    ["race", "serve", "receive", "send", "append"]
        .iter()
        .any(|name| begin_with(words, name))
}

/// Does the first word name a command over folders?
fn is_transfer(words: &[String]) -> bool {
    begin_with(words, "drop") || begin_with(words, "collect")
}

/// What the command does with disks.
fn access(words: &[String]) -> Access {
    let reads = ["show", "unwrap", "messages", "status"]
        .iter()
        .any(|name| begin_with(words, name));
    if reads { Access::Read } else { Access::Write }
}

/// The row of the session that is to be served, if the words are for that and the table has it.
fn served_row(rt: &HostRuntime, words: &[String]) -> Option<SessionRow> {
    if begin_with(words, "serve") {
        row(rt, words)
    } else {
        None
    }
}

/// What a command came to, for the sentence about it.
#[derive(Clone, Copy)]
struct Came {
    status: u8,
    /// The ports that failed, if some did, or the folder.
    trouble: Option<Trouble>,
    /// Whether a connection came to an end.
    has_ended: bool,
    /// How many files were left lying in the folder.
    lying: u64,
}

impl Came {
    /// Without ports.
    fn alone(status: u8) -> Came {
        Came {
            status,
            trouble: None,
            has_ended: false,
            lying: 0,
        }
    }
}

/// The side whose ports failed, if some did.
fn failed_ports<P: Ports>(low: &P, high: &P) -> Option<Trouble> {
    if low.faults() > 0 {
        Some(Trouble::LowPort)
    } else if high.faults() > 0 {
        Some(Trouble::HighPort)
    } else {
        None
    }
}

/// Runs the command with threads or over a socket that the words are.
fn run_live<
    R: Threads
        + Wait
        + Sync
        + Net<Listener = TcpListener, Stream = TcpStream>
        + Files<File = File>
        + time::Clock,
    S: Shelf,
    I: Source,
    O: Sink + Send,
    V: Watch + Sync,
>(
    rt: &R,
    alloc: Global,
    words: &Vec<String>,
    shelf: &mut S,
    script: &mut I,
    out: &mut O,
    watch: &V,
) -> Came
where
    S::Disk: Send,
{
    let (mut at_low, mut at_high) = (Traffic::new(), Traffic::new());
    let (mut low, mut high) = if begin_with(words.as_slice(), "race") {
        (
            stepping_side(alloc, rt, &mut at_low),
            stepping_side(alloc, rt, &mut at_high),
        )
    } else {
        let start = now(rt);
        (
            machine_side(alloc, rt, start, &mut at_low),
            machine_side(alloc, rt, start, &mut at_high),
        )
    };
    let mut keys = KeySource::new(rt);
    let status = live(
        rt, alloc, words, shelf, &mut low, &mut high, &mut keys, script, out, watch,
    );
    Came {
        status,
        trouble: failed_ports(&low.ports, &high.ports),
        has_ended: low.ports.traffic().has_ended() || high.ports.traffic().has_ended(),
        lying: 0,
    }
}

/// Runs the command over folders that the words are.
fn run_transfer<S: Shelf, O: Sink>(
    rt: &HostRuntime,
    words: &Vec<String>,
    shelf: &mut S,
    out: &mut O,
) -> Came {
    let notes = FolderNotes::new(ProgressLine::new(rt.stderr()));
    let mut folders = FileFolders::new(rt, &notes);
    let mut traffic = Traffic::new();
    let RelaySide { mut ports, .. } = machine_side(rt.alloc(), rt, now(rt), &mut traffic);
    let status = transfer(rt.alloc(), words, shelf, &mut folders, &mut ports, out);
    let trouble = if ports.faults() == 0 {
        notes.why().map(Trouble::Folder)
    } else if begin_with(words.as_slice(), "drop") {
        Some(Trouble::LowPort)
    } else {
        Some(Trouble::HighPort)
    };
    Came {
        status,
        trouble,
        has_ended: false,
        lying: notes.lying(),
    }
}

/// What the shelf knows of the file that stopped the command.
fn trouble_of<R: Files<File = File>>(shelf: &FileShelf<R>) -> Trouble {
    match shelf.why() {
        Some(why) if shelf.faults() > 0 => Trouble::Unread(why),
        Some(why) => Trouble::Failed(why),
        None => Trouble::Told,
    }
}

/// What is said where there is not even memory for the words.
fn refuse_words(rt: &HostRuntime) -> ExitCode {
    let ending = Ending {
        status: 1,
        last: b"",
        trouble: Trouble::Told,
        passed: Passed::default(),
    };
    let _ = explain(rt, &[], &ending);
    ExitCode::from(1)
}

fn main(rt: HostRuntime) -> ExitCode {
    let words = match words(&rt) {
        Ok(words) => words,
        Err(fault) if fault.kind() == io::ErrorKind::OutOfMemory => return refuse_words(&rt),
        // Words that can't be told are no command.
        Err(_) => Vec::new(rt.alloc()),
    };
    let mut shelf = FileShelf::new(rt.alloc(), &rt, access(words.as_slice()));
    // A file that is sent takes its time, so a terminal is shown how far it is.
    let is_shown = begin_with(words.as_slice(), "wrap") && rt.stderr().is_terminal();
    let source = ShownSource::new(StdSource::new(rt.stdin()), rt.stderr(), is_shown);
    let mut script = Counted::new(source);
    let mut out = Counted::new(StdSink::new(rt.stdout()));
    let came = if is_live(words.as_slice()) {
        let log = DoorLog::new(&rt, served_row(&rt, words.as_slice()));
        run_live(
            &rt,
            rt.alloc(),
            &words,
            &mut shelf,
            &mut script,
            &mut out,
            &log,
        )
    } else if is_transfer(words.as_slice()) {
        run_transfer(&rt, &words, &mut shelf, &mut out)
    } else {
        let (script, out) = (script.inner_mut(), out.inner_mut());
        Came::alone(batch(rt.alloc(), &words, &mut shelf, script, out))
    };
    script.inner_mut().end();
    let ending = Ending {
        status: came.status,
        last: out.inner().last(),
        trouble: came.trouble.unwrap_or(trouble_of(&shelf)),
        passed: Passed {
            read: script.lines(),
            written: out.lines(),
            has_ended: came.has_ended,
            lying: came.lying,
        },
    };
    // The status tells it too, where standard error can't be written.
    let _ = explain(&rt, words.as_slice(), &ending);
    ExitCode::from(came.status)
}
