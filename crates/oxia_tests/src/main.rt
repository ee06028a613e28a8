//! Runs the top call over the schedules of data/, which standard input names, and over streams that fail, and says of each whether what it writes is what is wanted.
#![tactic(auto)]

mod case;
mod few;

use case::{Case, MANY, said};
use ox_types::NoMemory;
use std::{fs, io};

/// The first line, counted from 1, in which the two differ.
fn differs_at(have: &[u8], wanted: &[u8]) -> Option<u64> {
    let mut line = 1u64;
    for (a, b) in have.iter().zip(wanted) {
        if a != b {
            return Some(line);
        }
        if *a == b'\n' {
            line = line.saturating_add(1);
        }
    }
    if have.len() == wanted.len() {
        None
    } else {
        Some(line)
    }
}

/// Runs one case and tells whether what it says is what is wanted.
fn tell(rt: &HostRuntime, name: &str, case: Case, wanted: &[u8]) -> io::Result<()> {
    match said(rt.alloc(), case) {
        Ok(text) => match differs_at(text.as_slice(), wanted) {
            None => println!(rt; "{name} ok"),
            Some(line) => println!(rt; "{name} differs at line {line}"),
        },
        Err(NoMemory) => println!(rt; "{name} runs out of memory"),
    }
}

/// The schedule `NAME.schedule` of data/, whose report is `NAME.report`.
fn tell_file(rt: &HostRuntime, name: &str) -> io::Result<()> {
    let alloc = rt.alloc();
    let schedule = fs::read(rt, format!(in alloc; "{name}.schedule")?)?;
    let report = fs::read(rt, format!(in alloc; "{name}.report")?)?;
    tell(
        rt,
        name,
        Case::sound(schedule.as_slice()),
        report.as_slice(),
    )
}

/// Words, the read that fails, the bytes that the sink takes, and what is said.
type BadEnd<'a> = (&'a str, &'a [&'a [u8]], u64, u64, &'a [u8]);

const BAD_ENDS: [BadEnd<'static>; 6] = [
    ("no words", &[], 0, MANY, b"oxia: Usage 0\nstatus 1\n"),
    (
        "a wrong word",
        &[b"relay"],
        0,
        MANY,
        b"oxia: Usage 0\nstatus 1\n",
    ),
    (
        "a word too many",
        &[b"replay", b"x"],
        0,
        MANY,
        b"oxia: Usage 1\nstatus 1\n",
    ),
    (
        "a word that is no text",
        &[b"replay", b"\xff"],
        0,
        MANY,
        b"oxia: Usage 1\nstatus 1\n",
    ),
    (
        "a read that fails in mid-stream",
        &[b"replay"],
        2,
        MANY,
        b"oxia: ReadFault\nstatus 3\n",
    ),
    (
        "a write that fails in mid-stream",
        &[b"replay"],
        0,
        9,
        b"history 0oxia: WriteFault\nstatus 4\n",
    ),
];

/// Commands that end badly over one small schedule.
fn tell_bad_ends(rt: &HostRuntime) -> io::Result<()> {
    for (name, words, fails_at, takes, wanted) in BAD_ENDS {
        let case = Case {
            words,
            input: b"solo 1\n",
            fails_at,
            takes,
        };
        tell(rt, name, case, wanted)?;
    }
    Ok(())
}

/// An input of one byte more than there may be.
fn tell_long_input(rt: &HostRuntime) -> io::Result<()> {
    let input = vec![in rt.alloc(); 0u8; 67_108_865]?;
    let wanted = b"oxia: InputTooLong\nstatus 11\n";
    tell(
        rt,
        "an input of one byte too many",
        Case::sound(input.as_slice()),
        wanted,
    )
}

/// A put of the longest key and value, over a sink that takes the first ten bytes of the report.
fn tell_long_put(rt: &HostRuntime) -> io::Result<()> {
    let mut text = Vec::from_slice(rt.alloc(), b"solo 1\nclient 1 0 put ")?;
    text.extend_from_slice(vec![in rt.alloc(); b'k'; 4096]?.as_slice())?;
    text.extend_from_slice(b" ")?;
    text.extend_from_slice(vec![in rt.alloc(); b'v'; 1_048_576]?.as_slice())?;
    let case = Case {
        takes: 10,
        ..Case::sound(text.as_slice())
    };
    let wanted = b"@1 client oxia: WriteFault\nstatus 4\n";
    tell(rt, "the longest key and value", case, wanted)
}

fn main(rt: HostRuntime) -> io::Result<()> {
    for name in rt.lines(rt.alloc()) {
        tell_file(&rt, name?.as_str())?;
    }
    tell_bad_ends(&rt)?;
    tell_long_input(&rt)?;
    tell_long_put(&rt)
}
