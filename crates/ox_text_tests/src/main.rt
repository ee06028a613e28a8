//! Reads the lines of data/ as schedules, and writes texts of a report. Standard output is what is wanted of both.
#![tactic(auto)]

mod messages;
mod reading;
mod texts;

use messages::add_messages;
use ox_types::{NoMemory, Octets};
use reading::{add_cases, add_long};
use std::alloc::Global;
use std::io::Write;
use std::{fs, io};
use texts::add_texts;

fn all(alloc: Global, first_lines: &[u8], lines: &[u8]) -> Result<Octets, NoMemory> {
    let mut out = Octets::new(alloc);
    add_cases(alloc, &mut out, b"", first_lines)?;
    add_cases(alloc, &mut out, b"solo 1\n", lines)?;
    add_long(alloc, &mut out, 1_048_576)?;
    add_long(alloc, &mut out, 1_048_577)?;
    add_texts(alloc, &mut out)?;
    add_messages(alloc, &mut out)?;
    Ok(out)
}

fn main(rt: HostRuntime) -> io::Result<()> {
    let first_lines = fs::read(&rt, "first_lines")?;
    let lines = fs::read(&rt, "lines")?;
    match all(rt.alloc(), first_lines.as_slice(), lines.as_slice()) {
        Ok(out) => rt.stdout().write_all(out.as_slice()),
        Err(NoMemory) => println!(rt; "no memory"),
    }
}
