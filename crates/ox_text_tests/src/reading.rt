// What is read of a schedule.
use ox_schedule::{Schedule, ScheduleFault, add_event, read_schedule};
use ox_types::{NoMemory, Octets};
use std::alloc::Global;

/// `ok`, and the line of each event behind a space.
fn written(alloc: Global, schedule: &Schedule) -> Result<Octets, NoMemory> {
    let mut out = Octets::from_slice(alloc, b"ok")?;
    for event in schedule.events.as_slice() {
        out.extend(b" ")?;
        add_event(alloc, &mut out, event)?;
    }
    Ok(out)
}

/// What is read, or the first line and rule at fault.
fn read(alloc: Global, text: &[u8]) -> Result<Octets, NoMemory> {
    match read_schedule(alloc, text) {
        Ok(schedule) => written(alloc, &schedule),
        Err(ScheduleFault::BadLine { line, rule }) => {
            let told = format!(in alloc; "{line} {rule}")?;
            Octets::from_slice(alloc, told.as_bytes())
        }
        Err(ScheduleFault::NoMemory) => Err(NoMemory),
    }
}

/// What is read of one line behind a front, and the line.
fn add_case(alloc: Global, out: &mut Octets, front: &[u8], line: &[u8]) -> Result<(), NoMemory> {
    let mut text = Octets::from_slice(alloc, front)?;
    text.extend(line)?;
    text.extend(b"\n")?;
    out.extend(read(alloc, text.as_slice())?.as_slice())?;
    out.extend(b" | ")?;
    out.extend(line)?;
    out.extend(b"\n")
}

/// The same of each line.
pub fn add_cases(
    alloc: Global,
    out: &mut Octets,
    front: &[u8],
    lines: &[u8],
) -> Result<(), NoMemory> {
    for line in lines.split(|b| *b == b'\n') {
        add_case(alloc, out, front, line)?;
    }
    Ok(())
}

/// The first nine bytes of what is read of a put whose value has this length.
pub fn add_long(alloc: Global, out: &mut Octets, length: usize) -> Result<(), NoMemory> {
    let mut text = Octets::from_slice(alloc, b"solo 1\nclient 1 0 put a ")?;
    text.extend(vec![in alloc; b'v'; length]?.as_slice())?;
    let told = read(alloc, text.as_slice())?;
    let shown = told.len().min(9);
    out.extend(&told.as_slice()[..shown])?;
    out.extend(b"\n")
}
