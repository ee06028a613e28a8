use crate::few::Few;
use ox_memory::MemorySource;
use ox_types::{Ended, List, NoMemory, Octets};
use oxia_top::oxia;
use std::alloc::Global;

/// So many bytes as no report has.
pub const MANY: u64 = u64::MAX;

/// A command and what it is run over.
#[derive(Clone, Copy)]
pub struct Case<'a> {
    pub words: &'a [&'a [u8]],
    pub input: &'a [u8],
    /// The number of the read that fails, from 1.
    pub fails_at: u64,
    /// The number of bytes that the sink takes.
    pub takes: u64,
}

impl<'a> Case<'a> {
    /// A replay over streams that never fail.
    pub fn sound(input: &'a [u8]) -> Case<'a> {
        Case {
            words: &[b"replay"],
            input,
            fails_at: 0,
            takes: MANY,
        }
    }
}

fn words_of(alloc: Global, words: &[&[u8]]) -> Result<List<Octets>, NoMemory> {
    let mut list = List::new(alloc);
    for word in words {
        list.push(Octets::from_slice(alloc, word)?)?;
    }
    Ok(list)
}

fn source_of(alloc: Global, case: Case) -> Result<MemorySource, NoMemory> {
    let mut failing = List::new(alloc);
    failing.push(case.fails_at)?;
    let mut source = MemorySource::with_failing(alloc, failing)?;
    source.give(case.input)?;
    Ok(source)
}

/// What is written, and behind it what the program says where it isn't done, and its status.
pub fn said(alloc: Global, case: Case) -> Result<Octets, NoMemory> {
    let words = words_of(alloc, case.words)?;
    let mut source = source_of(alloc, case)?;
    let mut sink = Few::new(alloc, case.takes);
    let ended = oxia(alloc, &words, &mut source, &mut sink);
    let Few {
        bytes: mut text,
        ..
    } = sink;
    if ended != Ended::Done {
        let status = ended.status();
        let line = format!(in alloc; "oxia: {ended}\nstatus {status}\n")?;
        text.extend(line.as_bytes())?;
    }
    Ok(text)
}
