// The top call.
ghost use Rattle.std.specs.Prelude.{◌≡◌, IfOk, IfErr};
ghost use Rattle.std.specs.Str.{bytes_eq};
ghost use Rattle.oxia_top.specs.Top.{Reports, Stops, Replays, Ends, IsComplete, wrong_word as wrong_word_of};

use crate::input::{InputFault, read_all};
use crate::output::write_all;
use crate::report::report;
use ox_meaning::law_shard_is_machine;
use ox_outside::{Sink, Source};
use ox_schedule::{ScheduleFault, law_encodable, law_places, read_schedule};
use ox_solo_safety::law_legal;
use ox_types::{Ended, List, Octets};
use std::alloc::Global;

fn is(word: &[u8], text: &[u8]) -> bool
    ensures { result ≡ bytes_eq word.now text.now }
{
    word == text
}

/// The index of the first wrong word, or the number of words where one is missing.
fn wrong_word(words: &[Octets]) -> Option<u64>
    ensures { result ≡ wrong_word_of words.now }
{
    match words {
        [] => Some(0),
        [word] if is(word.as_slice(), b"replay") => None,
        [word, _, ..] if is(word.as_slice(), b"replay") => Some(1),
        _ => Some(0),
    }
}

/// The report of the schedule that the source gives.
fn answer<S: Source>(alloc: Global, source: &mut S) -> Result<Octets, Ended>
    ensures text { IfOk result (Reports (S.stream source.old) (S.stream source.new)) }
    ensures stops { IfErr result (Stops (S.stream source.old) (S.stream source.new)) }
{
    let bytes = match read_all(alloc, source) {
        Ok(bytes) => bytes,
        Err(InputFault::ReadFault) => return Err(Ended::ReadFault),
        Err(InputFault::TooLong) => return Err(Ended::InputTooLong),
        Err(InputFault::NoMemory) => return Err(Ended::NoMemory),
    };
    let schedule = match read_schedule(alloc, bytes.as_slice()) {
        Ok(schedule) => schedule,
        Err(ScheduleFault::BadLine { line, rule }) => return Err(Ended::BadLine { line, rule }),
        Err(ScheduleFault::NoMemory) => return Err(Ended::NoMemory),
    };
    law_encodable();
    law_places();
    law_shard_is_machine();
    law_legal();
    match report(alloc, schedule) {
        Ok(text) => Ok(text),
        Err(_) => Err(Ended::NoMemory),
    }
}

fn replay<S: Source, W: Sink>(alloc: Global, source: &mut S, sink: &mut W) -> Ended
    ensures { Replays (record { source = S.stream source.old; source_after = S.stream source.new; sink = W.stream sink.old; sink_after = W.stream sink.new }) result }
{
    let text = match answer(alloc, source) {
        Ok(text) => text,
        Err(ended) => return ended,
    };
    match write_all(sink, text.as_slice()) {
        Ok(()) => Ended::Done,
        Err(_) => Ended::WriteFault,
    }
}

fn run<S: Source, W: Sink>(
    alloc: Global,
    words: &List<Octets>,
    source: &mut S,
    sink: &mut W,
) -> Ended
    ensures { Ends words.now (record { source = S.stream source.old; source_after = S.stream source.new; sink = W.stream sink.old; sink_after = W.stream sink.new }) result }
{
    match wrong_word(words.as_slice()) {
        Some(word) => Ended::Usage { word },
        None => replay(alloc, source, sink),
    }
}

/// Does what the words say, over the source and the sink, and says how it ended (docs/PROMISES.md).
///
/// The only command is `replay`: it reads a schedule from the source and writes the report of its run. The whole
/// schedule is read and checked before anything is written. It costs the input, the run and the report, which is held
/// in memory until it is written.
pub fn oxia<S: Source, W: Sink>(
    alloc: Global,
    words: &List<Octets>,
    source: &mut S,
    sink: &mut W,
) -> Ended
    // Each ending has its cause, and `Done` comes with the whole report of a legal run.
    ensures ends { Ends words.now (record { source = S.stream source.old; source_after = S.stream source.new; sink = W.stream sink.old; sink_after = W.stream sink.new }) result }
    // An input that spells a schedule is replayed where neither the source nor the sink fails.
    ensures complete { IsComplete words.now (record { source = S.stream source.old; source_after = S.stream source.new; sink = W.stream sink.old; sink_after = W.stream sink.new }) result }
{
    run(alloc, words, source, sink)
}
