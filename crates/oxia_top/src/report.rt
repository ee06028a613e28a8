// The report of a run.
ghost use Rattle.std.specs.Prelude.{◌≡◌, ◌++◌, ◌<◌, ◌^◌, true, IsTrue, OnOk, IfOk, length};
ghost use Rattle.std.specs.List.{list_all};
ghost use Rattle.ox_schedule.specs.Schedule.{IsSchedule};
ghost use Rattle.ox_schedule.specs.Lawful.{asks_encodable, is_of_one_node};
ghost use Rattle.oxia_top.specs.Report.{report_of, numbered_line, blocks_of};
ghost use Rattle.oxia_top.specs.Telling.{IsToldOf, AreToldOf};

use crate::world::World;
use ox_report::add_history;
use ox_schedule::{First, Request, Schedule, add_event, law_places};
use ox_solo_safety::law_in_step;
use ox_text::add_number;
use ox_types::{List, NoMemory, Octets};
use ox_wire::Event;
use std::alloc::Global;

/// How many blocks a replica has where the first line doesn't say it.
const DEFAULT_BLOCKS: u64 = 1024;

/// How many blocks of 4,096 bytes each replica has.
fn blocks_in(first: First) -> u64
    ensures { result ≡ blocks_of first }
{
    let First::Solo { blocks, .. } = first;
    match blocks {
        Some(blocks) => blocks,
        None => DEFAULT_BLOCKS,
    }
}

fn add_event_line(
    alloc: Global,
    text: &mut Octets,
    number: u64,
    event: &Event<Request>,
) -> Result<(), NoMemory>
    ensures { OnOk result (text.new ≡ text.old ++ numbered_line number event.now) }
{
    text.extend(b"@")?;
    add_number(text, number)?;
    text.extend(b" ")?;
    add_event(alloc, text, event)?;
    text.extend(b"\n")
}

/// One event: its line behind its number, and what is seen of it. Gives the world behind it.
fn tell_event(
    alloc: Global,
    text: &mut Octets,
    world: World,
    number: u64,
    event: Event<Request>,
) -> Result<World, NoMemory>
    requires there { IsTrue (is_of_one_node event) }
    requires encodable { IsTrue (asks_encodable event) }
    ensures { IfOk result (IsToldOf world number event text.old text.new) }
{
    add_event_line(alloc, text, number, &event)?;
    world.happen(alloc, text, event)
}

/// All events in order, from a world on. Gives the world behind the last.
fn tell_events(
    alloc: Global,
    text: &mut Octets,
    world: World,
    events: List<Event<Request>>,
) -> Result<World, NoMemory>
    requires there { list_all is_of_one_node events ≡ true }
    requires encodable { list_all asks_encodable events ≡ true }
    requires few { length events < 2 ^ 53 }
    ensures { IfOk result (AreToldOf world events text.old text.new) }
{
    let mut behind = world;
    let mut number = 0u64;
    for event in events.into_vec() {
        number += 1;
        behind = tell_event(alloc, text, behind, number, event)?;
    }
    Ok(behind)
}

/// Runs the schedule, and gives the report. It costs the run and the text.
pub fn report(alloc: Global, schedule: Schedule) -> Result<Octets, NoMemory>
    requires valid { IsSchedule schedule }
    requires encodable { list_all asks_encodable schedule.events ≡ true }
    requires few { length schedule.events < 2 ^ 53 }
    ensures { IfOk result (λ text. text ≡ report_of schedule) }
{
    law_in_step();
    law_places();
    let mut text = Octets::new(alloc);
    let opening = World::opening(alloc, blocks_in(schedule.first))?;
    let world = tell_events(alloc, &mut text, opening, schedule.events)?;
    add_history(alloc, &mut text, world.history(), world.origins())?;
    Ok(text)
}
