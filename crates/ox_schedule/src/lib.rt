//! Schedules as data, their reader, which is exact to the line and rule, and the writer of an event's line.
#![tactic(auto)]

mod escape;
mod event;
mod fault;
mod field;
mod law;
mod line;
mod options;
mod reading;
mod schedule;
mod shape;
mod word;
mod writer;

pub use fault::ScheduleFault;
pub use law::{
    law_encodable, law_first_bad_line, law_line, law_one_schedule, law_places, law_rules,
    law_schedule,
};
pub use ox_wire::{Event, Image, Turn};
pub use reading::read_schedule;
pub use schedule::{First, Grouping, Places, Request, Schedule};
pub use writer::add_event;
