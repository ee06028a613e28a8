//! A replica of one shard: it keeps the shard's log on its disks, and applies it to a machine.
#![tactic(auto)]

mod applying;
mod client;
mod input;
mod law;
mod leading;
mod live;
mod moving;
mod output;
mod plan;
mod recover;
mod replica;
mod step;
mod term;
mod tick;
mod worked;

pub use input::Input;
pub use law::law_either_order;
pub use leading::{Cursor, CursorState, Leading, Pending};
pub use live::Live;
pub use output::{Answered, Cut, HandleFault, Outgoing, Output};
pub use replica::Replica;
pub use worked::worked_rows;
