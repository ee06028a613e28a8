ghost use Rattle.std.specs.Prelude.{◌≡◌};

use ox_types::{LineRule, NoMemory};
use std::alloc::AllocError;
use thiserror::Error;

/// Why a line was not read.
#[derive(Clone, Copy, Debug, PartialEq, Eq, Error)]
pub enum LineFault {
    #[error("the line breaks the rule `{0}`")]
    Rule(LineRule),
    #[error("memory ran out")]
    NoMemory,
}

impl From<NoMemory> for LineFault {
    ghost use Rattle.ox_schedule.specs.declared.fault.LineFault.TheVariants as line;

    ghost from_gives = { λ _ e. e ≡ line.NoMemory };

    fn from(_e: NoMemory) -> LineFault {
        LineFault::NoMemory
    }
}

impl From<AllocError> for LineFault {
    ghost use Rattle.ox_schedule.specs.declared.fault.LineFault.TheVariants as line;

    ghost from_gives = { λ _ e. e ≡ line.NoMemory };

    fn from(_e: AllocError) -> LineFault {
        LineFault::NoMemory
    }
}

/// Why a schedule was not read.
#[derive(Clone, Copy, Debug, PartialEq, Eq, Error)]
pub enum ScheduleFault {
    /// The first bad line, counted from 1, and the first rule that it breaks.
    #[error("line {line} breaks the rule `{rule}`")]
    BadLine { line: u64, rule: LineRule },
    #[error("memory ran out")]
    NoMemory,
}

impl From<NoMemory> for ScheduleFault {
    ghost use Rattle.ox_schedule.specs.declared.fault.ScheduleFault.TheVariants as schedule;

    ghost from_gives = { λ _ e. e ≡ schedule.NoMemory };

    fn from(_e: NoMemory) -> ScheduleFault {
        ScheduleFault::NoMemory
    }
}
