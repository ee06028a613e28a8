ghost use Rattle.std.specs.Prelude.{◌≡◌, ◌-◌};

use crate::reader::Short;
use ox_types::NoMemory;
use std::alloc::{AllocError, AllocFailed};
use thiserror::Error;

/// The rule of the grammar that a field breaks (docs/FORMATS.md). Where one field breaks two of them, it is the first.
#[derive(Clone, Copy, Debug, PartialEq, Eq)]
pub enum WireRule {
    /// Bytes are missing.
    Short,
    /// The byte of an enum, a bool or an option is outside its table.
    Tag,
    /// A number or a length is out of bounds, or a key is reserved.
    Range,
    /// The order that a list has to keep is broken.
    Order,
    /// Bytes follow the value.
    Rest,
}

/// The first field at fault. Its place is told from the end, so that it is the same whatever stands before the field.
#[derive(Clone, Copy, Debug, PartialEq, Eq)]
pub struct BadField {
    /// How many bytes are left from the field on.
    pub left: usize,
    pub rule: WireRule,
}

impl BadField {
    /// The place of the field, counted from 0, in a text of so many bytes.
    pub fn at(self, whole: usize) -> u64
        ensures { result ≡ whole - self.left }
    {
        whole.saturating_sub(self.left) as u64
    }
}

/// Why a field was not read. A reader that answered one is read no further, unless the call says that it stays.
#[derive(Clone, Copy, Debug, PartialEq, Eq, Error)]
pub enum FieldFault {
    #[error("the bytes break the rule {:?} with {} bytes left", .0.rule, .0.left)]
    Bad(BadField),
    #[error("memory ran out")]
    NoMemory,
}

impl From<Short> for FieldFault {
    ghost use Rattle.ox_bytes.specs.declared.fault.FieldFault.TheVariants as fault;
    ghost use Rattle.ox_bytes.specs.declared.fault.WireRule.TheVariants as rule;

    ghost from_gives = { λ s e. e ≡ fault.Bad (record { left = s.left; rule = rule.Short }) };

    fn from(short: Short) -> FieldFault {
        FieldFault::Bad(BadField {
            left: short.left,
            rule: WireRule::Short,
        })
    }
}

impl From<NoMemory> for FieldFault {
    ghost use Rattle.ox_bytes.specs.declared.fault.FieldFault.TheVariants as fault;

    ghost from_gives = { λ _ e. e ≡ fault.NoMemory };

    fn from(_e: NoMemory) -> FieldFault {
        FieldFault::NoMemory
    }
}

impl From<AllocError> for FieldFault {
    ghost use Rattle.ox_bytes.specs.declared.fault.FieldFault.TheVariants as fault;

    ghost from_gives = { λ _ e. e ≡ fault.NoMemory };

    fn from(_e: AllocError) -> FieldFault {
        FieldFault::NoMemory
    }
}
