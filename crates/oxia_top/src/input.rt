// Reading all there is.
ghost use Rattle.std.specs.Prelude.{◌≤◌, IfOk, IfErr};
ghost use Rattle.oxia_top.specs.Input.{ReadsToEnd, InputFails};

use ox_outside::{Failed, Source};
use ox_types::{NoMemory, Octets};
use std::alloc::Global;
use thiserror::Error;

/// The most bytes that are read.
pub const INPUT_LIMIT: usize = 67_108_864;

/// The bytes that one read asks for.
const PIECE: usize = 4096;

/// Why the input was not read to its end.
#[derive(Clone, Copy, Debug, PartialEq, Eq, Error)]
pub enum InputFault {
    #[error("the source failed")]
    ReadFault,
    #[error("the input has more than {INPUT_LIMIT} bytes")]
    TooLong,
    #[error("memory ran out")]
    NoMemory,
}

impl From<Failed> for InputFault {
    ghost use Rattle.std.specs.Prelude.{◌≡◌};
    ghost use Rattle.oxia_top.specs.declared.input.InputFault.TheVariants as input;

    ghost from_gives = { λ _ e. e ≡ input.ReadFault };

    fn from(_e: Failed) -> InputFault {
        InputFault::ReadFault
    }
}

impl From<NoMemory> for InputFault {
    ghost use Rattle.std.specs.Prelude.{◌≡◌};
    ghost use Rattle.oxia_top.specs.declared.input.InputFault.TheVariants as input;

    ghost from_gives = { λ _ e. e ≡ input.NoMemory };

    fn from(_e: NoMemory) -> InputFault {
        InputFault::NoMemory
    }
}

/// All the bytes of a source. At most one buffer more than the limit is read.
pub fn read_all<S: Source>(alloc: Global, source: &mut S) -> Result<Octets, InputFault>
    ensures read { IfOk result (λ bytes. ReadsToEnd (S.stream source.old) (S.stream source.new) bytes) }
    ensures fault { IfErr result (InputFails (S.stream source.old) (S.stream source.new)) }
    ensures later { (S.stream source.old).faults ≤ (S.stream source.new).faults }
{
    let mut bytes = Octets::new(alloc);
    let mut piece = [0u8; PIECE];
    'pieces: while bytes.len() <= INPUT_LIMIT {
        let count = source.read(&mut piece)?;
        if count == 0 {
            return Ok(bytes);
        }
        bytes.extend(&piece[..count])?;
    }
    Err(InputFault::TooLong)
}
