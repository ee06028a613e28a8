use ox_outside::{Failed, Sink};
use ox_types::Octets;
use std::alloc::Global;

/// A sink that takes one byte at a time, and none behind so many.
#[derive(Drop)]
pub struct Few {
    pub bytes: Octets,
    faults: u64,
    left: u64,
}

impl Few {
    pub fn new(alloc: Global, left: u64) -> Few {
        Few {
            bytes: Octets::new(alloc),
            faults: 0,
            left,
        }
    }
}

impl Sink for Few {
    ghost use Rattle.std.specs.Prelude.{Some};

    ghost stream = { λ s. record { told = Some s.bytes; faults = s.faults } };

    fn write(&mut self, bytes: &[u8]) -> Result<usize, Failed> {
        let count = bytes.len().min(1);
        if self.left > 0 && self.bytes.extend(&bytes[..count]).is_ok() {
            self.left -= 1;
            return Ok(count);
        }
        self.faults = self.faults.saturating_add(1);
        Err(Failed)
    }
}
