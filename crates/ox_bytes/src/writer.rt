ghost use Rattle.std.specs.Prelude.{◌≡◌, ◌++◌, ◌∷◌, ◌<◌, ◌^◌, [], length, OnOk, OnErr};
ghost use Rattle.ox_bytes.specs.Numbers.{be32, be64};
ghost use Rattle.ox_bytes.specs.Fields.{bool as bool_form, octets as octets_form, key as key_form, value as value_form};

use byteorder::{BigEndian, ByteOrder};
use ox_types::{Key, NoMemory, Octets, Value};
use std::alloc::Global;
use std::marker::Model;

/// Bytes that are written one field behind the other (docs/FORMATS.md). Contracts see it as what was written.
///
/// Each call costs what it writes, and now and then a move of all. Where memory runs out, the writer stays as it was.
#[derive(Debug, Drop)]
pub struct Writer {
    bytes: Vec<u8>,
}

impl Model for Writer {
    ghost use Rattle.std.specs.Prelude.{List, ℕ};

    ghost Value = { List ℕ };

    ghost view = { λ w. w.bytes.items };
}

impl Writer {
    pub fn empty(alloc: Global) -> Writer
        ensures { result ≡ [] }
    {
        Writer {
            bytes: Vec::new(alloc),
        }
    }

    /// One byte.
    pub fn put_u8(&mut self, n: u8) -> Result<(), NoMemory>
        ensures ok { OnOk result (self.new ≡ self.old ++ n ∷ []) }
        ensures err { OnErr result (self.new ≡ self.old) }
    {
        self.bytes.push(n)?;
        Ok(())
    }

    /// Four bytes, the highest first.
    #[tactic(auto, unfolding(crate::specs::Numbers::be32))]
    pub fn put_u32(&mut self, n: u32) -> Result<(), NoMemory>
        ensures ok { OnOk result (self.new ≡ self.old ++ be32 n) }
        ensures err { OnErr result (self.new ≡ self.old) }
    {
        let mut text = [0; 4];
        BigEndian::write_u32(&mut text, n);
        self.put_bytes(&text)
    }

    /// Eight bytes, the highest first.
    #[tactic(auto, unfolding(crate::specs::Numbers::be64))]
    pub fn put_u64(&mut self, n: u64) -> Result<(), NoMemory>
        ensures ok { OnOk result (self.new ≡ self.old ++ be64 n) }
        ensures err { OnErr result (self.new ≡ self.old) }
    {
        let mut text = [0; 8];
        BigEndian::write_u64(&mut text, n);
        self.put_bytes(&text)
    }

    /// These bytes, without their length.
    pub fn put_bytes(&mut self, bytes: &[u8]) -> Result<(), NoMemory>
        ensures ok { OnOk result (self.new ≡ self.old ++ bytes.now) }
        ensures err { OnErr result (self.new ≡ self.old) }
    {
        self.bytes.extend_from_slice(bytes)?;
        Ok(())
    }

    /// The byte 0 or 1.
    pub fn put_bool(&mut self, is: bool) -> Result<(), NoMemory>
        ensures ok { OnOk result (self.new ≡ self.old ++ bool_form.text is) }
        ensures err { OnErr result (self.new ≡ self.old) }
    {
        self.put_u8(if is { 1 } else { 0 })
    }

    /// The length of these bytes, and the bytes.
    pub fn put_sized(&mut self, bytes: &[u8]) -> Result<(), NoMemory>
        requires { length bytes.now < 2 ^ 32 }
        ensures ok { OnOk result (self.new ≡ self.old ++ octets_form.text bytes.now) }
        ensures err { OnErr result (self.new ≡ self.old) }
    {
        let start = self.bytes.len();
        self.put_u32(bytes.len() as u32)?;
        let put = self.put_bytes(bytes);
        if put.is_err() {
            self.bytes.truncate(start);
        }
        put
    }

    /// Their number, and the bytes.
    pub fn put_octets(&mut self, octets: &Octets) -> Result<(), NoMemory>
        requires { length octets.now < 2 ^ 32 }
        ensures ok { OnOk result (self.new ≡ self.old ++ octets_form.text octets.now) }
        ensures err { OnErr result (self.new ≡ self.old) }
    {
        self.put_sized(octets.as_slice())
    }

    /// The length of the key, and its bytes.
    pub fn put_key(&mut self, key: &Key) -> Result<(), NoMemory>
        ensures ok { OnOk result (self.new ≡ self.old ++ key_form.text key.now) }
        ensures err { OnErr result (self.new ≡ self.old) }
    {
        self.put_sized(key.bytes())
    }

    /// The length of the value, and its bytes.
    pub fn put_value(&mut self, value: &Value) -> Result<(), NoMemory>
        ensures ok { OnOk result (self.new ≡ self.old ++ value_form.text value.now) }
        ensures err { OnErr result (self.new ≡ self.old) }
    {
        self.put_sized(value.bytes())
    }

    /// All that was written.
    pub fn finish(self) -> Octets
        ensures { result ≡ self }
    {
        let Writer { bytes } = self;
        Octets::from_vec(bytes)
    }
}
