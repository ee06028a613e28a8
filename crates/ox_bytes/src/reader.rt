ghost use Rattle.std.specs.Prelude.{◌≡◌, length, Ok, Err, IfErr, OnErr, if◌then◌else◌};
ghost use Rattle.ox_bytes.specs.Reading.{Gives, GivesBy, GivesOrShort, Tells, TakesNoMemory, IsShort, bad as bad_field};
ghost use Rattle.ox_bytes.specs.Numbers.{u8_at, u32_at, u64_at, bytes_at};
ghost use Rattle.ox_bytes.specs.Fields.{octets_at, bool as bool_form, tag, number_to, octets, key, value, is_key, is_value, at_end};

use crate::fault::{BadField, FieldFault, WireRule};
use ox_types::{KEY_LIMIT, Key, Octets, VALUE_LIMIT, Value};
use std::alloc::Global;
use std::marker::Model;

/// Bytes are missing, and nothing was taken.
#[derive(Clone, Copy, Debug, PartialEq, Eq)]
pub struct Short {
    /// How many bytes were wanted.
    pub need: usize,
    /// How many were left.
    pub left: usize,
}

/// The key with these bytes, or else this fault.
fn key_of(alloc: Global, text: &[u8], fault: BadField) -> Result<Key, FieldFault>
    ensures { Tells result (if is_key text.now then Ok text.now else Err fault) }
{
    if text.len() > KEY_LIMIT {
        return Err(FieldFault::Bad(fault));
    }
    match Key::try_new(Vec::from_slice(alloc, text)?) {
        Ok(key) => Ok(key),
        Err(_) => Err(FieldFault::Bad(fault)),
    }
}

/// The value with these bytes, or else this fault.
fn value_of(alloc: Global, text: &[u8], fault: BadField) -> Result<Value, FieldFault>
    ensures { Tells result (if is_value text.now then Ok text.now else Err fault) }
{
    if text.len() > VALUE_LIMIT {
        return Err(FieldFault::Bad(fault));
    }
    match Value::try_new(Vec::from_slice(alloc, text)?) {
        Ok(value) => Ok(value),
        Err(_) => Err(FieldFault::Bad(fault)),
    }
}

/// Bytes that are read from the front (docs/FORMATS.md). Contracts see it as the bytes that are left.
///
/// Each call costs what it takes. Where memory runs out, the reader stays as it was.
#[derive(Debug, Drop)]
pub struct Reader<'a> {
    left: &'a [u8],
    alloc: Global,
}

impl<'a> Model for Reader<'a> {
    ghost use Rattle.std.specs.Prelude.{List, ℕ};

    ghost Value = { List ℕ };

    ghost view = { λ r. r.left.now };
}

impl<'a> Reader<'a> {
    /// What is read with memory is made by `alloc`.
    pub fn new(alloc: Global, bytes: &'a [u8]) -> Reader<'a>
        ensures { result ≡ bytes.now }
    {
        Reader { left: bytes, alloc }
    }

    /// What the reader makes its values with.
    pub fn alloc(&self) -> Global {
        self.alloc
    }

    /// The bytes that are left.
    pub(crate) fn rest(&self) -> &'a [u8]
        ensures { result.now ≡ self.now }
    {
        self.left
    }

    /// Puts the reader where these bytes are left.
    pub(crate) fn go_back(&mut self, rest: &'a [u8])
        ensures { self.new ≡ rest.now }
    {
        self.left = rest;
    }

    /// How many bytes are left.
    pub fn left(&self) -> usize
        ensures { result ≡ length self.now }
    {
        self.left.len()
    }

    /// The fault of the field that stands next.
    pub fn bad(&self, rule: WireRule) -> BadField
        ensures { result ≡ bad_field rule self.now }
    {
        BadField {
            left: self.left.len(),
            rule,
        }
    }

    /// The first byte.
    #[tactic(auto, unfolding(crate::specs::Numbers::u8_at))]
    pub fn take_u8(&mut self) -> Result<u8, Short>
        ensures read { GivesOrShort (λ n. n) result self.new (u8_at self.old) }
        ensures short { IfErr result (IsShort 1 self.old self.new) }
    {
        let [first, rest @ ..] = self.left else {
            return Err(Short { need: 1, left: 0 });
        };
        self.left = rest;
        Ok(*first)
    }

    /// The number that the first four bytes are, the highest first.
    #[tactic(auto, unfolding(crate::specs::Numbers::u32_at, crate::specs::Numbers::bytes_at))]
    pub fn take_u32(&mut self) -> Result<u32, Short>
        ensures read { GivesOrShort (λ n. n) result self.new (u32_at self.old) }
        ensures short { IfErr result (IsShort 4 self.old self.new) }
    {
        let text = self.take_bytes(4)?;
        Ok(u32::from_be_bytes([text[0], text[1], text[2], text[3]]))
    }

    /// The number that the first eight bytes are, the highest first.
    #[tactic(auto, unfolding(crate::specs::Numbers::u64_at, crate::specs::Numbers::bytes_at))]
    pub fn take_u64(&mut self) -> Result<u64, Short>
        ensures read { GivesOrShort (λ n. n) result self.new (u64_at self.old) }
        ensures short { IfErr result (IsShort 8 self.old self.new) }
    {
        let text = self.take_bytes(8)?;
        Ok(u64::from_be_bytes([
            text[0], text[1], text[2], text[3], text[4], text[5], text[6], text[7],
        ]))
    }

    /// So many bytes, which aren't copied.
    #[tactic(auto, unfolding(crate::specs::Numbers::bytes_at))]
    pub fn take_bytes(&mut self, len: usize) -> Result<&'a [u8], Short>
        ensures read { GivesOrShort (λ text. text.now) result self.new (bytes_at len self.old) }
        ensures short { IfErr result (IsShort len self.old self.new) }
    {
        if self.left.len() < len {
            return Err(Short {
                need: len,
                left: self.left.len(),
            });
        }
        let (text, rest) = self.left.split_at(len);
        self.left = rest;
        Ok(text)
    }
}

/// Where one of these calls answers a fault, also for want of memory, the reader stays as it was.
impl<'a> Reader<'a> {
    /// The byte of one of `count` variants, which count from 0.
    #[tactic(auto, unfolding(crate::specs::Numbers::u8_at))]
    pub fn take_tag(&mut self, count: u8) -> Result<u8, FieldFault>
        ensures read { Gives result self.new ((tag count).at self.old) }
        ensures stays { OnErr result (self.new ≡ self.old) }
        ensures no_memory { TakesNoMemory result }
    {
        let [first, rest @ ..] = self.left else {
            return Err(FieldFault::Bad(self.bad(WireRule::Short)));
        };
        if *first >= count {
            return Err(FieldFault::Bad(self.bad(WireRule::Tag)));
        }
        self.left = rest;
        Ok(*first)
    }

    /// The byte 0 or 1.
    pub fn take_bool(&mut self) -> Result<bool, FieldFault>
        ensures read { Gives result self.new (bool_form.at self.old) }
        ensures stays { OnErr result (self.new ≡ self.old) }
        ensures no_memory { TakesNoMemory result }
    {
        let byte = self.take_tag(2)?;
        Ok(byte == 1)
    }

    /// A number of eight bytes that isn't above `most`.
    pub fn take_u64_to(&mut self, most: u64) -> Result<u64, FieldFault>
        ensures read { Gives result self.new ((number_to most).at self.old) }
        ensures stays { OnErr result (self.new ≡ self.old) }
        ensures no_memory { TakesNoMemory result }
    {
        let start = self.left;
        let number = self.take_u64()?;
        if number > most {
            self.left = start;
            return Err(FieldFault::Bad(self.bad(WireRule::Range)));
        }
        Ok(number)
    }

    /// A length and so many bytes, which aren't copied.
    #[tactic(auto, unfolding(crate::specs::Fields::octets_at, crate::specs::Numbers::bytes_at))]
    pub fn take_sized(&mut self) -> Result<&'a [u8], FieldFault>
        ensures read { GivesBy (λ text. text.now) result self.new (octets_at self.old) }
        ensures stays { OnErr result (self.new ≡ self.old) }
        ensures no_memory { TakesNoMemory result }
    {
        let start = self.left;
        let len = self.take_u32()?;
        match self.take_bytes(len as usize) {
            Ok(text) => Ok(text),
            Err(_) => {
                self.left = start;
                Err(FieldFault::Bad(self.bad(WireRule::Short)))
            }
        }
    }

    /// A length and so many bytes.
    pub fn take_octets(&mut self) -> Result<Octets, FieldFault>
        ensures read { Gives result self.new (octets.at self.old) }
        ensures stays { OnErr result (self.new ≡ self.old) }
    {
        let start = self.left;
        let text = self.take_sized()?;
        let Ok(octets) = Octets::from_slice(self.alloc, text) else {
            self.left = start;
            return Err(FieldFault::NoMemory);
        };
        Ok(octets)
    }

    /// A length and the bytes of a key.
    pub fn take_key(&mut self) -> Result<Key, FieldFault>
        ensures read { Gives result self.new (key.at self.old) }
        ensures stays { OnErr result (self.new ≡ self.old) }
    {
        let start = self.left;
        let range = self.bad(WireRule::Range);
        let text = self.take_sized()?;
        match key_of(self.alloc, text, range) {
            Ok(key) => Ok(key),
            Err(fault) => {
                self.left = start;
                Err(fault)
            }
        }
    }

    /// A length and the bytes of a value.
    pub fn take_value(&mut self) -> Result<Value, FieldFault>
        ensures read { Gives result self.new (value.at self.old) }
        ensures stays { OnErr result (self.new ≡ self.old) }
    {
        let start = self.left;
        let range = self.bad(WireRule::Range);
        let text = self.take_sized()?;
        match value_of(self.alloc, text, range) {
            Ok(value) => Ok(value),
            Err(fault) => {
                self.left = start;
                Err(fault)
            }
        }
    }

    /// Whether all bytes were taken: what follows a whole value breaks the rule Rest at its first byte.
    pub fn end(&self) -> Result<(), FieldFault>
        ensures read { Tells result (at_end self.now) }
        ensures no_memory { TakesNoMemory result }
    {
        if self.left.is_empty() {
            Ok(())
        } else {
            Err(FieldFault::Bad(self.bad(WireRule::Rest)))
        }
    }
}
