ghost use Rattle.std.specs.Prelude.{IsTrue};
ghost use Rattle.ox_bytes.specs.Reading.{Gives, Takes};
ghost use Rattle.ox_bytes.specs.Writing.{Puts};
ghost use Rattle.ox_bytes.specs.Form.{Form, IsExact};

use crate::fault::FieldFault;
use crate::reader::Reader;
use crate::writer::Writer;
use ox_types::{Key, NoMemory, Octets, Value};

/// A type whose values have one spelling as bytes. The grammar of a type is its `form` (docs/FORMATS.md).
pub trait Field: Sized {
    ghost form: { Form Self };

    /// Writes the value's text behind what was written. Where memory runs out, a part of the text may stand there.
    fn put(&self, to: &mut Writer) -> Result<(), NoMemory>
        requires { IsTrue (form.is_lawful self.now) }
        ensures { Puts result to.old to.new (form.text self.now) };

    /// What `take` gives; behind a fault the reader may stand anywhere, and `take` puts it back.
    fn read(from: &mut Reader<'_>) -> Result<Self, FieldFault>
        ensures { Gives result from.new (form.at from.old) };

    /// Takes the value at the front of what is left, or answers the first field at fault, also for want of memory, and then
    /// the reader stays as it was.
    final fn take(from: &mut Reader<'_>) -> Result<Self, FieldFault>
        ensures { Takes result from.old from.new (form.at from.old) }
    {
        let rest = from.rest();
        match Self::read(from) {
            Ok(value) => Ok(value),
            Err(fault) => {
                from.go_back(rest);
                Err(fault)
            }
        }
    }

    ghost exact: { IsExact form };
}

impl Field for u8 {
    ghost use Rattle.ox_bytes.specs.Fields.{number8};
    ghost use Rattle.ox_bytes.specs.NumberLaws.{number8_exact};

    ghost form = { number8 };

    ghost exact = { number8_exact };

    #[tactic(auto, using(crate::specs::WritingLaws::fronts))]
    fn put(&self, to: &mut Writer) -> Result<(), NoMemory>
        ensures { Puts result to.old to.new (number8.text self.now) }
    {
        to.put_u8(*self)
    }

    fn read(from: &mut Reader<'_>) -> Result<u8, FieldFault> {
        Ok(from.take_u8()?)
    }
}

impl Field for u32 {
    ghost use Rattle.ox_bytes.specs.Fields.{number32};
    ghost use Rattle.ox_bytes.specs.NumberLaws.{number32_exact};

    ghost form = { number32 };

    ghost exact = { number32_exact };

    #[tactic(auto, using(crate::specs::WritingLaws::fronts))]
    fn put(&self, to: &mut Writer) -> Result<(), NoMemory>
        ensures { Puts result to.old to.new (number32.text self.now) }
    {
        to.put_u32(*self)
    }

    fn read(from: &mut Reader<'_>) -> Result<u32, FieldFault> {
        Ok(from.take_u32()?)
    }
}

impl Field for u64 {
    ghost use Rattle.ox_bytes.specs.Fields.{number64};
    ghost use Rattle.ox_bytes.specs.NumberLaws.{number64_exact};

    ghost form = { number64 };

    ghost exact = { number64_exact };

    #[tactic(auto, using(crate::specs::WritingLaws::fronts))]
    fn put(&self, to: &mut Writer) -> Result<(), NoMemory>
        ensures { Puts result to.old to.new (number64.text self.now) }
    {
        to.put_u64(*self)
    }

    fn read(from: &mut Reader<'_>) -> Result<u64, FieldFault> {
        Ok(from.take_u64()?)
    }
}

impl Field for bool {
    ghost use Rattle.ox_bytes.specs.Fields.{bool as bool_form};
    ghost use Rattle.ox_bytes.specs.FieldLaws.{bool_exact};

    ghost form = { bool_form };

    ghost exact = { bool_exact };

    #[tactic(auto, using(crate::specs::WritingLaws::fronts))]
    fn put(&self, to: &mut Writer) -> Result<(), NoMemory>
        ensures { Puts result to.old to.new (bool_form.text self.now) }
    {
        to.put_bool(*self)
    }

    fn read(from: &mut Reader<'_>) -> Result<bool, FieldFault> {
        from.take_bool()
    }
}

impl Field for Octets {
    ghost use Rattle.ox_bytes.specs.Fields.{octets};
    ghost use Rattle.ox_bytes.specs.FieldLaws.{octets_exact};

    ghost form = { octets };

    ghost exact = { octets_exact };

    #[tactic(auto, using(crate::specs::WritingLaws::fronts))]
    fn put(&self, to: &mut Writer) -> Result<(), NoMemory> {
        to.put_octets(self)
    }

    fn read(from: &mut Reader<'_>) -> Result<Octets, FieldFault> {
        from.take_octets()
    }
}

impl Field for Key {
    ghost use Rattle.ox_bytes.specs.Fields.{key};
    ghost use Rattle.ox_bytes.specs.FieldLaws.{key_exact};

    ghost form = { key };

    ghost exact = { key_exact };

    #[tactic(auto, using(crate::specs::WritingLaws::fronts))]
    fn put(&self, to: &mut Writer) -> Result<(), NoMemory>
        ensures { Puts result to.old to.new (key.text self.now) }
    {
        to.put_key(self)
    }

    fn read(from: &mut Reader<'_>) -> Result<Key, FieldFault> {
        from.take_key()
    }
}

impl Field for Value {
    ghost use Rattle.ox_bytes.specs.Fields.{value};
    ghost use Rattle.ox_bytes.specs.FieldLaws.{value_exact};

    ghost form = { value };

    ghost exact = { value_exact };

    #[tactic(auto, using(crate::specs::WritingLaws::fronts))]
    fn put(&self, to: &mut Writer) -> Result<(), NoMemory>
        ensures { Puts result to.old to.new (value.text self.now) }
    {
        to.put_value(self)
    }

    fn read(from: &mut Reader<'_>) -> Result<Value, FieldFault> {
        from.take_value()
    }
}
