ghost use Rattle.std.specs.Prelude.{◌≡◌, IsTrue, IfOk, Ok};
ghost use Rattle.ox_bytes.specs.Reading.{Tells};
ghost use Rattle.ox_bytes.specs.Fields.{whole_of};

use crate::fault::FieldFault;
use crate::field::Field;
use crate::reader::Reader;
use crate::writer::Writer;
use ox_types::{NoMemory, Octets};
use std::alloc::Global;

/// The one text of the value.
pub fn encode<T: Field>(alloc: Global, value: &T) -> Result<Octets, NoMemory>
    requires { IsTrue (T.form.is_lawful value.now) }
    ensures { IfOk result (λ text. text ≡ T.form.text value.now) }
{
    let mut writer = Writer::empty(alloc);
    value.put(&mut writer)?;
    Ok(writer.finish())
}

#[tactic(auto, unfolding(crate::specs::Fields::whole_of))]
fn read_whole<T: Field + Drop>(alloc: Global, bytes: &[u8]) -> Result<T, FieldFault>
    ensures { Tells result (whole_of T.form bytes.now) }
{
    let mut reader = Reader::new(alloc, bytes);
    let value = T::take(&mut reader)?;
    reader.end()?;
    Ok(value)
}

/// The value with this text, which takes all the bytes, or the first field at fault.
pub fn decode<T: Field + Drop>(alloc: Global, bytes: &[u8]) -> Result<T, FieldFault>
    // What is read is lawful, and the bytes are its text.
    ensures found { IfOk result (λ x. IsTrue (T.form.is_lawful x) × (bytes.now ≡ T.form.text x)) }
    // The text of a lawful value is read as that value, unless memory runs out.
    ensures only { (x : T) → IsTrue (T.form.is_lawful x) → bytes.now ≡ T.form.text x → Tells result (Ok x) }
    // Which fault it is.
    ensures exact { Tells result (whole_of T.form bytes.now) }
{
    read_whole(alloc, bytes)
}
