// Whole texts as values of a machine.
ghost use Rattle.std.specs.Prelude.{◌≡◌, IsTrue, IfOk, Ok};
ghost use Rattle.ox_bytes.specs.Texts.{Answers, value_in};

use ox_bytes::{Field, FieldFault, decode};
use ox_types::MachineFault;
use std::alloc::Global;

/// The value with this text, or the place of the first field at fault.
pub fn read<T: Field + Drop>(alloc: Global, bytes: &[u8]) -> Result<T, MachineFault>
    ensures found { IfOk result (λ x. IsTrue (T.form.is_lawful x) × (bytes.now ≡ T.form.text x)) }
    ensures only { (x : T) → IsTrue (T.form.is_lawful x) → bytes.now ≡ T.form.text x → Answers result (Ok x) }
    ensures exact { Answers result (value_in T.form bytes.now) }
{
    match decode(alloc, bytes) {
        Ok(value) => Ok(value),
        Err(FieldFault::Bad(field)) => Err(MachineFault::BadBytes {
            at: field.at(bytes.len()),
        }),
        Err(FieldFault::NoMemory) => Err(MachineFault::NoMemory),
    }
}
