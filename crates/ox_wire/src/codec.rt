ghost use Rattle.std.specs.Prelude.{◌≡◌, IsTrue, IfOk, Ok, length};
ghost use Rattle.ox_bytes.specs.Fields.{whole_of};
ghost use Rattle.ox_wire.specs.declared.message.Message.{Message as AnyMessage};
ghost use Rattle.ox_wire.specs.MessageForms.{message as message_form};
ghost use Rattle.ox_wire.specs.Spells.{Spells, IsMessage, Answers, OnBad, placed};

use crate::fault::WireFault;
use crate::message::Message;
use ox_bytes::{FieldFault, decode as decode_field, encode as encode_field};
use ox_types::{NoMemory, Octets};
use std::alloc::Global;

/// The one text of a message (docs/FORMATS.md), whose fields keep their rules. It is written in one pass.
pub fn encode(alloc: Global, message: &Message) -> Result<Octets, NoMemory>
    requires { IsTrue (message_form.is_lawful message.now) }
    ensures text { IfOk result (λ text. text ≡ message_form.text message.now) }
    ensures spells { IfOk result (λ text. Spells text message.now) }
{
    encode_field(alloc, message)
}

/// The message that all these bytes are, or the place of the first field at fault and the rule that it breaks
/// (docs/FORMATS.md). It is read in one pass, the bytes that a message carries are copied once, and memory is taken for
/// what came and never for a number that was read.
pub fn decode(alloc: Global, payload: &[u8]) -> Result<Message, WireFault>
    // What is read is spelled by the bytes.
    ensures found { IfOk result (λ m. Spells payload.now m) }
    // What spells a message is read as that message, unless memory runs out.
    ensures only { (m : AnyMessage) → Spells payload.now m → Answers result (Ok m) }
    // A fault is told only where the bytes are no message,
    ensures outside { OnBad result (¬ IsMessage payload.now) }
    // and it is the first one that reading from left to right meets.
    ensures exact { Answers result (placed (length payload.now) (whole_of message_form payload.now)) }
{
    match decode_field(alloc, payload) {
        Ok(message) => Ok(message),
        Err(FieldFault::Bad(field)) => Err(WireFault::BadMessage {
            at: field.at(payload.len()),
            rule: field.rule,
        }),
        Err(FieldFault::NoMemory) => Err(WireFault::NoMemory),
    }
}
