ghost use Rattle.std.specs.Prelude.{◌≡◌, IsTrue, IfOk, Ok, length};
ghost use Rattle.ox_bytes.specs.Fields.{whole_of};
ghost use Rattle.ox_bytes.specs.Texts.{Answers, placed};
ghost use Rattle.ox_ops.specs.Forms.{command as command_form, query as query_form, shard_reply as reply_form, answer as answer_form};

use crate::answer::ShardAnswer;
use crate::query::ShardQuery;
use crate::reply::ShardReply;
use crate::write::ShardCommand;
use ox_bytes::{Field, FieldFault, decode, encode};
use ox_types::{MachineFault, NoMemory, Octets};
use std::alloc::Global;

fn read<T: Field + Drop>(alloc: Global, bytes: &[u8]) -> Result<T, MachineFault>
    ensures found { IfOk result (λ x. IsTrue (T.form.is_lawful x) × (bytes.now ≡ T.form.text x)) }
    ensures only { (x : T) → IsTrue (T.form.is_lawful x) → bytes.now ≡ T.form.text x → Answers result (Ok x) }
    ensures exact { Answers result (placed (length bytes.now) (whole_of T.form bytes.now)) }
{
    match decode(alloc, bytes) {
        Ok(value) => Ok(value),
        Err(FieldFault::Bad(field)) => Err(MachineFault::BadBytes {
            at: field.at(bytes.len()),
        }),
        Err(FieldFault::NoMemory) => Err(MachineFault::NoMemory),
    }
}

/// The one text of a command (docs/FORMATS.md). Its numbers are within their bounds.
pub fn encode_command(alloc: Global, command: &ShardCommand) -> Result<Octets, NoMemory>
    requires { IsTrue (command_form.is_lawful command.now) }
    ensures { IfOk result (λ text. text ≡ command_form.text command.now) }
{
    encode(alloc, command)
}

/// The command with this text, or the place of the first field at fault.
pub fn decode_command(alloc: Global, bytes: &[u8]) -> Result<ShardCommand, MachineFault>
    // What is read is lawful, and the bytes are its text.
    ensures found { IfOk result (λ x. IsTrue (command_form.is_lawful x) × (bytes.now ≡ command_form.text x)) }
    // The text of a lawful command is read as that command, unless memory runs out.
    ensures only { (x : ShardCommand) → IsTrue (command_form.is_lawful x) → bytes.now ≡ command_form.text x → Answers result (Ok x) }
    // Where other bytes are at fault.
    ensures exact { Answers result (placed (length bytes.now) (whole_of command_form bytes.now)) }
{
    read(alloc, bytes)
}

/// The one text of a query (docs/FORMATS.md). Its numbers are within their bounds.
pub fn encode_query(alloc: Global, query: &ShardQuery) -> Result<Octets, NoMemory>
    requires { IsTrue (query_form.is_lawful query.now) }
    ensures { IfOk result (λ text. text ≡ query_form.text query.now) }
{
    encode(alloc, query)
}

/// The query with this text, or the place of the first field at fault.
pub fn decode_query(alloc: Global, bytes: &[u8]) -> Result<ShardQuery, MachineFault>
    // What is read is lawful, and the bytes are its text.
    ensures found { IfOk result (λ x. IsTrue (query_form.is_lawful x) × (bytes.now ≡ query_form.text x)) }
    // The text of a lawful query is read as that query, unless memory runs out.
    ensures only { (x : ShardQuery) → IsTrue (query_form.is_lawful x) → bytes.now ≡ query_form.text x → Answers result (Ok x) }
    // Where other bytes are at fault.
    ensures exact { Answers result (placed (length bytes.now) (whole_of query_form bytes.now)) }
{
    read(alloc, bytes)
}

/// The one text of a reply (docs/FORMATS.md). Its numbers are within their bounds.
pub fn encode_reply(alloc: Global, reply: &ShardReply) -> Result<Octets, NoMemory>
    requires { IsTrue (reply_form.is_lawful reply.now) }
    ensures { IfOk result (λ text. text ≡ reply_form.text reply.now) }
{
    encode(alloc, reply)
}

/// The reply with this text, or the place of the first field at fault.
pub fn decode_reply(alloc: Global, bytes: &[u8]) -> Result<ShardReply, MachineFault>
    // What is read is lawful, and the bytes are its text.
    ensures found { IfOk result (λ x. IsTrue (reply_form.is_lawful x) × (bytes.now ≡ reply_form.text x)) }
    // The text of a lawful reply is read as that reply, unless memory runs out.
    ensures only { (x : ShardReply) → IsTrue (reply_form.is_lawful x) → bytes.now ≡ reply_form.text x → Answers result (Ok x) }
    // Where other bytes are at fault.
    ensures exact { Answers result (placed (length bytes.now) (whole_of reply_form bytes.now)) }
{
    read(alloc, bytes)
}

/// The one text of an answer (docs/FORMATS.md). Its numbers are within their bounds.
pub fn encode_answer(alloc: Global, answer: &ShardAnswer) -> Result<Octets, NoMemory>
    requires { IsTrue (answer_form.is_lawful answer.now) }
    ensures { IfOk result (λ text. text ≡ answer_form.text answer.now) }
{
    encode(alloc, answer)
}

/// The answer with this text, or the place of the first field at fault.
pub fn decode_answer(alloc: Global, bytes: &[u8]) -> Result<ShardAnswer, MachineFault>
    // What is read is lawful, and the bytes are its text.
    ensures found { IfOk result (λ x. IsTrue (answer_form.is_lawful x) × (bytes.now ≡ answer_form.text x)) }
    // The text of a lawful answer is read as that answer, unless memory runs out.
    ensures only { (x : ShardAnswer) → IsTrue (answer_form.is_lawful x) → bytes.now ≡ answer_form.text x → Answers result (Ok x) }
    // Where other bytes are at fault.
    ensures exact { Answers result (placed (length bytes.now) (whole_of answer_form bytes.now)) }
{
    read(alloc, bytes)
}
