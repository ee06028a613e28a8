// The bytes of whole messages.
ghost use Rattle.std.specs.Prelude.{◌≡◌, IsTrue};
ghost use Rattle.ox_bytes.specs.Reading.{Gives};
ghost use Rattle.ox_bytes.specs.Writing.{Puts};
ghost use Rattle.ox_wire.specs.declared.message.Message.TheVariants as message_is;
ghost use Rattle.ox_wire.specs.MessageForms.{message as message_form, as_peer, as_request, as_reply, as_swap, as_swap_reply};

use crate::body::Body;
use crate::message::{Message, Outcome};
use crate::swap::SwapOutcome;
use ox_bytes::{Field, FieldFault, Reader, Writer};
use ox_types::{NoMemory, NodeId, Octets, Peer, ShardId};

#[tactic(auto, using(ox_bytes::specs::WritingLaws::fronts), unfolding(crate::specs::MessageForms::message))]
fn put_peer(
    from: &Peer,
    receiver: &Peer,
    shard: ShardId,
    body: &Body,
    to: &mut Writer,
) -> Result<(), NoMemory>
    requires { IsTrue (message_form.is_lawful (message_is.Peer from.now receiver.now shard body.now)) }
    ensures { Puts result to.old to.new (message_form.text (message_is.Peer from.now receiver.now shard body.now)) }
{
    to.put_u8(0)?;
    from.put(to)?;
    receiver.put(to)?;
    to.put_u32(shard.0)?;
    body.put(to)?;
    Ok(())
}

#[tactic(auto, using(ox_bytes::specs::WritingLaws::fronts), unfolding(crate::specs::MessageForms::message))]
fn put_request(
    number: u64,
    shard: ShardId,
    write: bool,
    body: &Octets,
    to: &mut Writer,
) -> Result<(), NoMemory>
    requires { IsTrue (message_form.is_lawful (message_is.Request number shard write body.now)) }
    ensures { Puts result to.old to.new (message_form.text (message_is.Request number shard write body.now)) }
{
    to.put_u8(1)?;
    to.put_u64(number)?;
    to.put_u32(shard.0)?;
    to.put_bool(write)?;
    to.put_octets(body)?;
    Ok(())
}

#[tactic(auto, using(ox_bytes::specs::WritingLaws::fronts), unfolding(crate::specs::MessageForms::message))]
fn put_reply(number: u64, outcome: &Outcome, to: &mut Writer) -> Result<(), NoMemory>
    requires { IsTrue (message_form.is_lawful (message_is.Reply number outcome.now)) }
    ensures { Puts result to.old to.new (message_form.text (message_is.Reply number outcome.now)) }
{
    to.put_u8(2)?;
    to.put_u64(number)?;
    outcome.put(to)?;
    Ok(())
}

#[tactic(auto, using(ox_bytes::specs::WritingLaws::fronts), unfolding(crate::specs::MessageForms::message))]
fn put_swap(
    number: u64,
    shard: ShardId,
    out: NodeId,
    enter: NodeId,
    to: &mut Writer,
) -> Result<(), NoMemory>
    ensures { Puts result to.old to.new (message_form.text (message_is.Swap number shard out enter)) }
{
    to.put_u8(3)?;
    to.put_u64(number)?;
    to.put_u32(shard.0)?;
    to.put_u32(out.0)?;
    to.put_u32(enter.0)?;
    Ok(())
}

#[tactic(auto, using(ox_bytes::specs::WritingLaws::fronts), unfolding(crate::specs::MessageForms::message))]
fn put_swap_reply(number: u64, outcome: &SwapOutcome, to: &mut Writer) -> Result<(), NoMemory>
    requires { IsTrue (message_form.is_lawful (message_is.SwapReply number outcome.now)) }
    ensures { Puts result to.old to.new (message_form.text (message_is.SwapReply number outcome.now)) }
{
    to.put_u8(4)?;
    to.put_u64(number)?;
    outcome.put(to)?;
    Ok(())
}

fn take_peer(from: &mut Reader<'_>) -> Result<Message, FieldFault>
    ensures { Gives result from.new (as_peer.at from.old) }
{
    let sender = Field::take(from)?;
    let receiver = Field::take(from)?;
    let shard = ShardId(from.take_u32()?);
    let body = Field::take(from)?;
    Ok(Message::Peer {
        from: sender,
        to: receiver,
        shard,
        body,
    })
}

fn take_request(from: &mut Reader<'_>) -> Result<Message, FieldFault>
    ensures { Gives result from.new (as_request.at from.old) }
{
    let number = from.take_u64()?;
    let shard = ShardId(from.take_u32()?);
    let write = from.take_bool()?;
    let body = from.take_octets()?;
    Ok(Message::Request {
        number,
        shard,
        write,
        body,
    })
}

fn take_reply(from: &mut Reader<'_>) -> Result<Message, FieldFault>
    ensures { Gives result from.new (as_reply.at from.old) }
{
    let number = from.take_u64()?;
    let outcome = Field::take(from)?;
    Ok(Message::Reply { number, outcome })
}

fn take_swap(from: &mut Reader<'_>) -> Result<Message, FieldFault>
    ensures { Gives result from.new (as_swap.at from.old) }
{
    let number = from.take_u64()?;
    let shard = ShardId(from.take_u32()?);
    let out = NodeId(from.take_u32()?);
    let enter = NodeId(from.take_u32()?);
    Ok(Message::Swap {
        number,
        shard,
        out,
        enter,
    })
}

fn take_swap_reply(from: &mut Reader<'_>) -> Result<Message, FieldFault>
    ensures { Gives result from.new (as_swap_reply.at from.old) }
{
    let number = from.take_u64()?;
    let outcome = Field::take(from)?;
    Ok(Message::SwapReply { number, outcome })
}

impl Field for Message {
    ghost use Rattle.ox_wire.specs.MessageForms.{message};
    ghost use Rattle.ox_wire.specs.MessageLaws.{message_exact};

    ghost form = { message };

    ghost exact = { message_exact };

    #[tactic(auto, using(ox_bytes::specs::WritingLaws::fronts))]
    fn put(&self, to: &mut Writer) -> Result<(), NoMemory> {
        match self {
            Message::Peer {
                from,
                to: receiver,
                shard,
                body,
            } => put_peer(from, receiver, *shard, body, to),
            Message::Request {
                number,
                shard,
                write,
                body,
            } => put_request(*number, *shard, *write, body, to),
            Message::Reply { number, outcome } => put_reply(*number, outcome, to),
            Message::Swap {
                number,
                shard,
                out,
                enter,
            } => put_swap(*number, *shard, *out, *enter, to),
            Message::SwapReply { number, outcome } => put_swap_reply(*number, outcome, to),
        }
    }

    #[tactic(auto, unfolding(crate::specs::MessageForms::message, ox_bytes::specs::Fields::choice_at))]
    fn read(from: &mut Reader<'_>) -> Result<Message, FieldFault> {
        match from.take_tag(5)? {
            0 => take_peer(from),
            1 => take_request(from),
            2 => take_reply(from),
            3 => take_swap(from),
            _ => take_swap_reply(from),
        }
    }
}
