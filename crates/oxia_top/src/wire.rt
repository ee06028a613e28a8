// A client's request on its way to a node.
ghost use Rattle.std.specs.Prelude.{◌≡◌, ◌<◌, ◌^◌, length, IsTrue, IfOk};
ghost use Rattle.ox_schedule.specs.Lawful.{is_encodable};
ghost use Rattle.oxia_top.specs.Events.{request_of};

use ox_ops::{encode_command, encode_query};
use ox_schedule::Request;
use ox_types::{NoMemory, Octets, ShardId};
use ox_wire::{Message, Request as Asked, decode, encode};
use std::alloc::Global;

/// The most bytes that a message can carry: their length has four bytes.
const MOST: usize = 0xffff_ffff;

/// What a node finds in the message that carries these bytes.
fn carry(
    alloc: Global,
    arrival: u64,
    shard: u64,
    write: bool,
    body: Octets,
) -> Result<Octets, NoMemory>
    requires { length body < 2 ^ 32 }
    ensures { IfOk result (λ found. found ≡ body) }
{
    let Ok(shard) = u32::try_from(shard) else {
        return Err(NoMemory);
    };
    let sent = Message::request(arrival, ShardId(shard), write, body);
    let bytes = encode(alloc, &sent)?;
    match decode(alloc, bytes.as_slice()) {
        Ok(Message::Request { body, .. }) => Ok(body),
        _ => Err(NoMemory),
    }
}

/// The bytes of a request.
fn encoded(alloc: Global, request: &Request) -> Result<Asked, NoMemory>
    requires { IsTrue (is_encodable request.now) }
    ensures { IfOk result (λ asked. asked ≡ request_of request.now) }
{
    match request {
        Request::Write { command, .. } => Ok(Asked {
            write: true,
            body: encode_command(alloc, command)?,
        }),
        Request::Read(query) => Ok(Asked {
            write: false,
            body: encode_query(alloc, query)?,
        }),
    }
}

/// The request that a node finds in the bytes of the Request message by which a client sends this one, which is that one. It
/// costs three copies of its bytes. A request of 4 GiB or more and a shard of 2^32 or more, which no schedule within its limit
/// spells, are answered by want of memory.
pub fn carry_request(
    alloc: Global,
    arrival: u64,
    shard: u64,
    request: &Request,
) -> Result<Asked, NoMemory>
    requires { IsTrue (is_encodable request.now) }
    ensures { IfOk result (λ asked. asked ≡ request_of request.now) }
{
    let Asked { write, body } = encoded(alloc, request)?;
    if body.len() > MOST {
        return Err(NoMemory);
    }
    let body = carry(alloc, arrival, shard, write, body)?;
    Ok(Asked { write, body })
}
