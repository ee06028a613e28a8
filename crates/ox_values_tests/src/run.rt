// What comes of bytes.
use crate::spell::spelled;
use ox_bytes::{Field, FieldFault, WireRule, decode, encode};
use ox_order::KeyRange;
use ox_quorum::Config;
use ox_types::{Chunk, Entry, Key, List, Octets, Peer, Refusal, Seat, TermTable, Value};
use ox_wire::WireFault;
use std::alloc::Global;
use std::test::Fail;

/// As what the bytes are read.
#[derive(Clone, Copy)]
pub enum Kind {
    Byte,
    Four,
    Eight,
    Flag,
    Maybe,
    Maybes,
    Bytes,
    Key,
    Value,
    Range,
    Entry,
    Table,
    Seat,
    Peer,
    Refusal,
    Piece,
    Config,
    /// A message between replicas. Its bytes follow those of `FRONT`.
    Body,
    Message,
}

/// The value that was read is written as the same bytes, or the field at this place breaks this rule.
#[derive(Clone, Copy, PartialEq)]
pub enum Comes {
    Again,
    Bad(u64, WireRule),
}

/// From the coordinator 1 to the node 1, for the shard 0.
const FRONT: &str = "00 01 :1 00 :1 :0";

fn read_again<T: Field + Drop>(alloc: Global, bytes: &[u8]) -> Result<Comes, Fail> {
    match decode::<T>(alloc, bytes) {
        Ok(value) => {
            let text = encode(alloc, &value)?;
            if text.as_slice() == bytes {
                return Ok(Comes::Again);
            }
            Err(Fail::from("it is written as other bytes"))
        }
        Err(FieldFault::Bad(field)) => Ok(Comes::Bad(field.at(bytes.len()), field.rule)),
        Err(FieldFault::NoMemory) => Err(Fail::from("no memory")),
    }
}

fn message_again(alloc: Global, bytes: &[u8]) -> Result<Comes, Fail> {
    match ox_wire::decode(alloc, bytes) {
        Ok(message) => {
            let text = ox_wire::encode(alloc, &message)?;
            if text.as_slice() == bytes {
                return Ok(Comes::Again);
            }
            Err(Fail::from("it is written as other bytes"))
        }
        Err(WireFault::BadMessage { at, rule }) => Ok(Comes::Bad(at, rule)),
        Err(WireFault::NoMemory) => Err(Fail::from("no memory")),
    }
}

fn body_again(alloc: Global, body: &[u8]) -> Result<Comes, Fail> {
    let mut text = spelled(alloc, FRONT)?;
    text.extend(body)?;
    message_again(alloc, text.as_slice())
}

/// What comes of these bytes, read as this kind.
pub fn outcome(alloc: Global, kind: Kind, bytes: &[u8]) -> Result<Comes, Fail> {
    match kind {
        Kind::Byte => read_again::<u8>(alloc, bytes),
        Kind::Four => read_again::<u32>(alloc, bytes),
        Kind::Eight => read_again::<u64>(alloc, bytes),
        Kind::Flag => read_again::<bool>(alloc, bytes),
        Kind::Maybe => read_again::<Option<u8>>(alloc, bytes),
        Kind::Maybes => read_again::<List<Option<u8>>>(alloc, bytes),
        Kind::Bytes => read_again::<Octets>(alloc, bytes),
        Kind::Key => read_again::<Key>(alloc, bytes),
        Kind::Value => read_again::<Value>(alloc, bytes),
        Kind::Range => read_again::<KeyRange>(alloc, bytes),
        Kind::Entry => read_again::<Entry>(alloc, bytes),
        Kind::Table => read_again::<TermTable>(alloc, bytes),
        Kind::Seat => read_again::<Seat>(alloc, bytes),
        Kind::Peer => read_again::<Peer>(alloc, bytes),
        Kind::Refusal => read_again::<Refusal>(alloc, bytes),
        Kind::Piece => read_again::<Chunk>(alloc, bytes),
        Kind::Config => read_again::<Config>(alloc, bytes),
        Kind::Body => body_again(alloc, bytes),
        Kind::Message => message_again(alloc, bytes),
    }
}
