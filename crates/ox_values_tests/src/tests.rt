ghost use Rattle.std.specs.Prelude.{IsTrue, IfOk};
ghost use Rattle.ox_bytes.specs.LogForms.{term_table};

use crate::cases::{FIELDS, PARTS};
use crate::message_cases::{BAD, GOOD};
use crate::run::{Comes, Kind, outcome};
use crate::spell::spelled;
use ox_bytes::{Reader, Short, Writer};
use ox_frame::{Decoder, FrameFault, NextFault, frame};
use ox_order::compare;
use ox_quorum::{Config, Ensemble, common_point, law_config, meets, next_config};
use ox_types::{Key, List, NodeId, Octets, TermTable, Value};
use std::alloc::Global;
use std::cmp::Ordering;
use std::test::Fail;

/// A failure names the bytes of the first case that comes to something else.
fn all_come(alloc: Global, cases: &[(Kind, &'static str, Comes)]) -> Result<(), Fail> {
    for (kind, words, comes) in cases {
        let bytes = spelled(alloc, words)?;
        if outcome(alloc, *kind, bytes.as_slice())? != *comes {
            return Err(Fail::from(*words));
        }
    }
    Ok(())
}

#[test]
fn bytes_are_written_again_or_refused(rt: HostRuntime) -> Result<(), Fail> {
    all_come(rt.alloc(), &FIELDS)?;
    all_come(rt.alloc(), &PARTS)?;
    all_come(rt.alloc(), &GOOD)?;
    all_come(rt.alloc(), &BAD)
}

#[test]
fn text_and_lists(rt: HostRuntime) -> Result<(), Fail> {
    let mut text = Octets::from_slice(rt.alloc(), b"ab")?;
    text.extend(b"c")?;
    assert_eq!(rt; text.try_clone()?.as_slice(), b"abc".as_slice());
    let key = Key::try_new(text.into_vec())?;
    assert_eq!(rt; key.try_clone()?.bytes(), b"abc".as_slice());
    let value = Value::try_new(Vec::from_slice(rt.alloc(), b"x")?)?;
    assert_eq!(rt; value.try_clone()?.bytes(), b"x".as_slice());
    let mut list = List::new(rt.alloc());
    list.push(1u8)?;
    assert_eq!(rt; list.as_slice(), [1].as_slice());
    Ok(())
}

/// One field of each kind, one behind the other.
const IN_ROW: &str = "07 01020304 .5 01 :1 09 'ky 'v 06 :0";

fn written(alloc: Global) -> Result<Octets, Fail> {
    let octets = Octets::from_slice(alloc, &[9])?;
    let key = Key::try_new(Vec::from_slice(alloc, b"ky")?)?;
    let mut writer = Writer::empty(alloc);
    writer.put_u8(7)?;
    writer.put_u32(0x0102_0304)?;
    writer.put_u64(5)?;
    writer.put_bool(true)?;
    writer.put_octets(&octets)?;
    writer.put_key(&key)?;
    Ok(writer.finish())
}

fn written_behind(alloc: Global, front: &Octets) -> Result<Octets, Fail> {
    let value = Value::try_new(Vec::from_slice(alloc, b"v")?)?;
    let mut writer = Writer::empty(alloc);
    writer.put_bytes(front.as_slice())?;
    writer.put_value(&value)?;
    writer.put_bytes(&[6])?;
    writer.put_sized(b"")?;
    Ok(writer.finish())
}

#[test]
fn fields_are_written_one_behind_the_other(rt: HostRuntime) -> Result<(), Fail> {
    let alloc = rt.alloc();
    let text = written_behind(alloc, &written(alloc)?)?;
    assert_eq!(rt; text.as_slice(), spelled(alloc, IN_ROW)?.as_slice());
    let mut reader = Reader::new(alloc, text.as_slice());
    assert_eq!(rt; reader.take_u8()?, 7);
    assert_eq!(rt; reader.take_u32()?, 0x0102_0304);
    assert_eq!(rt; reader.take_u64_to(5)?, 5);
    assert!(rt; reader.take_bool()?);
    assert_eq!(rt; reader.take_octets()?.as_slice(), [9].as_slice());
    assert_eq!(rt; reader.take_key()?.bytes(), b"ky".as_slice());
    Ok(())
}

#[test]
fn a_reader_goes_to_its_end(rt: HostRuntime) -> Result<(), Fail> {
    let mut reader = Reader::new(rt.alloc(), b"\0\0\0\x01v\x06\0\0\0\0\0\0\x01");
    assert_eq!(rt; reader.take_value()?.bytes(), b"v".as_slice());
    assert_eq!(rt; reader.take_bytes(1)?, [6].as_slice());
    assert_eq!(rt; reader.take_sized()?, b"".as_slice());
    assert_eq!(rt; reader.take_u64(), Err(Short { need: 8, left: 3 }));
    assert_eq!(rt; reader.take_bytes(3)?.len(), 3);
    reader.end()?;
    Ok(())
}

fn key(alloc: Global, text: &str) -> Result<Key, Fail> {
    Ok(Key::try_new(Vec::from_slice(alloc, text.as_bytes())?)?)
}

/// Pairs of keys, of which the first stands before the second.
const RISING: [(&str, &str); 12] = [
    ("a", "b"),
    ("b", "/a"),
    ("/a", "/b"),
    ("/b", "/a/a"),
    ("/a/a", "/a/b"),
    ("/a/b", "/b/a"),
    ("a", "aa"),
    ("zz", "a/"),
    ("a//b", "a/b/"),
    ("a/b/z", "a/bb/a"),
    ("a//b", "a//c"),
    ("a///", "a//a/"),
];

/// A failure names the key that does not stand first.
#[test]
fn keys_have_an_order(rt: HostRuntime) -> Result<(), Fail> {
    for (a, b) in RISING {
        let first = key(rt.alloc(), a)?;
        let second = key(rt.alloc(), b)?;
        if compare(&first, &second) != Ordering::Less {
            return Err(Fail::from(a));
        }
    }
    Ok(())
}

fn ensemble(alloc: Global, ids: &[u32]) -> Result<Ensemble, Fail> {
    let mut nodes = Vec::new(alloc);
    for id in ids {
        nodes.push(NodeId(*id))?;
    }
    Ok(Ensemble::try_new(nodes)?)
}

/// The bytes of the config, as they are kept.
fn config_text(alloc: Global, config: &Config) -> Result<Octets, Fail> {
    law_config(config);
    Ok(ox_bytes::encode(alloc, config)?)
}

#[test]
fn a_joint_config_wants_both_majorities(rt: HostRuntime) -> Result<(), Fail> {
    let alloc = rt.alloc();
    let first = ensemble(alloc, &[258, 1, 2])?;
    assert!(rt; first.holds(NodeId(258)));
    let joint = Config::Joint(first.try_clone()?, ensemble(alloc, &[3])?);
    assert!(rt; meets(&joint, &[NodeId(1), NodeId(2), NodeId(3)]));
    assert!(rt; !meets(&joint, &[NodeId(1), NodeId(1), NodeId(3)]));
    let after = next_config(&joint, true)?;
    assert!(rt; meets(&after, &[NodeId(3)]));
    let expected = spelled(alloc, "01 :3 :1 :2 :258 :1 :3")?;
    assert_eq!(rt; config_text(alloc, &joint)?.as_slice(), expected.as_slice());
    Ok(())
}

fn table(alloc: Global, words: &str) -> Result<TermTable, Fail>
    ensures { IfOk result (λ table. IsTrue (term_table.is_lawful table)) }
{
    let bytes = spelled(alloc, words)?;
    Ok(ox_bytes::decode(alloc, bytes.as_slice())?)
}

/// A leader's runs: the term 1 up to the offset 2, and the term 2 up to 4.
const LEADER: &str = ".0 .0 :2 .1 .2 .2 .4";

/// Tables of followers, and up to where each has what the leader has.
const FOLLOWERS: [(&str, Option<u64>); 5] = [
    (".0 .0 :2 .1 .1 .3 .3", Some(2)),
    (".0 .0 :2 .1 .2 .2 .8", Some(5)),
    (".1 .3 :1 .4 .3", Some(3)),
    (".3 .4 :0", None),
    (".0 .0 :0", Some(0)),
];

/// A failure names the follower's table.
#[test]
fn tables_meet_at_their_last_common_term(rt: HostRuntime) -> Result<(), Fail> {
    let leader = table(rt.alloc(), LEADER)?;
    for (words, point) in FOLLOWERS {
        let follower = table(rt.alloc(), words)?;
        if common_point(&leader, &follower) != point {
            return Err(Fail::from(words));
        }
    }
    Ok(())
}

#[test]
fn a_stream_in_pieces_is_its_frames(rt: HostRuntime) -> Result<(), Fail> {
    let mut decoder = Decoder::empty(rt.alloc());
    decoder.feed(&[0, 0, 0, 1, 10, 0, 0])?;
    decoder.feed(
        frame(rt.alloc(), &[11, 12])?
            .as_slice()
            .get(2..)
            .unwrap_or(b""),
    )?;
    let first = decoder.next()?.ok_or("a frame")?;
    assert_eq!(rt; first.as_slice(), [10].as_slice());
    let second = decoder.next()?.ok_or("a frame")?;
    assert_eq!(rt; second.as_slice(), [11, 12].as_slice());
    assert!(rt; decoder.next()?.is_none());
    decoder.feed(&[0, 0x40, 0, 1])?;
    assert!(rt;
        matches!(
            decoder.next(),
            Err(NextFault::Frame(FrameFault::TooLong { len: 4_194_305 }))
        )
    );
    Ok(())
}

/// Messages, and what they are read as.
const NAMED: [(&str, &str); 5] = [
    (
        "00 0100000001 0000000001 00000000 00 0000000000000001",
        "Peer { from: Coordinator(CoordId(1)), to: Node(NodeId(1)), shard: ShardId(0), body: NewTerm { term: Term(1) } }",
    ),
    (
        "00 00 :1 00 :2 :3 07 .5 .6 .4 :0",
        "Peer { from: Node(NodeId(1)), to: Node(NodeId(2)), shard: ShardId(3), body: Append { term: Term(5), from: 6, commit: 4, entries: List { items: [] } } }",
    ),
    (
        "02 .9 02 00 .2 .3",
        "Reply { number: 9, outcome: Refused(OldTerm { asked: Term(2), has: Term(3) }) }",
    ),
    (
        "03 .1 :4 :2 :3",
        "Swap { number: 1, shard: ShardId(4), out: NodeId(2), enter: NodeId(3) }",
    ),
    (
        "04 .1 01 05 .2 .3",
        "SwapReply { number: 1, outcome: Refused(TermsSpent { term: Term(2), version: 3 }) }",
    ),
];

/// A failure names the message that was read.
#[test]
fn fields_stand_in_their_places(rt: HostRuntime) -> Result<(), Fail> {
    for (words, named) in NAMED {
        let bytes = spelled(rt.alloc(), words)?;
        let message = ox_wire::decode(rt.alloc(), bytes.as_slice())?;
        let text = format!(in rt.alloc(); "{message:?}")?;
        assert_eq!(rt; text.as_str(), named);
    }
    Ok(())
}
