// Texts of commands, queries, replies and answers, and bytes that are none.
use ox_types::Rule;

/// As what the bytes are read.
#[derive(Clone, Copy)]
pub enum Kind {
    Command,
    Query,
    Reply,
    Answer,
    /// A command of a register.
    Register,
}

/// What is read is written as the same bytes, or the field at this place is at fault.
#[derive(Clone, Copy, PartialEq)]
pub enum Comes {
    Again,
    Bad(u64),
}

use Comes::{Again, Bad};

pub const TEXTS: [(Kind, &str, Comes); 25] = [
    (
        Kind::Command,
        "00 :1 'k 'v 01 00 :1 .0 :1 'owner 'b :1 'k 02 .7 :1 02 'a 00",
        Again,
    ),
    (Kind::Command, "01 .1000", Again),
    (Kind::Command, "02 .9", Again),
    (Kind::Command, "03 .9", Again),
    (Kind::Command, "04", Bad(0)),
    (Kind::Command, "00 :1 'k 'v 03", Bad(15)),
    (Kind::Query, "00 00 'k 01 'owner", Again),
    (Kind::Query, "01 00 00 00", Again),
    (Kind::Query, "02 01 'a 01 'b 00", Again),
    (Kind::Query, "03 .1 .2", Again),
    (Kind::Query, "04 .7", Again),
    (Kind::Query, "05", Bad(0)),
    (Kind::Query, "04 0000", Bad(1)),
    (Kind::Query, "00 00 'k 02", Bad(7)),
    (Kind::Query, "00 00 'k 01 :0", Bad(8)),
    (Kind::Query, "00 00 'k 00 09", Bad(8)),
    (Kind::Reply, ":4 00 'k .1 .2 .3 .4 01 02 .2 03", Again),
    (
        Kind::Reply,
        ":6 04 01 .3 05 .1 06 .5 .6 07 :3 08 .1 09 .1",
        Again,
    ),
    (
        Kind::Answer,
        "00 01 'k 'v .1 .0 .0 .0 01 .4 :1 'owner 'b",
        Again,
    ),
    (Kind::Answer, "01 :0 01", Again),
    (Kind::Answer, "03 :1 .5 03 00 00 00", Again),
    (Kind::Answer, "04 .1 .2", Again),
    (Kind::Register, "01 .5 .258", Again),
    (Kind::Register, "02", Bad(0)),
    (Kind::Register, "00 .0 00", Bad(9)),
];

/// Commands, and the first rule that each breaks.
pub const RULES: [(&str, Option<Rule>); 5] = [
    ("00 :1 'k 'v 01 00 :1 .0 :0 :0 :0", Some(Rule::First)),
    ("00 :0 :0 :0", Some(Rule::Ops)),
    ("01 .999", Some(Rule::Timeout)),
    ("01 .1000", None),
    ("03 .0", Some(Rule::Expire)),
];
