// Texts of messages, and bytes that are none.
use crate::run::Comes::{self, Again, Bad};
use crate::run::Kind;
use ox_bytes::WireRule::{Order, Range, Rest, Short, Tag};

/// A message of each kind, and of each kind of config, entry and outcome.
pub const GOOD: [(Kind, &str, Comes); 25] = [
    (Kind::Body, "00 .1", Again),
    (Kind::Body, "01 .2 00 :2 :1 :2 :1 :2 .0 .0 :1 .1 .0", Again),
    (Kind::Body, "01 .2 01 :1 :1 :1 :2 :0", Again),
    (Kind::Body, "02 .2 :3 .1 .4 :0", Again),
    (Kind::Body, "03 .2 .0 .0 :1 .1 .7", Again),
    (Kind::Body, "04 .2", Again),
    (Kind::Body, "05 01 .2 02 .2 02", Again),
    (Kind::Body, "06 .2 .5", Again),
    (
        Kind::Body,
        "07 .2 .1 .1 :2 .1 .1 .9 00 .2 .2 .8 01 :1 4d",
        Again,
    ),
    (Kind::Body, "07 .2 .9007199254740992 .1 :0", Again),
    (Kind::Body, "08 .2 .1 .5 .3 :0 :3 01 02 03", Again),
    (Kind::Body, "09 .2 .5", Again),
    (Kind::Body, "0a .2 .1 .5 :4", Again),
    (Kind::Message, "01 .9 :3 01 :2 06 07", Again),
    (Kind::Message, "02 .9 00 .1 .4 :1 05", Again),
    (Kind::Message, "02 .9 01 .1 .9007199254740992 :0", Again),
    (Kind::Message, "02 .9 02 0a :7 :4", Again),
    (Kind::Message, "03 .9 :0 :2 :5", Again),
    (Kind::Message, "04 .9 00 .3", Again),
    (Kind::Message, "04 .9 01 00", Again),
    (Kind::Message, "04 .9 01 01 .3", Again),
    (Kind::Message, "04 .9 01 02 :3", Again),
    (Kind::Message, "04 .9 01 03 :3", Again),
    (Kind::Message, "04 .9 01 04 :3", Again),
    (Kind::Message, "04 .9 01 05 .3 .8", Again),
];

/// Bytes that break a rule, and where.
pub const BAD: [(Kind, &str, Comes); 25] = [
    (Kind::Message, "", Bad(0, Short)),
    (Kind::Message, "05", Bad(0, Tag)),
    (Kind::Message, "00 02", Bad(1, Tag)),
    (Kind::Message, "01 .9 :3 02 :0", Bad(13, Tag)),
    (Kind::Message, "01 .9 :3 00 :2 06", Bad(14, Short)),
    (
        Kind::Message,
        "02 .9 00 .1 .9007199254740992 :0",
        Bad(18, Range),
    ),
    (Kind::Body, "00 00000000000000", Bad(16, Short)),
    (Kind::Body, "0b", Bad(15, Tag)),
    (Kind::Body, "04 .9007199254740993", Bad(16, Range)),
    (Kind::Body, "04 .1 00", Bad(24, Rest)),
    (Kind::Body, "05 03 .2", Bad(16, Tag)),
    (Kind::Body, "05 00 .2 02 .2 03", Bad(34, Tag)),
    // Ensembles out of order and followers twice.
    (Kind::Body, "01 .2 00 :2 :2 :1", Bad(33, Order)),
    (
        Kind::Body,
        "01 .2 00 :1 :1 :2 :5 .0 .0 :0 :5",
        Bad(61, Order),
    ),
    // A number of followers that don't come.
    (Kind::Body, "01 .2 00 :1 :1 :4294967295", Bad(37, Short)),
    // The last offsets of a table.
    (Kind::Body, "03 .2 .0 .0 :2 .1 .7 .2 .7", Bad(68, Order)),
    // The second entry of an Append.
    (Kind::Body, "07 .2 .1 .0 :2 .1 .1 .0 00 .3", Bad(69, Range)),
    (Kind::Body, "07 .2 .1 .0 :2 .1 .1 .0 00 .0", Bad(69, Order)),
    (
        Kind::Body,
        "07 .2 .1 .0 :2 .1 .1 .0 00 .1 .3",
        Bad(77, Order),
    ),
    (
        Kind::Body,
        "07 .2 .1 .0 :2 .1 .1 .0 00 .1 .9007199254740992",
        Bad(77, Range),
    ),
    // Too many entries, and a count that is none.
    (Kind::Body, "07 .2 .1 .0 :65", Bad(40, Range)),
    (Kind::Body, "07 .2 .1 .9007199254740993 :0", Bad(32, Range)),
    // The head, the index and the bytes of a piece of a snapshot.
    (Kind::Body, "08 .2 .3 .5 .0 :0 :0", Bad(24, Range)),
    (Kind::Body, "08 .2 .1 .5 .0 :1 :0", Bad(48, Range)),
    (Kind::Body, "08 .2 .1 .5 .0 :0 :1 00", Bad(52, Range)),
];
