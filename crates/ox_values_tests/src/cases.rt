// Texts of values, and bytes that are none.
use crate::run::Comes::{self, Again, Bad};
use crate::run::Kind;
use ox_bytes::WireRule::{Order, Range, Rest, Short, Tag};

/// Fields of each kind.
pub const FIELDS: [(Kind, &str, Comes); 24] = [
    (Kind::Byte, "07", Again),
    (Kind::Byte, "01 02", Bad(1, Rest)),
    (Kind::Four, ":258", Again),
    (Kind::Eight, ".258", Again),
    (Kind::Flag, "01", Again),
    (Kind::Flag, "02", Bad(0, Tag)),
    (Kind::Maybe, "01 05", Again),
    (Kind::Maybe, "02 00", Bad(0, Tag)),
    (Kind::Maybes, ":2 01 05 00", Again),
    (Kind::Maybes, ":4294967295 00", Bad(5, Short)),
    (Kind::Bytes, ":1 09", Again),
    (Kind::Bytes, ":2 01", Bad(0, Short)),
    (Kind::Key, "'ky", Again),
    (Kind::Key, ":0", Bad(0, Range)),
    (Kind::Key, "'__oxia/x", Bad(0, Range)),
    (Kind::Value, "'v", Again),
    (Kind::Range, "02 'a 01 'b", Again),
    (Kind::Range, "03", Bad(0, Tag)),
    (Kind::Seat, "02", Again),
    (Kind::Peer, "01 :3", Again),
    (Kind::Refusal, "03 .3 01 :2", Again),
    (Kind::Refusal, "09 02 :7 04", Again),
    (Kind::Refusal, "0b", Bad(0, Tag)),
    (Kind::Entry, ".2 .3 .4 01 'k", Again),
];

/// Term tables, pieces of snapshots and configs.
pub const PARTS: [(Kind, &str, Comes); 14] = [
    (Kind::Table, ".0 .0 :2 .1 .0 .2 .4", Again),
    (Kind::Table, ".0 .0 :2 .1 .4 .2 .4", Bad(44, Order)),
    (Kind::Table, ".2 .9 :1 .2 .8", Bad(28, Order)),
    (Kind::Piece, ".1 .1 .2 .3 :0 :3 010203", Again),
    // A head above the term, an index past the last piece, and a piece that is too short.
    (Kind::Piece, ".1 .2 .2 .3 :0 :3 010203", Bad(8, Range)),
    (Kind::Piece, ".1 .1 .2 .3 :1 :0", Bad(32, Range)),
    (Kind::Piece, ".1 .1 .2 .3 :0 :2 0102", Bad(36, Range)),
    (Kind::Config, "00 :2 :0 :258", Again),
    (Kind::Config, "01 :1 :5 :1 :4", Again),
    (Kind::Config, "02 00", Bad(0, Tag)),
    (Kind::Config, "00 :0", Bad(1, Range)),
    (Kind::Config, "00 :8", Bad(1, Range)),
    (Kind::Config, "00 :2 :5 :5", Bad(9, Order)),
    (Kind::Config, "00 :2 :5 000000", Bad(9, Short)),
];
