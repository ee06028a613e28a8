// Histories of the machines, and what they answer.
use crate::run::History;

/// A register is set to 5, and from 5 to 258 once. Bytes that it does not read change nothing.
pub const REGISTER: History = History {
    entries: &[
        (0, "00 .5", "00"),
        (0, "01 .5 .258", "00"),
        (0, "01 .5 .258", "01 .258"),
        (0, "02", ""),
        (0, "00", ""),
    ],
    asked: &[("00", ".258")],
};

/// Keys are listed in their order: by their slashes first.
const KEYS: History = History {
    entries: &[(
        0,
        "00 :7 'b 'x 00 00 :0 :0 '/a/b 'x 00 00 :0 :0 '/a 'x 00 00 :0 :0 'a 'x 00 00 :0 :0 \
         '/b 'x 00 00 :0 :0 '/b/a 'x 00 00 :0 :0 '/a/a 'x 00 00 :0 :0 :0 :0",
        ":7 00 'b .0 .0 .0 .0 00 '/a/b .1 .0 .0 .0 00 '/a .2 .0 .0 .0 00 'a .3 .0 .0 .0 00 \
         '/b .4 .0 .0 .0 00 '/b/a .5 .0 .0 .0 00 '/a/a .6 .0 .0 .0",
    )],
    asked: &[
        ("01 00 00 00", "01 :7 'a 'b '/a '/b '/a/a '/a/b '/b/a 00"),
        ("01 01 '/a/ 01 '/a// 00", "01 :2 '/a/a '/a/b 00"),
        (
            "02 01 'b 01 '/b 00",
            "02 :2 'b 'x .0 .0 .0 .0 00 :0 '/a 'x .2 .0 .0 .0 00 :0 00",
        ),
        ("00 00 '// 00", "00 00"),
        ("00 01 '// 00", "00 01 '/b 'x .4 .0 .0 .0 00 :0"),
        ("00 02 '// 00", "00 01 '/a/a 'x .6 .0 .0 .0 00 :0"),
        ("00 03 '/b 00", "00 01 '/a 'x .2 .0 .0 .0 00 :0"),
        ("00 04 '/b/a 00", "00 00"),
    ],
};

/// A put and a delete are tested against what is there, and a range delete tells how many it removed.
const EXPECTATIONS: History = History {
    entries: &[
        (0, "00 :1 'a 'x 01 00 :0 :0 :0 :0", ":1 00 'a .0 .0 .0 .0"),
        (5, "00 :1 'a 'y 01 00 :0 :0 :0 :0", ":1 04 01 .0"),
        (
            9,
            "00 :1 'a 'y 02 .0 00 :0 :0 :0 :0",
            ":1 00 'a .1 .1 .0 .9",
        ),
        (9, "00 :0 :1 'a 02 .0 :0", ":1 04 01 .1"),
        (9, "00 :0 :2 'a 00 'a 00 :0", ":2 01 03"),
        (9, "00 :1 'a 'z 02 .0 00 :0 :0 :0 :0", ":1 04 00"),
        (
            9,
            "00 :2 'a 'x 00 00 :0 :0 'b 'x 00 00 :0 :0 :0 :2 01 'a 01 'c 01 'a 01 'c",
            ":4 00 'a .2 .0 .9 .9 00 'b .3 .0 .9 .9 02 .2 02 .0",
        ),
        (9, "0a", ""),
    ],
    asked: &[("01 00 00 00", "01 :0 00")],
};

/// A sequence goes on from its greatest key, and ends at the greatest number.
const SEQUENCE: History = History {
    entries: &[
        (
            0,
            "00 :1 'q 'x 00 00 :1 .1 :0 :0 :0",
            ":1 00 'q-00000000000000000001 .0 .0 .0 .0",
        ),
        (
            0,
            "00 :1 'q-00000000000000000003-x 'x 00 00 :0 :0 :0 :0",
            ":1 00 'q-00000000000000000003-x .1 .0 .0 .0",
        ),
        (
            0,
            "00 :1 'q 'x 00 00 :1 .3 :0 :0 :0",
            ":1 00 'q-00000000000000000004 .2 .0 .0 .0",
        ),
        (
            0,
            "00 :1 'q 'x 00 00 :1 .18446744073709551615 :0 :0 :0",
            ":1 07 :0",
        ),
    ],
    asked: &[],
};

/// A close takes the records that now have the session, and so does an expiry.
const SESSIONS: History = History {
    entries: &[
        (0, "01 .5000", ":1 08 .0"),
        (
            0,
            "00 :4 'e1 'x 00 01 .0 :0 :0 'e2 'x 00 01 .0 :0 :0 'e1 'y 00 00 :0 :0 'e3 'x 00 01 .1 \
             :0 :0 :0 :0",
            ":4 00 'e1 .0 .0 .0 .0 00 'e2 .1 .0 .0 .0 00 'e1 .2 .1 .0 .0 05 .1",
        ),
        (0, "02 .0", ":1 09 .1"),
        (0, "02 .0", ":1 05 .0"),
        (0, "01 .1000", ":1 08 .4"),
        (
            0,
            "00 :1 'e2 'x 00 01 .4 :0 :0 :0 :0",
            ":1 00 'e2 .3 .0 .0 .0",
        ),
        (0, "03 .4", ":1 09 .1"),
        (0, "01 .2000", ":1 08 .7"),
    ],
    asked: &[
        ("01 00 00 00", "01 :1 'e1 00"),
        ("04 .4", "06 .4"),
        ("04 .7", "05"),
        ("03 .5 .0", "03 :1 .6 02 'e2 00"),
        ("03 .0 .3", "03 :3 .2 02 'e2 .5 00 'e2 .3 .6 02 'e2 00"),
    ],
};

/// Notices are dropped an hour and a millisecond later.
const NOTICES: History = History {
    entries: &[
        (0, "ff", ""),
        (0, "00 :1 'a 'x 00 00 :0 :0 :0 :0", ":1 00 'a .0 .0 .0 .0"),
        (
            3600001,
            "00 :1 'b 'x 00 00 :0 :0 :0 :0",
            ":1 00 'b .1 .0 .3600001 .3600001",
        ),
    ],
    asked: &[
        ("03 .0 .0", "04 .0 .1"),
        ("03 .1 .0", "03 :1 .2 00 'b .1 00"),
        ("03 .2 .0", "03 :0 00"),
    ],
};

/// An index lists keys by their secondary keys.
const INDEX: History = History {
    entries: &[
        (
            0,
            "00 :3 'a 'x 00 00 :0 :1 'owner 'b1 'c 'x 00 00 :0 :1 'owner 'b2 'b 'x 00 00 :0 :1 \
             'owner 'b1 :0 :0",
            ":3 00 'a .0 .0 .0 .0 00 'c .1 .0 .0 .0 00 'b .2 .0 .0 .0",
        ),
        (0, "00 :1 'c 'x 00 00 :0 :0 :0 :0", ":1 00 'c .3 .1 .0 .0"),
    ],
    asked: &[
        ("01 00 00 01 'owner", "01 :2 'a 'b 00"),
        (
            "02 01 'b1 01 'b2 01 'owner",
            "02 :2 'a 'x .0 .0 .0 .0 00 :1 'owner 'b1 'b 'x .2 .0 .0 .0 00 :1 'owner 'b1 00",
        ),
        (
            "00 01 'b1 01 'owner",
            "00 01 'b 'x .2 .0 .0 .0 00 :1 'owner 'b1",
        ),
        ("00 00 'b2 01 'owner", "00 00"),
    ],
};

/// What the shard runs.
pub const SHARD: [History; 6] = [KEYS, EXPECTATIONS, SEQUENCE, SESSIONS, NOTICES, INDEX];
