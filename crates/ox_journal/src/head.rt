// The first bytes of two halves.
ghost use Rattle.std.specs.Prelude.{◌≡◌, ◌<◌, take, drop};
ghost use Rattle.ox_journal.specs.Head.{head_of, marked, choice, later_of, RoundsInRange, ChoiceInRange};

/// What the first bytes of a half say: it is blank or closed, bad at a place, or live with a round.
#[derive(Clone, Copy, Debug, PartialEq, Eq)]
pub enum Head {
    Dead,
    Bad { at: u64 },
    Round { round: u8 },
}

/// Which half is the journal.
#[derive(Clone, Copy, Debug, PartialEq, Eq)]
pub enum Choice {
    Neither,
    Damaged { half: u8, at: u64 },
    Live { half: u8, round: u8 },
}

const MARK: [u8; 8] = [79, 88, 73, 65, 74, 82, 78, 49];

fn front_of(bytes: &[u8], n: usize) -> &[u8]
    ensures { result.now ≡ take n bytes.now }
{
    if bytes.len() < n { bytes } else { &bytes[..n] }
}

fn rest_of(bytes: &[u8], n: usize) -> &[u8]
    ensures { result.now ≡ drop n bytes.now }
{
    if bytes.len() < n { &[] } else { &bytes[n..] }
}

fn read_marked(rest: &[u8]) -> Head
    ensures head { result ≡ marked rest.now }
    ensures range { RoundsInRange result }
{
    if front_of(rest, 8) != MARK.as_slice() {
        return Head::Bad { at: 1 };
    }
    match rest_of(rest, 8) {
        [] => Head::Bad { at: 9 },
        [round, ..] => {
            if *round < 3 {
                Head::Round { round: *round }
            } else {
                Head::Bad { at: 9 }
            }
        }
    }
}

/// What the first ten bytes of a half say.
pub fn parse_head(bytes: &[u8]) -> Head
    ensures head { result ≡ head_of bytes.now }
    ensures range { RoundsInRange result }
{
    match bytes {
        [] => Head::Dead,
        [_] => Head::Dead,
        [gate, rest @ ..] => {
            if *gate == 1 {
                read_marked(rest)
            } else {
                Head::Dead
            }
        }
    }
}

// Two live halves: the one whose round comes next after the other's.
fn choose_later(a: u8, b: u8) -> Choice
    requires first { a < 3 }
    requires second { b < 3 }
    ensures choice { result ≡ later_of a b }
    ensures range { ChoiceInRange result }
{
    if a == b {
        Choice::Damaged { half: 1, at: 9 }
    } else if a == (b + 1) % 3 {
        Choice::Live { half: 0, round: a }
    } else {
        Choice::Live { half: 1, round: b }
    }
}

/// Which half is the journal. The first is tested before the second.
pub fn choose(first: Head, second: Head) -> Choice
    requires first { RoundsInRange first }
    requires second { RoundsInRange second }
    ensures choice { result ≡ choice first second }
    ensures range { ChoiceInRange result }
{
    match first {
        Head::Bad { at } => Choice::Damaged { half: 0, at },
        Head::Dead => match second {
            Head::Bad { at } => Choice::Damaged { half: 1, at },
            Head::Dead => Choice::Neither,
            Head::Round { round } => Choice::Live { half: 1, round },
        },
        Head::Round { round } => match second {
            Head::Bad { at } => Choice::Damaged { half: 1, at },
            Head::Dead => Choice::Live { half: 0, round },
            Head::Round { round: other } => choose_later(round, other),
        },
    }
}
