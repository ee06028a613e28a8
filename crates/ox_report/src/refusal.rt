// Refusals.
ghost use Rattle.std.specs.Prelude.{◌≡◌, ◌++◌, OnOk, OnErr, codes};
ghost use Rattle.ox_text.specs.Words.{behind_space, field, field_or};
ghost use Rattle.ox_report.specs.Refusal.{part_name, bad_rule_name, seat_name, bad_text, refusal_text};

use ox_text::{add_count, add_counts, add_field};
use ox_types::{Bad, NoMemory, NodeId, Octets, Part, Refusal, Rule, Seat, ShardId, Term};
use std::alloc::Global;

/// The part's name behind a space.
fn add_part(text: &mut Octets, part: Part) -> Result<(), NoMemory>
    ensures { OnOk result (text.new ≡ text.old ++ behind_space (part_name part)) }
{
    match part {
        Part::Bytes => text.extend(b" bytes"),
        Part::Batch => text.extend(b" batch"),
        Part::Put => text.extend(b" put"),
        Part::Session => text.extend(b" session"),
    }
}

/// The rule's name behind a space.
fn add_rule(text: &mut Octets, rule: Rule) -> Result<(), NoMemory>
    ensures { OnOk result (text.new ≡ text.old ++ behind_space (bad_rule_name rule)) }
{
    match rule {
        Rule::Grammar => text.extend(b" grammar"),
        Rule::Ops => text.extend(b" ops"),
        Rule::Size => text.extend(b" size"),
        Rule::Deltas => text.extend(b" deltas"),
        Rule::First => text.extend(b" first"),
        Rule::Sequence => text.extend(b" sequence"),
        Rule::Long => text.extend(b" long"),
        Rule::Indexes => text.extend(b" indexes"),
        Rule::Repeated => text.extend(b" repeated"),
        Rule::Timeout => text.extend(b" timeout"),
        Rule::Expire => text.extend(b" expire"),
    }
}

/// The seat's name.
pub fn add_seat_name(text: &mut Octets, seat: Seat) -> Result<(), NoMemory>
    ensures { OnOk result (text.new ≡ text.old ++ seat_name seat) }
{
    match seat {
        Seat::Fenced => text.extend(b"fenced"),
        Seat::Attached => text.extend(b"attached"),
        Seat::Led => text.extend(b"led"),
    }
}

/// The seat's name behind a space.
fn add_seat(text: &mut Octets, seat: Seat) -> Result<(), NoMemory>
    ensures { OnOk result (text.new ≡ text.old ++ behind_space (seat_name seat)) }
{
    text.extend(b" ")?;
    add_seat_name(text, seat)
}

fn add_bad(text: &mut Octets, bad: Bad) -> Result<(), NoMemory>
    ensures { OnOk result (text.new ≡ text.old ++ bad_text bad) }
{
    text.extend(b"bad-request")?;
    add_part(text, bad.part)?;
    add_field(text, bad.index as u64)?;
    add_rule(text, bad.rule)
}

fn add_taken(text: &mut Octets, term: Term, seat: Seat) -> Result<(), NoMemory>
    ensures { OnOk result (text.new ≡ text.old ++ (codes "seat-taken" ++ field term ++ behind_space (seat_name seat))) }
{
    add_count(text, b"seat-taken", term.0)?;
    add_seat(text, seat)
}

/// The node to be asked, or `-`, behind a space.
fn add_hint(text: &mut Octets, hint: Option<NodeId>) -> Result<(), NoMemory>
    ensures { OnOk result (text.new ≡ text.old ++ field_or (codes "-") hint) }
{
    match hint {
        Some(node) => add_field(text, node.0 as u64),
        None => text.extend(b" -"),
    }
}

fn add_not_leader(text: &mut Octets, term: Term, hint: Option<NodeId>) -> Result<(), NoMemory>
    ensures { OnOk result (text.new ≡ text.old ++ (codes "not-leader" ++ field term ++ field_or (codes "-") hint)) }
{
    add_count(text, b"not-leader", term.0)?;
    add_hint(text, hint)
}

/// A word and two terms.
fn add_terms(text: &mut Octets, word: &[u8], first: Term, second: Term) -> Result<(), NoMemory>
    ensures { OnOk result (text.new ≡ text.old ++ (word.now ++ field first ++ field second)) }
{
    add_counts(text, word, first.0, second.0)
}

/// A word, a shard, and how many shards there are.
fn add_shards(text: &mut Octets, word: &[u8], asked: ShardId, shards: u32) -> Result<(), NoMemory>
    ensures { OnOk result (text.new ≡ text.old ++ (word.now ++ field asked ++ field shards)) }
{
    add_counts(text, word, asked.0 as u64, shards as u64)
}

fn add_recovering(text: &mut Octets, term: Term, begin: u64, commit: u64) -> Result<(), NoMemory>
    ensures { OnOk result (text.new ≡ text.old ++ (codes "recovering" ++ field term ++ field begin ++ field commit)) }
{
    add_counts(text, b"recovering", term.0, begin)?;
    add_field(text, commit)
}

/// The text of a refusal, as `add_refusal` adds it; where memory runs out, a part of it may be there.
pub fn write_refusal(text: &mut Octets, refusal: &Refusal) -> Result<(), NoMemory>
    ensures { OnOk result (text.new ≡ text.old ++ refusal_text refusal.now) }
{
    match refusal {
        Refusal::OldTerm { asked, has } => add_terms(text, b"old-term", *asked, *has),
        Refusal::UnknownTerm { asked, has } => add_terms(text, b"unknown-term", *asked, *has),
        Refusal::SeatTaken { term, seat } => add_taken(text, *term, *seat),
        Refusal::NotLeader { term, hint } => add_not_leader(text, *term, *hint),
        Refusal::Recovering {
            term,
            begin,
            commit,
        } => add_recovering(text, *term, *begin, *commit),
        Refusal::TooManyPending { limit } => add_count(text, b"too-many-pending", *limit as u64),
        Refusal::LogSpent { count } => add_count(text, b"log-spent", *count),
        Refusal::LogFull { need, free } => add_counts(text, b"log-full", *need, *free),
        Refusal::LeaderGone { term, by } => add_terms(text, b"leader-gone", *term, *by),
        Refusal::BadRequest(bad) => add_bad(text, *bad),
        Refusal::NoSuchShard { asked, shards } => {
            add_shards(text, b"no-such-shard", *asked, *shards)
        }
    }
}

/// Adds the text of a refusal, as its line in a report has it behind the arrival. It costs the text, which is made in
/// memory of its own first. Where memory runs out, nothing is added.
pub fn add_refusal(alloc: Global, text: &mut Octets, refusal: &Refusal) -> Result<(), NoMemory>
    ensures ok { OnOk result (text.new ≡ text.old ++ refusal_text refusal.now) }
    ensures err { OnErr result (text.new ≡ text.old) }
{
    let mut line = Octets::new(alloc);
    write_refusal(&mut line, refusal)?;
    text.extend(line.as_slice())
}
