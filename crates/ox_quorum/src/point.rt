// How far the logs of a leader and a follower are the same, by their term tables.
ghost use Rattle.std.specs.Prelude.{◌≡◌, ◌+◌, ◌-◌, ◌<◌, ◌≤◌, ◌&&◌, ℕ, nat_lt, min, length, Some, IsTrue, if◌then◌else◌};
ghost use Rattle.ox_types.specs.Limits.{count_limit};
ghost use Rattle.ox_types.specs.Log.{table_head, term_in_runs, term_at};
ghost use Rattle.ox_bytes.specs.LogForms.{term_table};
ghost use Rattle.ox_quorum.specs.CommonPoint.{greatest, agree_at, common_point_of, common_point_to};

use ox_types::{COUNT_LIMIT, OFFSET_LIMIT, Term, TermRun, TermTable};

/// The count of the head, where that is a count.
fn head_count(table: &TermTable) -> u64
    ensures { result ≡ min count_limit (table_head table.now).count }
{
    match table.runs.as_slice() {
        [] => table.base.count.min(COUNT_LIMIT),
        [.., last] => last.last.min(OFFSET_LIMIT) + 1,
    }
}

/// The term of the first run that reaches the offset.
fn term_in(runs: &[TermRun], offset: u64) -> Option<Term>
    ensures { result ≡ term_in_runs runs.now offset }
{
    for run in runs {
        if offset <= run.last {
            return Some(run.term);
        }
    }
    None
}

/// The term of the entry before the count.
fn term_before(table: &TermTable, count: u64) -> Option<Term>
    requires { 0 < count }
    ensures { result ≡ term_at table.now (count - 1) }
{
    if count == table.base.count {
        return Some(table.base.term);
    }
    if count < table.base.count {
        return None;
    }
    term_in(table.runs.as_slice(), count - 1)
}

/// Whether the tables agree on the entry before the count.
fn agree(leader: &TermTable, follower: &TermTable, count: u64) -> bool
    ensures { result ≡ agree_at leader.now follower.now count }
{
    if count == 0 {
        return true;
    }
    let Some(term) = term_before(leader, count) else {
        return false;
    };
    let Some(other) = term_before(follower, count) else {
        return false;
    };
    term.0 == other.0
}

/// The end of a span of offsets from `at` on, where it is one and the same term, or else what was found before it.
fn behind(found: Option<u64>, same: bool, at: u64, end: u64) -> Option<u64>
    ensures { result ≡ (if same && nat_lt at end then Some end else found) }
{
    if same && at < end { Some(end) } else { found }
}

/// What is found up to `most`, where `found` is what is found up to `least`, the base of one of the tables.
fn common_to(
    leader: &TermTable,
    follower: &TermTable,
    least: u64,
    most: u64,
    found: Option<u64>,
) -> Option<u64>
    requires leader { leader.now.base.count ≤ least }
    requires follower { follower.now.base.count ≤ least }
    requires within { least ≤ most }
    requires found { found ≡ greatest (agree_at leader.now follower.now) least least }
    ensures { result ≡ greatest (agree_at leader.now follower.now) least most }
{
    if most == least {
        return found;
    }
    let runs = leader.runs.as_slice();
    let others = follower.runs.as_slice();
    let (mut place, mut other) = (0, 0);
    let (mut at, mut found) = (least, found);
    while place < runs.len() && other < others.len() {
        let run = runs[place];
        let its = others[other];
        // Up to this count both runs go on.
        let end = run.last.min(its.last).min(most - 1) + 1;
        found = behind(found, run.term.0 == its.term.0, at, end);
        at = at.max(end);
        if run.last <= its.last {
            place += 1;
            continue;
        }
        other += 1;
    }
    found
}

/// The count `least`, where the tables agree on it.
fn common_at(leader: &TermTable, follower: &TermTable, least: u64) -> Option<u64>
    ensures { result ≡ greatest (agree_at leader.now follower.now) least least }
{
    if agree(leader, follower, least) {
        return Some(least);
    }
    None
}

/// The greatest count, at least that of both bases and at most that of both heads, for which both tables give the entry
/// before it the same term; at count 0 there is none to give one to. Each run is passed twice at most.
pub fn common_point(leader: &TermTable, follower: &TermTable) -> Option<u64>
    // Of every two tables, up to the greatest count that a log may have.
    ensures every { result ≡ common_point_to count_limit leader.now follower.now }
    // No head of a lawful table is above it.
    ensures lawful { IsTrue (term_table.is_lawful leader.now) → IsTrue (term_table.is_lawful follower.now) → result ≡ common_point_of leader.now follower.now }
{
    let least = leader.base.count.max(follower.base.count);
    let most = head_count(leader).min(head_count(follower));
    if most < least {
        return None;
    }
    let found = common_at(leader, follower, least);
    common_to(leader, follower, least, most, found)
}
