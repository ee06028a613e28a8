// A client's requests: the refusals in their order, a write, and a read.
ghost use Rattle.std.specs.Prelude.{◌≡◌, ◌+◌, ◌<◌, ◌≤◌, ◌^◌, [], ◌∷◌, ◌++◌, length, None, ℕ, List, IsTrue, IfOk};
ghost use Rattle.ox_bytes.specs.Form.{IsBytes};
ghost use Rattle.ox_bytes.specs.LogForms.{entry_blocks};
ghost use Rattle.ox_bytes.specs.Texts.{value_in};
ghost use Rattle.ox_types.specs.declared.log.Entry.{Entry as AnyEntry};
ghost use Rattle.ox_types.specs.declared.log.EntryBody.TheVariants as entry_is;
ghost use Rattle.ox_machine.specs.Laws.{command_limit};
ghost use Rattle.ox_wire.specs.declared.message.Outcome.TheVariants as outcome_is;
ghost use Rattle.ox_solo_replica.specs.Keeping.{IsSmall};
ghost use Rattle.ox_solo_replica.specs.Plans.{planned};
ghost use Rattle.ox_solo_replica.specs.State.{reserve_of};
ghost use Rattle.ox_solo_replica.specs.Client as rows;

use crate::leading::{Leading, Pending};
use crate::live::Live;
use crate::plan::Plan;
use ox_bytes::COUNT_LIMIT;
use ox_machine::Machine;
use ox_types::{
    Bad, Entry, EntryBody, LogView, MachineFault, NoMemory, NodeId, Octets, Part, Refusal, Rule,
};
use ox_wire::Outcome;
use std::alloc::Global;

/// The most writes that are pending.
pub const PENDING_LIMIT: usize = 1024;

/// The blocks that no client's entry may take.
fn reserve(all: u64) -> u64
    ensures { result ≡ reserve_of all }
{
    (all / 4).min(64)
}

/// The blocks of an entry with a command of so many bytes.
pub fn command_blocks(len: usize) -> u64
    ensures { (e : AnyEntry) (bytes : List ℕ) → e.body ≡ entry_is.Command bytes → length bytes ≡ len → result ≡ entry_blocks e }
{
    let len = len as u64;
    len / 4096 + (len % 4096 + 29 + 4095) / 4096
}

/// The blocks that are left for clients' entries.
pub fn room(view: &LogView) -> u64
    ensures { result ≡ rows.room_of view.now }
{
    view.free.saturating_sub(reserve(view.all))
}

/// The bytes are no command or query.
fn grammar() -> Bad
    ensures { result ≡ rows.grammar }
{
    Bad {
        part: Part::Bytes,
        index: 0,
        rule: Rule::Grammar,
    }
}

/// The first fault of a command's bytes.
fn command_fault<M: Machine>(alloc: Global, bytes: &[u8]) -> Result<Option<Bad>, NoMemory>
    ensures fault { IfOk result (λ bad. bad ≡ rows.fault_of M.meaning (value_in M.meaning.commands bytes.now)) }
    ensures small { IfOk result (λ bad. bad ≡ None → length bytes.now ≤ command_limit) }
{
    match M::decode(alloc, bytes) {
        Ok(command) => M::faulty(alloc, &command),
        Err(MachineFault::BadBytes { .. }) => Ok(Some(grammar())),
        Err(MachineFault::NoMemory) => Err(NoMemory),
    }
}

/// Why the replica takes no requests, if so.
fn not_ready(view: &LogView, hint: Option<NodeId>, leading: &Option<Leading>) -> Option<Refusal>
    ensures { result ≡ rows.not_ready_by view.now hint leading.now }
{
    match leading {
        None => Some(Refusal::NotLeader {
            term: view.term,
            hint,
        }),
        Some(leading) => {
            if view.commit < leading.begin {
                Some(Refusal::Recovering {
                    term: view.term,
                    begin: leading.begin,
                    commit: view.commit,
                })
            } else {
                None
            }
        }
    }
}

/// Whether as many writes are pending as may be.
fn too_many(view: &LogView, leading: &Option<Leading>) -> Option<Refusal>
    ensures { result ≡ rows.too_many_by view.now leading.now }
{
    match leading {
        None => None,
        Some(leading) => {
            if PENDING_LIMIT <= leading.pending.len() {
                Some(Refusal::TooManyPending { limit: 1024 })
            } else {
                None
            }
        }
    }
}

/// Why the log takes no entry of so many blocks, if so.
fn no_room(view: &LogView, need: u64) -> Option<Refusal>
    ensures { result ≡ rows.no_room view.now need }
{
    if view.count == COUNT_LIMIT {
        return Some(Refusal::LogSpent { count: view.count });
    }
    let free = room(view);
    if free < need {
        return Some(Refusal::LogFull { need, free });
    }
    None
}

/// The first refusal of a write. It costs the decoding and the tests of the command.
fn write_refusal<M: Machine>(
    alloc: Global,
    view: &LogView,
    live: &Live<M>,
    bytes: &[u8],
) -> Result<Option<Refusal>, NoMemory>
    ensures refusal { IfOk result (λ refusal. refusal ≡ rows.write_refusal M.meaning view.now live.entry.now bytes.now) }
    ensures small { IfOk result (λ refusal. refusal ≡ None → length bytes.now ≤ command_limit) }
{
    if let Some(bad) = command_fault::<M>(alloc, bytes)? {
        return Ok(Some(Refusal::BadRequest(bad)));
    }
    if let Some(refusal) = not_ready(view, live.hint, &live.leading) {
        return Ok(Some(refusal));
    }
    if let Some(refusal) = too_many(view, &live.leading) {
        return Ok(Some(refusal));
    }
    Ok(no_room(view, command_blocks(bytes.len())))
}

/// These are bytes.
pub fn see_bytes(bytes: &[u8])
    ensures { IsBytes bytes.now }
{
    let _count = bytes.len();
}

/// The entry is appended, and the client waits for it.
fn take<M: Machine>(
    alloc: Global,
    view: &LogView,
    live: &mut Live<M>,
    tag: u64,
    bytes: Octets,
) -> Result<Plan, NoMemory>
    requires short { length bytes ≤ command_limit }
    ensures row { IfOk result (λ plan. planned plan live.new ≡ rows.takes M.meaning view.now live.old tag bytes) }
    ensures small { IfOk result (λ plan. IsSmall plan.batch.items) }
{
    see_bytes(bytes.as_slice());
    let offset = view.count;
    let entry = Entry {
        term: view.term,
        offset,
        time: live.now,
        body: EntryBody::Command(bytes),
    };
    if let Some(leading) = &mut live.leading {
        leading.pending.push(Pending { tag, offset })?;
    }
    Plan::append(alloc, entry)
}

/// The row of a client's write.
pub fn write<M: Machine>(
    alloc: Global,
    view: &LogView,
    live: &mut Live<M>,
    tag: u64,
    bytes: Octets,
) -> Result<Plan, NoMemory>
    ensures row { IfOk result (λ plan. planned plan live.new ≡ rows.write M.meaning view.now live.old tag bytes) }
    ensures small { IfOk result (λ plan. IsSmall plan.batch.items) }
{
    match write_refusal::<M>(alloc, view, live, bytes.as_slice())? {
        Some(refusal) => Plan::answer(alloc, tag, Outcome::Refused(refusal)),
        None => take(alloc, view, live, tag, bytes),
    }
}

/// The query may start a timer anew.
fn hear<M: Machine>(live: &mut Live<M>, query: &M::Query)
    ensures { live.new ≡ record live.old { leading = rows.hears M.meaning live.old query.now } }
{
    let now = live.now;
    if let (Some(leading), Some(id)) = (&mut live.leading, M::heard(query)) {
        leading.timers.hear(id, now);
    }
}

/// The answer at so many committed entries.
fn outcome_of<M: Machine>(
    alloc: Global,
    view: &LogView,
    machine: &M,
    query: &M::Query,
) -> Result<Outcome, NoMemory>
    requires lawful { IsTrue (M.meaning.queries.is_lawful query.now) }
    requires fits { M.meaning.fits view.now.commit machine.now }
    requires small { view.now.commit ≤ 2 ^ 53 }
    ensures { IfOk result (λ outcome. outcome ≡ outcome_is.Read view.now.term view.now.commit (M.meaning.answers.text (M.meaning.answer machine.entry.now query.now))) }
{
    let answer = machine.ask(query)?;
    let answer = M::encode_answer(alloc, &answer)?;
    Ok(Outcome::Read {
        term: view.term,
        prefix: view.commit,
        answer,
    })
}

/// The query is answered, and may start a timer anew.
fn answer<M: Machine>(
    alloc: Global,
    view: &LogView,
    live: &mut Live<M>,
    tag: u64,
    query: &M::Query,
) -> Result<Plan, NoMemory>
    requires lawful { IsTrue (M.meaning.queries.is_lawful query.now) }
    requires fits { M.meaning.fits view.now.commit live.old.machine }
    requires small { view.now.commit ≤ 2 ^ 53 }
    ensures row { IfOk result (λ plan. planned plan live.new ≡ rows.answers M.meaning view.now live.old tag query.now) }
    ensures small { IfOk result (λ plan. IsSmall plan.batch.items) }
{
    let outcome = outcome_of::<M>(alloc, view, &live.machine, query)?;
    hear(live, query);
    Plan::answer(alloc, tag, outcome)
}

/// The row of a client's read.
pub fn read<M: Machine>(
    alloc: Global,
    view: &LogView,
    live: &mut Live<M>,
    tag: u64,
    bytes: &[u8],
) -> Result<Plan, NoMemory>
    requires fits { M.meaning.fits view.now.commit live.old.machine }
    requires small { view.now.commit ≤ 2 ^ 53 }
    ensures row { IfOk result (λ plan. planned plan live.new ≡ rows.read M.meaning view.now live.old tag bytes.now) }
    ensures small { IfOk result (λ plan. IsSmall plan.batch.items) }
{
    let query = match M::decode_query(alloc, bytes) {
        Ok(query) => query,
        Err(MachineFault::BadBytes { .. }) => {
            let refusal = Refusal::BadRequest(grammar());
            return Plan::answer(alloc, tag, Outcome::Refused(refusal));
        }
        Err(MachineFault::NoMemory) => return Err(NoMemory),
    };
    match not_ready(view, live.hint, &live.leading) {
        Some(refusal) => Plan::answer(alloc, tag, Outcome::Refused(refusal)),
        None => answer(alloc, view, live, tag, &query),
    }
}
