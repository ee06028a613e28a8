// One step: the row of an input, the batch on the disks, and the advance.
ghost use Rattle.std.specs.Prelude.{◌≡◌, ◌≢◌, ◌≤◌, ◌<◌, ◌^◌, nat_lt, Ok, Err, IfOk, OnOk};
ghost use Rattle.ox_types.specs.Durable.{table_of};
ghost use Rattle.ox_outside.specs.Causes.{Rose};
ghost use Rattle.ox_journal.specs.declared.state.State.TheVariants.{Broken};
ghost use Rattle.ox_journal.specs.Pair.{LeavesPairs};
ghost use Rattle.ox_wal.specs.Files.{BeforeOrBehind, Keeps};
ghost use Rattle.ox_wal.specs.State.{state_of};
ghost use Rattle.ox_solo_replica.specs.declared.output.HandleFault.TheVariants as fault_is;
ghost use Rattle.ox_solo_replica.specs.declared.output.Cut.TheVariants as cut_is;
ghost use Rattle.ox_solo_replica.specs.declared.output.Output.{Output as Outputs};
ghost use Rattle.ox_solo_replica.specs.Cutting.{calls_of, cut_step, disk_behind, stands_at};
ghost use Rattle.ox_solo_replica.specs.Inputs.{IsInput};
ghost use Rattle.ox_solo_replica.specs.Keeping.{IsKeepable, IsSmall};
ghost use Rattle.ox_solo_replica.specs.Plans.{planned};
ghost use Rattle.ox_solo_replica.specs.Sound.{IsSound};
ghost use Rattle.ox_solo_replica.specs.State.{folded_all, view_at as view_of_state};
ghost use Rattle.ox_solo_replica.specs.Step.{from_client, from_coordinator, from_peer, row_of, output_of, finished, replica_step};

use crate::client::{read, write};
use crate::input::Input;
use crate::live::Live;
use crate::moving::advance;
use crate::output::{Cut, HandleFault, Output};
use crate::plan::Plan;
use crate::term::{become_leader, new_term};
use crate::tick::tick;
use ox_machine::Machine;
use ox_outside::Disk;
use ox_types::{Action, CoordId, List, LogView, NoMemory, NodeId, Octets, Peer};
use ox_wal::{CommitFault, Log, Wal};
use ox_wire::Body;
use std::alloc::Global;

/// The calls of the disks that keep a batch.
const BATCH_CALLS: u64 = 4;

/// What the rows look at. It costs nothing.
pub fn view_at<D: Disk>(wal: &Wal<D>, commit: u64) -> LogView
    ensures { result ≡ view_of_state wal.now.blocks (state_of wal.now.log) commit }
{
    LogView {
        term: wal.term(),
        seat: wal.seat(),
        base: wal.base(),
        count: wal.log.base.count + wal.log.entries.len() as u64,
        commit,
        free: wal.blocks_free(),
        all: wal.blocks,
    }
}

/// The row of a coordinator's message. The rows of followers, AddFollower and configs of more than this node aren't there
/// yet: a message that meets no row does nothing.
fn plan_message<M: Machine, D: Disk>(
    alloc: Global,
    me: NodeId,
    wal: &Wal<D>,
    live: &mut Live<M>,
    from: CoordId,
    body: Body,
) -> Result<Plan, NoMemory>
    requires small { (view_of_state wal.now.blocks (state_of wal.now.log) live.old.commit).count ≤ 9007199254740992 }
    ensures row { IfOk result (λ plan. planned plan live.new ≡ from_coordinator me (view_of_state wal.now.blocks (state_of wal.now.log) live.old.commit) (table_of (state_of wal.now.log)) live.old from body) }
{
    let view = view_at(wal, live.commit);
    match body {
        Body::NewTerm { term } => {
            let table = wal.table()?;
            new_term(alloc, &view, table, live, from, term)
        }
        Body::BecomeLeader { term, config, .. } => become_leader(
            alloc, &view, live, me, from, term, config,
        ),
        _ => Ok(Plan::silent(alloc, false)),
    }
}

/// The row of a message: messages of nodes have none yet.
fn plan_peer<M: Machine, D: Disk>(
    alloc: Global,
    me: NodeId,
    wal: &Wal<D>,
    live: &mut Live<M>,
    from: Peer,
    body: Body,
) -> Result<Plan, NoMemory>
    requires small { (view_of_state wal.now.blocks (state_of wal.now.log) live.old.commit).count ≤ 9007199254740992 }
    ensures row { IfOk result (λ plan. planned plan live.new ≡ from_peer me (view_of_state wal.now.blocks (state_of wal.now.log) live.old.commit) (table_of (state_of wal.now.log)) live.old from body) }
{
    match from {
        Peer::Node(_) => Ok(Plan::silent(alloc, false)),
        Peer::Coordinator(from) => plan_message(alloc, me, wal, live, from, body),
    }
}

/// The row of a client's request.
fn plan_client<M: Machine>(
    alloc: Global,
    view: &LogView,
    live: &mut Live<M>,
    tag: u64,
    is_write: bool,
    body: Octets,
) -> Result<Plan, NoMemory>
    requires fits { M.meaning.fits view.now.commit live.old.machine }
    requires small { view.now.commit ≤ 2 ^ 53 }
    ensures row { IfOk result (λ plan. planned plan live.new ≡ from_client M.meaning view.now live.old tag is_write body) }
    ensures small { IfOk result (λ plan. IsSmall plan.batch.items) }
{
    if is_write {
        write(alloc, view, live, tag, body)
    } else {
        read(alloc, view, live, tag, body.as_slice())
    }
}

/// The row of an input. No disk is touched.
#[tactic(auto, unfolding(crate::specs::Step::row_at))]
pub fn plan<M: Machine, D: Disk>(
    alloc: Global,
    me: NodeId,
    wal: &Wal<D>,
    live: &mut Live<M>,
    input: Input,
) -> Result<Plan, NoMemory>
    requires input { IsInput input }
    requires sound { IsSound M.meaning (state_of wal.now.log) live.old }
    ensures row { IfOk result (λ plan. planned plan live.new ≡ row_of M.meaning me wal.now.blocks (record { disk = state_of wal.now.log; live = live.old }) input) }
    // The log takes its batch, and what holds of a replica holds behind it.
    ensures keepable { IfOk result (λ plan. IsKeepable wal.now.blocks (state_of wal.now.log) plan.batch.items) }
    ensures sound { IfOk result (λ plan. IsSound M.meaning (folded_all (state_of wal.now.log) plan.batch.items) live.new) }
{
    match input {
        Input::Peer { from, body } => plan_peer(alloc, me, wal, live, from, body),
        Input::Client { tag, write, body } => {
            let view = view_at(wal, live.commit);
            plan_client(alloc, &view, live, tag, write, body)
        }
        Input::Tick { ms } => {
            let view = view_at(wal, live.commit);
            tick(alloc, &view, live, ms)
        }
    }
}

/// Keeps a batch, if there is one. It is on the disks once this answers.
pub fn keep<D: Disk>(wal: &mut Wal<D>, batch: &[Action]) -> Result<(), HandleFault>
    requires keepable { IsKeepable wal.old.blocks (state_of wal.old.log) batch.now }
    requires kept { D.tells → Keeps (D.shows wal.old.journal.live) (D.shows wal.old.journal.spare) wal.old.journal.round wal.old.journal.end (state_of wal.old.log) }
    requires up { wal.old.journal.state ≢ Broken }
    ensures state { OnOk result (state_of wal.new.log ≡ folded_all (state_of wal.old.log) batch.now) }
    ensures kept { D.tells → OnOk result (Keeps (D.shows wal.new.journal.live) (D.shows wal.new.journal.spare) wal.new.journal.round wal.new.journal.end (state_of wal.new.log)) }
    ensures up { OnOk result (wal.new.journal.state ≢ Broken) }
    ensures blocks { wal.new.blocks ≡ wal.old.blocks }
    ensures any_moment { D.tells → LeavesPairs (D.shows wal.old.journal.live) (D.shows wal.old.journal.spare) (D.shows wal.new.journal.live) (D.shows wal.new.journal.spare) (BeforeOrBehind (state_of wal.old.log) (folded_all (state_of wal.old.log) batch.now)) }
    ensures half { (wal.new.journal.half ≡ wal.old.journal.half) × (wal.new.journal.spare ≡ wal.old.journal.spare) }
    ensures cause { result ≡ Err fault_is.DiskFault → Rose (D.faults wal.old.journal.live) (D.faults wal.new.journal.live) }
    ensures later { D.faults wal.old.journal.live ≤ D.faults wal.new.journal.live }
{
    if batch.is_empty() {
        wal.law_kept();
        return Ok(());
    }
    match wal.commit(batch) {
        Ok(()) => Ok(()),
        Err(CommitFault::DiskFault) => Err(HandleFault::DiskFault),
        Err(CommitFault::NoMemory) => Err(HandleFault::NoMemory),
        Err(CommitFault::LogFull { .. }) => unreachable!(),
    }
}

/// What a step gives once its batch is kept: the leader advances where the row says so.
pub fn finish<M: Machine>(
    alloc: Global,
    log: &Log,
    live: &mut Live<M>,
    plan: Plan,
) -> Result<Output, NoMemory>
    requires sound { IsSound M.meaning (state_of log.now) live.old }
    ensures output { IfOk result (λ output. output ≡ output_of (finished M.meaning (state_of log.now) (planned plan live.old))) }
    ensures state { OnOk result (record { disk = state_of log.now; live = live.new } ≡ (finished M.meaning (state_of log.now) (planned plan live.old)).state) }
    ensures sound { OnOk result (IsSound M.meaning (state_of log.now) live.new) }
{
    let Plan {
        kept,
        advances,
        sends,
        replies,
        ..
    } = plan;
    let mut sends = sends;
    let mut replies = replies;
    if advances {
        advance(alloc, log, live, &mut sends, &mut replies)?;
    }
    Ok(Output {
        kept,
        sends,
        replies,
    })
}

/// A step of a replica that isn't closed.
pub fn handle_at<M: Machine, D: Disk>(
    alloc: Global,
    me: NodeId,
    wal: &mut Wal<D>,
    live: &mut Live<M>,
    input: Input,
) -> Result<Output, HandleFault>
    requires input { IsInput input }
    requires sound { IsSound M.meaning (state_of wal.old.log) live.old }
    requires kept { D.tells → Keeps (D.shows wal.old.journal.live) (D.shows wal.old.journal.spare) wal.old.journal.round wal.old.journal.end (state_of wal.old.log) }
    requires up { wal.old.journal.state ≢ Broken }
    ensures output { IfOk result (λ output. output ≡ output_of (replica_step M.meaning me wal.old.blocks (record { disk = state_of wal.old.log; live = live.old }) input)) }
    ensures state { OnOk result (record { disk = state_of wal.new.log; live = live.new } ≡ (replica_step M.meaning me wal.old.blocks (record { disk = state_of wal.old.log; live = live.old }) input).state) }
    ensures sound { OnOk result (IsSound M.meaning (state_of wal.new.log) live.new) }
    ensures kept { D.tells → OnOk result (Keeps (D.shows wal.new.journal.live) (D.shows wal.new.journal.spare) wal.new.journal.round wal.new.journal.end (state_of wal.new.log)) }
    ensures up { OnOk result (wal.new.journal.state ≢ Broken) }
    ensures blocks { wal.new.blocks ≡ wal.old.blocks }
    ensures half { (wal.new.journal.half ≡ wal.old.journal.half) × (wal.new.journal.spare ≡ wal.old.journal.spare) }
    ensures any_moment { D.tells → LeavesPairs (D.shows wal.old.journal.live) (D.shows wal.old.journal.spare) (D.shows wal.new.journal.live) (D.shows wal.new.journal.spare) (BeforeOrBehind (state_of wal.old.log) (replica_step M.meaning me wal.old.blocks (record { disk = state_of wal.old.log; live = live.old }) input).state.disk) }
    ensures cause { result ≡ Err fault_is.DiskFault → Rose (D.faults wal.old.journal.live) (D.faults wal.new.journal.live) }
    ensures later { D.faults wal.old.journal.live ≤ D.faults wal.new.journal.live }
{
    wal.law_kept();
    let plan = plan(alloc, me, wal, live, input)?;
    keep(wal, plan.batch.as_slice())?;
    let output = finish(alloc, &wal.log, live, plan)?;
    Ok(output)
}

/// Whether a step with this batch makes fewer calls of the disks than this.
fn is_whole(batch: &[Action], at: u64) -> bool
    requires { 0 < at }
    ensures { result ≡ nat_lt (calls_of batch.now) at }
{
    match batch {
        [] => true,
        [_, ..] => BATCH_CALLS < at,
    }
}

/// Whether a batch that is cut inside this call is found again.
fn is_found(at: u64, stands: bool) -> bool
    ensures { result ≡ stands_at at stands }
{
    3 <= at && stands
}

/// A step of a replica that isn't closed, cut inside the call of the disks with this number, counted from 1: `stands` where
/// what that call wrote is found again.
pub fn cut_at<M: Machine, D: Disk>(
    alloc: Global,
    me: NodeId,
    wal: &mut Wal<D>,
    live: &mut Live<M>,
    input: Input,
    at: u64,
    stands: bool,
) -> Result<Cut, HandleFault>
    requires input { IsInput input }
    requires counted { 0 < at }
    requires sound { IsSound M.meaning (state_of wal.old.log) live.old }
    requires kept { D.tells → Keeps (D.shows wal.old.journal.live) (D.shows wal.old.journal.spare) wal.old.journal.round wal.old.journal.end (state_of wal.old.log) }
    requires up { wal.old.journal.state ≢ Broken }
    ensures cut { IfOk result (λ cut. cut ≡ cut_step (state_of wal.old.log) (replica_step M.meaning me wal.old.blocks (record { disk = state_of wal.old.log; live = live.old }) input) at stands) }
    ensures disk { OnOk result (state_of wal.new.log ≡ disk_behind (state_of wal.old.log) (replica_step M.meaning me wal.old.blocks (record { disk = state_of wal.old.log; live = live.old }) input) at stands) }
    ensures whole { (output : Outputs) → result ≡ Ok (cut_is.Whole output) → (record { disk = state_of wal.new.log; live = live.new } ≡ (replica_step M.meaning me wal.old.blocks (record { disk = state_of wal.old.log; live = live.old }) input).state) × IsSound M.meaning (state_of wal.new.log) live.new }
    ensures kept { D.tells → OnOk result (Keeps (D.shows wal.new.journal.live) (D.shows wal.new.journal.spare) wal.new.journal.round wal.new.journal.end (state_of wal.new.log)) }
    ensures up { OnOk result (wal.new.journal.state ≢ Broken) }
    ensures blocks { wal.new.blocks ≡ wal.old.blocks }
    ensures half { (wal.new.journal.half ≡ wal.old.journal.half) × (wal.new.journal.spare ≡ wal.old.journal.spare) }
    ensures any_moment { D.tells → LeavesPairs (D.shows wal.old.journal.live) (D.shows wal.old.journal.spare) (D.shows wal.new.journal.live) (D.shows wal.new.journal.spare) (BeforeOrBehind (state_of wal.old.log) (replica_step M.meaning me wal.old.blocks (record { disk = state_of wal.old.log; live = live.old }) input).state.disk) }
    ensures cause { result ≡ Err fault_is.DiskFault → Rose (D.faults wal.old.journal.live) (D.faults wal.new.journal.live) }
    ensures later { D.faults wal.old.journal.live ≤ D.faults wal.new.journal.live }
{
    wal.law_kept();
    let plan = plan(alloc, me, wal, live, input)?;
    if is_whole(plan.batch.as_slice(), at) {
        keep(wal, plan.batch.as_slice())?;
        let output = finish(alloc, &wal.log, live, plan)?;
        return Ok(Cut::Whole(output));
    }
    if !is_found(at, stands) {
        return Ok(Cut::Down {
            kept: List::new(alloc),
            head: wal.head(),
        });
    }
    keep(wal, plan.batch.as_slice())?;
    let head = wal.head();
    let Plan { kept, .. } = plan;
    Ok(Cut::Down { kept, head })
}
