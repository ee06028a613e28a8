// The beginning of a term: NewTerm and BecomeLeader.
ghost use Rattle.std.specs.Prelude.{◌≡◌, ◌+◌, ◌<◌, ◌≤◌, [], ◌∷◌, ◌++◌, map, true, false, IsTrue, IfOk, OnOk};
ghost use Rattle.ox_types.specs.Durable.{is_fenced as fenced};
ghost use Rattle.ox_types.specs.declared.peer.Peer.TheVariants as peer_is;
ghost use Rattle.ox_types.specs.declared.durable.Action.TheVariants as action_is;
ghost use Rattle.ox_wire.specs.declared.body.Body.TheVariants as body_is;
ghost use Rattle.ox_solo_replica.specs.Plans.{Says, planned};
ghost use Rattle.ox_solo_replica.specs.Term as rows;

use crate::leading::{Leading, Pending};
use crate::live::Live;
use crate::output::Answered;
use crate::plan::Plan;
use ox_bytes::COUNT_LIMIT;
use ox_quorum::Config;
use ox_timer::Timers;
use ox_types::{
    Action, CoordId, Entry, EntryBody, KeptAs, List, LogView, NoMemory, NodeId, Peer, Refusal,
    Seat, Term, TermTable,
};
use ox_wire::{Asked, Body, Outcome};
use std::alloc::Global;

/// The number of a term.
pub fn number_of(term: Term) -> u64
    ensures { result ≡ term }
{
    term.0
}

fn is_fenced(seat: Seat) -> bool
    ensures { result ≡ fenced seat }
{
    seat == Seat::Fenced
}

/// A coordinator is refused what it asked.
fn refuse(
    alloc: Global,
    from: CoordId,
    asked: Asked,
    term: Term,
    refusal: Refusal,
) -> Result<Plan, NoMemory>
    ensures { IfOk result (λ plan. Says plan [] false (record { to = peer_is.Coordinator from; body = body_is.Refused asked term refusal } ∷ []) []) }
{
    let body = Body::Refused {
        asked,
        term,
        refusal,
    };
    Plan::send(alloc, Peer::Coordinator(from), body)
}

/// Each pending client is told that the leader of a term is gone, by another term.
fn tell_gone(
    alloc: Global,
    pending: &[Pending],
    old: Term,
    by: Term,
) -> Result<List<Answered>, NoMemory>
    ensures { IfOk result (λ told. told ≡ map (rows.gone old by) pending.now) }
{
    let mut told = List::new(alloc);
    for client in pending {
        let refusal = Refusal::LeaderGone { term: old, by };
        told.push(Answered {
            tag: client.tag,
            outcome: Outcome::Refused(refusal),
        })?;
    }
    Ok(told)
}

/// The clients that are told where a leader, if any, is gone.
fn tell_all_gone(
    alloc: Global,
    leading: &Option<Leading>,
    old: Term,
    by: Term,
) -> Result<List<Answered>, NoMemory>
    ensures { IfOk result (λ told. told ≡ rows.all_gone old by leading.now) }
{
    match leading {
        None => Ok(List::new(alloc)),
        Some(leading) => tell_gone(alloc, leading.pending.as_slice(), old, by),
    }
}

/// A higher term begins.
fn fence<M>(
    alloc: Global,
    view: &LogView,
    table: TermTable,
    live: &mut Live<M>,
    from: CoordId,
    term: Term,
) -> Result<Plan, NoMemory>
    ensures { IfOk result (λ plan. planned plan live.new ≡ rows.fences view.now live.old table from term) }
{
    let replies = tell_all_gone(alloc, &live.leading, view.term, term)?;
    let mut batch = Vec::new(alloc);
    batch.push(Action::Term(term))?;
    let mut kept = List::new(alloc);
    kept.push(KeptAs::Term(term))?;
    let mut plan = Plan::keep(alloc, batch, kept, false);
    plan.sends.push(crate::output::Outgoing {
        to: Peer::Coordinator(from),
        body: Body::Fenced { term, table },
    })?;
    plan.replies = replies;
    live.hint = None;
    live.leading = None;
    Ok(plan)
}

/// The row of a NewTerm. It costs the pending clients.
pub fn new_term<M>(
    alloc: Global,
    view: &LogView,
    table: TermTable,
    live: &mut Live<M>,
    from: CoordId,
    term: Term,
) -> Result<Plan, NoMemory>
    ensures { IfOk result (λ plan. planned plan live.new ≡ rows.new_term view.now live.old table from term) }
{
    let (asked, has) = (number_of(term), number_of(view.term));
    if asked < has {
        let refusal = Refusal::OldTerm {
            asked: term,
            has: view.term,
        };
        return refuse(alloc, from, Asked::NewTerm, term, refusal);
    }
    if has < asked {
        return fence(alloc, view, table, live, from, term);
    }
    if is_fenced(view.seat) {
        let body = Body::Fenced { term, table };
        return Plan::send(alloc, Peer::Coordinator(from), body);
    }
    let refusal = Refusal::SeatTaken {
        term: view.term,
        seat: view.seat,
    };
    refuse(alloc, from, Asked::NewTerm, term, refusal)
}

/// Whether the config is this node alone.
fn is_alone(me: NodeId, config: &Config) -> bool
    ensures { result ≡ rows.is_alone me config.now }
{
    match config {
        Config::One(ensemble) => {
            let nodes = ensemble.nodes();
            nodes.len() == 1 && nodes[0] == me
        }
        Config::Joint(_, _) => false,
    }
}

/// It leads, and begins with a Pass.
fn lead<M>(
    alloc: Global,
    view: &LogView,
    live: &mut Live<M>,
    me: NodeId,
    chief: CoordId,
    config: Config,
) -> Result<Plan, NoMemory>
    requires { view.now.count < 9007199254740992 }
    ensures { IfOk result (λ plan. planned plan live.new ≡ rows.leads view.now live.old me chief config) }
{
    let mut entries = List::new(alloc);
    entries.push(Entry {
        term: view.term,
        offset: view.count,
        time: live.now,
        body: EntryBody::Pass,
    })?;
    let mut batch = Vec::new(alloc);
    batch.push(Action::Lead)?;
    batch.push(Action::Append { entries })?;
    let mut kept = List::new(alloc);
    kept.push(KeptAs::Lead)?;
    kept.push(KeptAs::Append { entries: 1 })?;
    live.leading = Some(Leading {
        me,
        chief,
        config,
        begin: view.count + 1,
        cursors: List::new(alloc),
        pending: List::new(alloc),
        timers: Timers::empty(alloc),
    });
    Ok(Plan::keep(alloc, batch, kept, true))
}

/// A fenced node is to lead its term.
fn may_lead<M>(
    alloc: Global,
    view: &LogView,
    live: &mut Live<M>,
    me: NodeId,
    chief: CoordId,
    term: Term,
    config: Config,
) -> Result<Plan, NoMemory>
    requires { view.now.count ≤ 9007199254740992 }
    ensures { IfOk result (λ plan. planned plan live.new ≡ rows.may_lead view.now live.old me chief term config) }
{
    if view.count == COUNT_LIMIT {
        let refusal = Refusal::LogSpent { count: view.count };
        return refuse(alloc, chief, Asked::BecomeLeader, term, refusal);
    }
    if view.free == 0 {
        let refusal = Refusal::LogFull { need: 1, free: 0 };
        return refuse(alloc, chief, Asked::BecomeLeader, term, refusal);
    }
    if is_alone(me, &config) {
        return lead(alloc, view, live, me, chief, config);
    }
    Ok(Plan::silent(alloc, false))
}

/// A node that leads, or doesn't, is to lead its term again.
fn lead_again<M>(
    alloc: Global,
    view: &LogView,
    live: &mut Live<M>,
    chief: CoordId,
    term: Term,
) -> Result<Plan, NoMemory>
    ensures { IfOk result (λ plan. planned plan live.new ≡ rows.lead_again view.now live.old chief term live.old.leading) }
{
    match &mut live.leading {
        None => {
            let refusal = Refusal::SeatTaken {
                term: view.term,
                seat: view.seat,
            };
            refuse(alloc, chief, Asked::BecomeLeader, term, refusal)
        }
        Some(leading) => {
            leading.chief = chief;
            if leading.begin <= view.commit {
                let body = Body::Ready { term };
                return Plan::send(alloc, Peer::Coordinator(chief), body);
            }
            Ok(Plan::silent(alloc, false))
        }
    }
}

/// The row of a BecomeLeader. Its batch is on disk before anything of it is told, so a leader of a term never takes it again.
pub fn become_leader<M>(
    alloc: Global,
    view: &LogView,
    live: &mut Live<M>,
    me: NodeId,
    chief: CoordId,
    term: Term,
    config: Config,
) -> Result<Plan, NoMemory>
    requires { view.now.count ≤ 9007199254740992 }
    ensures { IfOk result (λ plan. planned plan live.new ≡ rows.become_leader view.now live.old me chief term config) }
{
    let (asked, has) = (number_of(term), number_of(view.term));
    if asked < has {
        let refusal = Refusal::OldTerm {
            asked: term,
            has: view.term,
        };
        return refuse(alloc, chief, Asked::BecomeLeader, term, refusal);
    }
    if has < asked {
        let refusal = Refusal::UnknownTerm {
            asked: term,
            has: view.term,
        };
        return refuse(alloc, chief, Asked::BecomeLeader, term, refusal);
    }
    if is_fenced(view.seat) {
        may_lead(alloc, view, live, me, chief, term, config)
    } else {
        lead_again(alloc, view, live, chief, term)
    }
}
