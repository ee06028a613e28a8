// What a row says, before it is done.
ghost use Rattle.std.specs.Prelude.{◌≡◌, [], ◌∷◌, true, false, map, IfOk};
ghost use Rattle.ox_types.specs.declared.durable.Action.TheVariants as action_is;
ghost use Rattle.ox_solo_replica.specs.Kept.{kept_as};

use crate::output::{Answered, Outgoing};
use ox_types::{Action, Entry, KeptAs, List, NoMemory, Peer};
use ox_wire::{Body, Outcome};
use std::alloc::Global;

/// The batch that is kept, as actions and as a report shows them, whether the leader then advances, and what is sent and
/// answered before that.
#[derive(Drop)]
pub struct Plan {
    pub batch: Vec<Action>,
    pub kept: List<KeptAs>,
    pub advances: bool,
    pub sends: List<Outgoing>,
    pub replies: List<Answered>,
    ghost told: { kept ≡ map kept_as batch.items },
}

impl Plan {
    ghost use Rattle.ox_solo_replica.specs.Keeping.{IsShort, IsSmall};
    ghost use Rattle.ox_solo_replica.specs.Plans.{Says};

    /// This batch is kept.
    pub fn keep(alloc: Global, batch: Vec<Action>, kept: List<KeptAs>, advances: bool) -> Plan
        requires { kept ≡ map kept_as batch.items }
        ensures { Says result batch.items advances [] [] }
    {
        Plan {
            batch,
            kept,
            advances,
            sends: List::new(alloc),
            replies: List::new(alloc),
        }
    }

    /// Nothing is kept or said, and the leader advances where it is so.
    #[tactic(auto, using(crate::proofs::Smalls::small_none))]
    pub fn silent(alloc: Global, advances: bool) -> Plan
        ensures says { Says result [] advances [] [] }
        ensures small { IsSmall result.batch.items }
    {
        Plan::keep(alloc, Vec::new(alloc), List::new(alloc), advances)
    }

    /// One message is sent.
    pub fn send(alloc: Global, to: Peer, body: Body) -> Result<Plan, NoMemory>
        ensures says { IfOk result (λ plan. Says plan [] false (record { to = to; body = body } ∷ []) []) }
    {
        let mut plan = Plan::silent(alloc, false);
        plan.sends.push(Outgoing { to, body })?;
        Ok(plan)
    }

    /// One client is answered.
    #[tactic(auto, using(crate::proofs::Smalls::small_none))]
    pub fn answer(alloc: Global, tag: u64, outcome: Outcome) -> Result<Plan, NoMemory>
        ensures says { IfOk result (λ plan. Says plan [] false [] (record { tag = tag; outcome = outcome } ∷ [])) }
        ensures small { IfOk result (λ plan. IsSmall plan.batch.items) }
    {
        let mut plan = Plan::silent(alloc, false);
        plan.replies.push(Answered { tag, outcome })?;
        Ok(plan)
    }

    /// One entry is appended, and the leader advances.
    #[tactic(auto, using(crate::proofs::Smalls::small_one))]
    pub fn append(alloc: Global, entry: Entry) -> Result<Plan, NoMemory>
        ensures says { IfOk result (λ plan. Says plan (action_is.Append (entry ∷ []) ∷ []) true [] []) }
        ensures small { IsShort entry.body → IfOk result (λ plan. IsSmall plan.batch.items) }
    {
        let mut entries = List::new(alloc);
        entries.push(entry)?;
        let mut batch = Vec::new(alloc);
        batch.push(Action::Append { entries })?;
        let mut kept = List::new(alloc);
        kept.push(KeptAs::Append { entries: 1 })?;
        Ok(Plan::keep(alloc, batch, kept, true))
    }
}
