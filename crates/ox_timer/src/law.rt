// What holds of timers that go on or start anew, and of the one that is due.
ghost use Rattle.std.specs.Prelude.{◌≡◌, ◌≢◌, ◌≤◌, ◌+◌, ◌⊎◌, ℕ, List, Contains, All, Some, None, true, false, map};
ghost use Rattle.ox_types.specs.declared.timer.Timer.{Timer};
ghost use Rattle.ox_types.specs.Timers.{IdsRise};
ghost use Rattle.ox_timer.specs.declared.running.Running.{Running};
ghost use Rattle.ox_timer.specs.Order.{RunningRise};
ghost use Rattle.ox_timer.specs.Timers.{retimed, heard, noted, is_due, due};

/// The timers that go on are those of the machine, and each of them starts now or goes on as it ran.
pub fn law_retimed_are_the_machines()
    ensures ids { (now : ℕ) (timers : List Timer) (running : List Running) → map (λ r. r.id) (retimed now timers running) ≡ map (λ t. t.id) timers }
    ensures since { (now : ℕ) (timers : List Timer) (running : List Running) (r : Running) → Contains (retimed now timers running) r → ((r.since ≡ now) × (r.expired ≡ false)) ⊎ ((o : Running) × Contains running o × (o.id ≡ r.id) × (o.since ≡ r.since) × (o.expired ≡ r.expired)) }
{}

/// A timer that was heard starts now, and the other ones go on.
pub fn law_heard_starts_anew()
    ensures { (id now : ℕ) (running : List Running) (r : Running) → Contains (heard id now running) r → ((r.id ≢ id) × Contains running r) ⊎ ((r.id ≡ id) × (r.since ≡ now) × ((o : Running) × Contains running o × (o.id ≡ id) × (o.timeout ≡ r.timeout) × (o.expired ≡ r.expired))) }
{}

/// Timers stand by rising id.
pub fn law_timers_rise()
    ensures retimed { (now : ℕ) (timers : List Timer) (running : List Running) → IdsRise timers → RunningRise (retimed now timers running) }
    ensures heard { (id now : ℕ) (running : List Running) → RunningRise running → RunningRise (heard id now running) }
    ensures noted { (id : ℕ) (running : List Running) → RunningRise running → RunningRise (noted id running) }
{}

/// The timer that is due runs, ran out, and its expiry isn't noted; no timer with a lesser id is due.
pub fn law_due_is_the_least()
    ensures found { (now id : ℕ) (running : List Running) → due now running ≡ Some id → (r : Running) × Contains running r × (r.id ≡ id) × (r.expired ≡ false) × (r.since + r.timeout ≤ now) }
    ensures least { (now id : ℕ) (running : List Running) → RunningRise running → due now running ≡ Some id → All (λ r. is_due now r ≡ true → id ≤ r.id) running }
    ensures none { (now : ℕ) (running : List Running) → due now running ≡ None → All (λ r. is_due now r ≡ false) running }
{}
