// What holds of every tale, and of every story.
ghost use Rattle.std.specs.Prelude.{ℕ, List};
ghost use Rattle.ox_agreement.specs.Tale.{Moment};
ghost use Rattle.ox_agreement.specs.Steps.{IsTale};
ghost use Rattle.ox_agreement.specs.Agreement.{HasOneLeader, LeadersOnlyGrow, BasesOnlyRise, LogsMatch, EntriesStandAtOffsets};
ghost use Rattle.ox_agreement.specs.Story.{Story, IsStory, LeadersAreComplete, CandidatesAreComplete, HasOneHistory, IsRecoverable};

/// One node leads a term; in the term its log only grows, and its base only rises. No quorum is needed for it.
pub fn law_one_leader()
    ensures one_leader { (leader : ℕ → ℕ) (tale : List Moment) → IsTale leader tale → HasOneLeader tale }
    ensures grows { (leader : ℕ → ℕ) (tale : List Moment) → IsTale leader tale → LeadersOnlyGrow tale }
    ensures base_rises { (leader : ℕ → ℕ) (tale : List Moment) → IsTale leader tale → BasesOnlyRise tale }
{}

/// Logs that give one offset the same term are the same up to it, whoever was chosen to lead; and each entry stands at its
/// offset.
pub fn law_matching_logs()
    ensures matching { (leader : ℕ → ℕ) (tale : List Moment) → IsTale leader tale → LogsMatch tale }
    ensures numbered { (leader : ℕ → ℕ) (tale : List Moment) → IsTale leader tale → EntriesStandAtOffsets tale }
{}

/// What a leader began from has all that leaders of lower terms commit, and so has every list that may be chosen; what is
/// committed is one history; and of nodes that meet the newest config one with the highest head has all of it.
pub fn law_leader_completeness()
    ensures complete { (s : Story) → IsStory s → LeadersAreComplete s }
    ensures candidates { (s : Story) → IsStory s → CandidatesAreComplete s }
    ensures one_history { (s : Story) → IsStory s → HasOneHistory s }
    ensures recoverable { (s : Story) → IsStory s → IsRecoverable s }
{}
