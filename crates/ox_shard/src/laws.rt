ghost use Rattle.std.specs.Prelude.{◌≤◌, ℕ};
ghost use Rattle.ox_ops.specs.State.{ShardState, empty_state};
ghost use Rattle.ox_shard.specs.Fits.{FitsCount};

/// Before the first entry a state fits no entries, and a state that fits a count fits each greater one.
pub fn states_fit_greater_counts()
    ensures empty { FitsCount 0 empty_state }
    ensures greater { (count more : ℕ) (s : ShardState) → count ≤ more → FitsCount count s → FitsCount more s }
{}
