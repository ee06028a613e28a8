// What holds of two files of a replica.
ghost use Rattle.std.specs.Prelude.{List, ℕ};
ghost use Rattle.ox_types.specs.Durable.{DurableState};
ghost use Rattle.ox_wal.specs.Files.{HoldsState};

/// Two files stand for the same state in either order: which of them is the journal, they say themselves.
pub fn law_either_order()
    ensures { (c d : List ℕ) (state : DurableState) → HoldsState c d state → HoldsState d c state }
{}
