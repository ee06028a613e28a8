ghost use Rattle.std.specs.Prelude.{◌≡◌, List, ℕ, None, Ok, true};
ghost use Rattle.ox_ops.specs.declared.write.Put.{Put};
ghost use Rattle.ox_ops.specs.State.{ShardState, record_of};
ghost use Rattle.ox_ops.specs.Check.{put_fault, has_deltas};
ghost use Rattle.ox_ops.specs.Operation.{put_key};

/// The key that a put with deltas makes has no record yet.
pub fn sequence_keys_are_new()
    ensures { (s : ShardState) (p : Put) (key : List ℕ) → put_fault p ≡ None → has_deltas p.deltas ≡ true → put_key s p p.deltas ≡ Ok key → record_of key s.records ≡ None }
{}
