ghost use Rattle.std.specs.Prelude.{◌≡◌, ◌++◌, ◌∷◌, ℕ, [], List, true, false};
ghost use Rattle.ox_ops.specs.State.{Session};
ghost use Rattle.ox_session.specs.Keys.{with_key, without_key, KeysRise, has_key};
ghost use Rattle.ox_session.specs.Members.{with_session, AllBelow};

/// A key that is there joins, and one that isn't there leaves, with no change.
pub fn repeated_edits_change_nothing()
    ensures join { (key : List ℕ) (keys : List (List ℕ)) → KeysRise keys → has_key key keys ≡ true → with_key key keys ≡ keys }
    ensures leave { (key : List ℕ) (keys : List (List ℕ)) → has_key key keys ≡ false → without_key key keys ≡ keys }
{}

/// A session with a greater id than all others comes last.
pub fn later_sessions_come_last()
    ensures { (s : Session) (sessions : List Session) → AllBelow s.id sessions → with_session s sessions ≡ sessions ++ s ∷ [] }
{}
