ghost use Rattle.std.specs.Prelude.{◌≡◌, ◌-◌, ◌++◌, ◌∷◌, [], ℕ, List, true, false, min};
ghost use Rattle.ox_ops.specs.Page.{page_bytes};
ghost use Rattle.ox_ops.specs.Filling.{Filling, Holds, has_room};

/// A page that is filled item by item, each where there is room by its size, is the page of what was offered. Sizes may
/// stand at 2^64 - 1 where they are greater.
pub fn pages_hold_what_was_offered<T>()
    ensures empty { (size : T → ℕ) → Holds size (record { items = []; room = page_bytes; more = false }) [] }
    // The item is pushed where there is room for it.
    ensures room { (size : T → ℕ) (page : Filling T) (offered : List T) → Holds size page offered → (x : T) (s : ℕ) → s ≡ min (size x) 18446744073709551615 → has_room page s ≡ true → Holds size (record { items = page.items ++ x ∷ []; room = page.room - s; more = page.more }) (offered ++ x ∷ []) }
    // The item is left out where there is none, with all behind it.
    ensures full { (size : T → ℕ) (page : Filling T) (offered : List T) → Holds size page offered → (x : T) (s : ℕ) → s ≡ min (size x) 18446744073709551615 → has_room page s ≡ false → (behind : List T) → Holds size (record { items = page.items; room = page.room; more = true }) (offered ++ x ∷ behind) }
    ensures more { (size : T → ℕ) (page : Filling T) (offered : List T) → Holds size page offered → (behind : List T) → page.more ≡ true → Holds size page (offered ++ behind) }
{}
