ghost use Rattle.std.specs.Prelude.{◌≡◌, ℕ, List, true, false};
ghost use Rattle.ox_types.specs.Order.{IsBefore};
ghost use Rattle.ox_order.specs.Range.{is_from, is_up_to, in_range};
ghost use Rattle.ox_order.specs.declared.range.Lo.{Lo};
ghost use Rattle.ox_order.specs.declared.range.Lo.TheVariants.{At, Past};
ghost use Rattle.ox_order.specs.declared.range.Hi.{Hi};
ghost use Rattle.ox_order.specs.declared.range.Hi.TheVariants.{Before};
ghost use Rattle.ox_order.specs.declared.range.KeyRange.{KeyRange};

/// A range holds what stands between two of its keys, and each end parts the keys in two.
pub fn ranges_have_no_gaps()
    ensures low_end { (lo : Lo) (a b : List ℕ) → IsBefore a b → is_from lo a ≡ true → is_from lo b ≡ true }
    ensures high_end { (hi : Hi) (a b : List ℕ) → IsBefore a b → is_up_to hi b ≡ true → is_up_to hi a ≡ true }
    ensures between { (range : KeyRange) (a b c : List ℕ) → IsBefore a b → IsBefore b c → in_range range a ≡ true → in_range range c ≡ true → in_range range b ≡ true }
{}

/// Where the low end isn't below the high one, a range holds no key.
pub fn ranges_with_no_room_are_empty()
    ensures at { (low high key : List ℕ) → ¬ IsBefore low high → in_range (record { lo = At low; hi = Before high }) key ≡ false }
    ensures past { (low high key : List ℕ) → ¬ IsBefore low high → in_range (record { lo = Past low; hi = Before high }) key ≡ false }
{}
