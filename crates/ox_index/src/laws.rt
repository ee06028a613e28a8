ghost use Rattle.std.specs.Prelude.{◌≡◌, ◌||◌, ◌&&◌, ℕ, List, not};
ghost use Rattle.std.specs.Ordering.{is_eq};
ghost use Rattle.ox_ops.specs.Answer.{sorted};
ghost use Rattle.ox_index.specs.declared.added.Added.{Added};
ghost use Rattle.ox_index.specs.Order.{added_cmp, IsInOrder};
ghost use Rattle.ox_index.specs.Pairs.{pairs_under, with_added, without_added, has_added, IsDistinct, in_order_of};

/// What an edit adds and takes out, and that it keeps the order.
pub fn edits_change_one_entry()
    ensures added { (a q : Added) (xs : List Added) → has_added q (with_added a xs) ≡ (is_eq (added_cmp a q) || has_added q xs) }
    ensures dropped { (a q : Added) (xs : List Added) → has_added q (without_added a xs) ≡ (not (is_eq (added_cmp a q)) && has_added q xs) }
    ensures added_in_order { (a : Added) (xs : List Added) → IsInOrder xs → IsInOrder (with_added a xs) }
    ensures dropped_in_order { (a : Added) (xs : List Added) → IsInOrder xs → IsInOrder (without_added a xs) }
{}

/// Lists in order with the same entries are the same.
pub fn indexes_are_told_by_their_entries()
    ensures { (xs ys : List Added) → IsInOrder xs → IsInOrder ys → ((q : Added) → has_added q xs ≡ has_added q ys) → xs ≡ ys }
{}

/// Entries that are added in any order give the sorted pairs of each index.
pub fn pairs_are_sorted()
    ensures pairs { (name : List ℕ) (added : List Added) → IsDistinct added → pairs_under name (in_order_of added) ≡ sorted (pairs_under name added) }
    ensures entries { (q : Added) (added : List Added) → IsDistinct added → has_added q (in_order_of added) ≡ has_added q added }
    ensures in_order { (added : List Added) → IsInOrder (in_order_of added) }
{}
