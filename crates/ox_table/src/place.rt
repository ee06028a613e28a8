//! Binary searches in pairs that stand in rising order of keys.
ghost use Rattle.std.specs.Prelude.{MatchResult, not};
ghost use Rattle.std.specs.Ordering.{is_lt, is_le};
ghost use Rattle.ox_types.specs.Order.{key_cmp};
ghost use Rattle.ox_types.specs.Lists.{IsCut};
ghost use Rattle.ox_order.specs.Range.{is_from, is_up_to};
ghost use Rattle.ox_table.specs.Table.{IsRising};
ghost use Rattle.ox_table.specs.Place.{IsPlaceOf, IsGapFor, IsRunOf};

use ox_order::{Hi, KeyRange, Lo};
use ox_types::Key;

/// Where the key stands, or would go.
pub fn place_of<V>(pairs: &[(Key, V)], key: &Key) -> Result<usize, usize>
    requires { IsRising pairs.now }
    ensures { MatchResult result (IsPlaceOf pairs.now key.now) (IsGapFor pairs.now key.now) }
{
    pairs.binary_search_by(|pair| pair.0.cmp(key))
}

/// How many pairs stand before the key.
pub fn count_before<V>(pairs: &[(Key, V)], key: &Key) -> usize
    requires { IsRising pairs.now }
    ensures { IsCut (λ p. is_lt (key_cmp p.0 key.now)) pairs.now result }
{
    match place_of(pairs, key) {
        Ok(place) => place,
        Err(place) => place,
    }
}

/// How many pairs stand before the key or have it.
pub fn count_up_to<V>(pairs: &[(Key, V)], key: &Key) -> usize
    requires { IsRising pairs.now }
    ensures { IsCut (λ p. is_le (key_cmp p.0 key.now)) pairs.now result }
{
    match place_of(pairs, key) {
        Ok(place) => place + 1,
        Err(place) => place,
    }
}

/// How many pairs stand before the low end.
fn start_of<V>(pairs: &[(Key, V)], lo: &Lo) -> usize
    requires { IsRising pairs.now }
    ensures { IsCut (λ p. not (is_from lo.now p.0)) pairs.now result }
{
    match lo {
        Lo::Start => 0,
        Lo::At(low) => count_before(pairs, low),
        Lo::Past(low) => count_up_to(pairs, low),
    }
}

/// How many pairs stand before the high end.
fn end_of<V>(pairs: &[(Key, V)], hi: &Hi) -> usize
    requires { IsRising pairs.now }
    ensures { IsCut (λ p. is_up_to hi.now p.0) pairs.now result }
{
    match hi {
        Hi::End => pairs.len(),
        Hi::Before(high) => count_before(pairs, high),
    }
}

/// From where up to where the pairs of the range stand.
pub fn run_of<V>(pairs: &[(Key, V)], range: &KeyRange) -> (usize, usize)
    requires { IsRising pairs.now }
    ensures { IsRunOf pairs.now range.now result.0 result.1 }
{
    let start = start_of(pairs, &range.lo);
    let end = end_of(pairs, &range.hi);
    if start < end {
        (start, end)
    } else {
        (start, start)
    }
}
