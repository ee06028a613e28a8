//! The first and the last of some pairs.
ghost use Rattle.std.specs.Prelude.{◌≡◌, None, slice_get};
ghost use Rattle.std.specs.List.{last_or};
ghost use Rattle.std.specs.Option.{option_map};
ghost use Rattle.std.specs.Map.Iter.{deref_pair};

use ox_types::Key;

pub fn first<V>(pairs: &[(Key, V)]) -> Option<(&Key, &V)>
    ensures { option_map deref_pair result ≡ slice_get pairs.now 0 }
{
    match pairs.first() {
        Some(pair) => Some((&pair.0, &pair.1)),
        None => None,
    }
}

pub fn last<V>(pairs: &[(Key, V)]) -> Option<(&Key, &V)>
    ensures { option_map deref_pair result ≡ last_or None pairs.now }
{
    match pairs.last() {
        Some(pair) => Some((&pair.0, &pair.1)),
        None => None,
    }
}
