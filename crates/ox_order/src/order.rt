ghost use Rattle.std.specs.Prelude.{◌≡◌};
ghost use Rattle.ox_types.specs.Order.{key_cmp};

use ox_types::Key;
use std::cmp::Ordering;

/// The order of keys, which is also that of `Ord` (docs/STORE.md). It costs the bytes up to the first parts that differ.
pub fn compare(a: &Key, b: &Key) -> Ordering
    ensures { result ≡ key_cmp a.now b.now }
{
    a.cmp(b)
}
