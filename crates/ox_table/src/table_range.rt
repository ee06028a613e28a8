ghost use Rattle.std.specs.Prelude.{◌≡◌, ℕ, List};
ghost use Rattle.std.specs.Coded.{coded_list, coded×, coded_ℕ};
ghost use Rattle.std.specs.Iterator.{YieldsFirstBy, item_count};
ghost use Rattle.std.specs.Map.Iter.{deref_pair};

use ox_types::Key;
use std::marker::Model;

/// The pairs of a range of a table, in the order of keys. Contracts see it as the list of the pairs that are left.
#[derive(Debug, Drop)]
pub struct TableRange<'a, V> {
    pairs: &'a [(Key, V)],
}

impl<'a, V> Model for TableRange<'a, V> {
    ghost Value = { List (List ℕ × V) };

    ghost coded = { coded_list (coded× (coded_list coded_ℕ) V.code) };

    ghost view = { λ range. range.pairs.now };
}

impl<'a, V> TableRange<'a, V> {
    pub(crate) fn of(pairs: &'a [(Key, V)]) -> TableRange<'a, V>
        ensures { result ≡ pairs.now }
    {
        TableRange { pairs }
    }
}

impl<'a, V> Iterator for TableRange<'a, V> {
    type Item = (&'a Key, &'a V);

    ghost next_gives = { YieldsFirstBy deref_pair (λ range. range) };

    ghost remaining = { item_count (λ range. range) };

    fn next(&mut self) -> Option<(&'a Key, &'a V)> {
        let (first, others) = self.pairs.split_first()?;
        self.pairs = others;
        Some((&first.0, &first.1))
    }
}
