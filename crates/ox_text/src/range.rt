// Ranges of keys.
ghost use Rattle.std.specs.Prelude.{◌≡◌, ◌++◌, ◌∷◌, [], OnOk};
ghost use Rattle.ox_text.specs.Words.{lo_word, hi_word, range_words, spaced};

use crate::escape::add_key;
use ox_order::{Hi, KeyRange, Lo};
use ox_types::{NoMemory, Octets};
use std::alloc::Global;

fn add_lo(alloc: Global, text: &mut Octets, lo: &Lo) -> Result<(), NoMemory>
    ensures { OnOk result (text.new ≡ text.old ++ spaced (lo_word lo.now ∷ [])) }
{
    match lo {
        Lo::Start => text.extend(b" *"),
        Lo::At(key) => {
            text.extend(b" ")?;
            add_key(alloc, text, key)
        }
        Lo::Past(key) => {
            text.extend(b" >")?;
            add_key(alloc, text, key)
        }
    }
}

fn add_hi(alloc: Global, text: &mut Octets, hi: &Hi) -> Result<(), NoMemory>
    ensures { OnOk result (text.new ≡ text.old ++ spaced (hi_word hi.now ∷ [])) }
{
    match hi {
        Hi::End => text.extend(b" *"),
        Hi::Before(key) => {
            text.extend(b" ")?;
            add_key(alloc, text, key)
        }
    }
}

/// Adds both ends of a range, each behind a space, at the cost of its keys. Where memory runs out, the text may have a
/// part of them behind what it had.
pub fn add_range(alloc: Global, text: &mut Octets, range: &KeyRange) -> Result<(), NoMemory>
    ensures { OnOk result (text.new ≡ text.old ++ spaced (range_words range.now)) }
{
    add_lo(alloc, text, &range.lo)?;
    add_hi(alloc, text, &range.hi)
}
