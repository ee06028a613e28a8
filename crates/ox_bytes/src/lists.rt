ghost use Rattle.std.specs.Prelude.{◌≡◌};

use crate::fault::{FieldFault, WireRule};
use crate::field::Field;
use crate::reader::Reader;
use crate::writer::Writer;
use ox_types::{List, NoMemory};

/// The byte 0, or 1 and the value.
impl<T: Field> Field for Option<T> {
    ghost use Rattle.ox_bytes.specs.Fields.{option};
    ghost use Rattle.ox_bytes.specs.FieldLaws.{option_exact};

    ghost form = { option T.form };

    ghost exact = { option_exact T.form T.exact };

    #[tactic(auto, using(crate::specs::WritingLaws::fronts))]
    fn put(&self, to: &mut Writer) -> Result<(), NoMemory> {
        match self {
            None => to.put_u8(0),
            Some(value) => {
                to.put_u8(1)?;
                value.put(to)
            }
        }
    }

    #[tactic(auto, unfolding(crate::specs::Fields::option_at))]
    fn read(from: &mut Reader<'_>) -> Result<Option<T>, FieldFault> {
        if from.take_tag(2)? == 0 {
            Ok(None)
        } else {
            Ok(Some(T::take(from)?))
        }
    }
}

/// The number of the items, in four bytes, and the items. Memory is taken for the items that came, and never for a
/// number that was read.
impl<T: Field + Drop> Field for List<T> {
    ghost use Rattle.ox_bytes.specs.Fields.{list};
    ghost use Rattle.ox_bytes.specs.FieldLaws.{list_exact};

    ghost form = { list T.form };

    ghost exact = { list_exact T.form T.exact };

    #[tactic(auto, using(crate::specs::WritingLaws::fronts))]
    fn put(&self, to: &mut Writer) -> Result<(), NoMemory> {
        to.put_u32(self.len() as u32)?;
        for item in self.as_slice() {
            item.put(to)?;
        }
        Ok(())
    }

    #[tactic(auto, unfolding(crate::specs::Fields::list_at))]
    fn read(from: &mut Reader<'_>) -> Result<List<T>, FieldFault> {
        let count = from.take_u32()?;
        let mut items = List::new(from.alloc());
        for _ in 0..count {
            let item = T::take(from)?;
            items.push(item)?;
        }
        Ok(items)
    }
}
