// The bytes of ranges (docs/FORMATS.md).
use crate::range::{Hi, KeyRange, Lo};
use ox_bytes::{Field, FieldFault, Reader, Writer};
use ox_types::NoMemory;

impl Field for Lo {
    ghost use Rattle.ox_order.specs.Forms.{lo};
    ghost use Rattle.ox_order.specs.FormLaws.{lo_exact};

    ghost form = { lo };

    ghost exact = { lo_exact };

    #[tactic(auto, using(ox_bytes::specs::WritingLaws::fronts), unfolding(crate::specs::Forms::lo))]
    fn put(&self, to: &mut Writer) -> Result<(), NoMemory> {
        match self {
            Lo::Start => to.put_u8(0),
            Lo::At(key) => {
                to.put_u8(1)?;
                to.put_key(key)
            }
            Lo::Past(key) => {
                to.put_u8(2)?;
                to.put_key(key)?;
                Ok(())
            }
        }
    }

    #[tactic(auto, unfolding(crate::specs::Forms::lo, ox_bytes::specs::Fields::choice_at))]
    fn read(from: &mut Reader<'_>) -> Result<Lo, FieldFault> {
        match from.take_tag(3)? {
            0 => Ok(Lo::Start),
            1 => Ok(Lo::At(from.take_key()?)),
            _ => Ok(Lo::Past(from.take_key()?)),
        }
    }
}

impl Field for Hi {
    ghost use Rattle.ox_order.specs.Forms.{hi};
    ghost use Rattle.ox_order.specs.FormLaws.{hi_exact};

    ghost form = { hi };

    ghost exact = { hi_exact };

    #[tactic(auto, using(ox_bytes::specs::WritingLaws::fronts), unfolding(crate::specs::Forms::hi))]
    fn put(&self, to: &mut Writer) -> Result<(), NoMemory> {
        match self {
            Hi::End => to.put_u8(0),
            Hi::Before(key) => {
                to.put_u8(1)?;
                to.put_key(key)
            }
        }
    }

    #[tactic(auto, unfolding(crate::specs::Forms::hi, ox_bytes::specs::Fields::choice_at))]
    fn read(from: &mut Reader<'_>) -> Result<Hi, FieldFault> {
        match from.take_tag(2)? {
            0 => Ok(Hi::End),
            _ => Ok(Hi::Before(from.take_key()?)),
        }
    }
}

impl Field for KeyRange {
    ghost use Rattle.ox_order.specs.Forms.{key_range};
    ghost use Rattle.ox_order.specs.FormLaws.{key_range_exact};

    ghost form = { key_range };

    ghost exact = { key_range_exact };

    #[tactic(auto, using(ox_bytes::specs::WritingLaws::fronts), unfolding(crate::specs::Forms::key_range))]
    fn put(&self, to: &mut Writer) -> Result<(), NoMemory> {
        self.lo.put(to)?;
        self.hi.put(to)
    }

    #[tactic(auto, unfolding(crate::specs::Forms::key_range))]
    fn read(from: &mut Reader<'_>) -> Result<KeyRange, FieldFault> {
        let lo = Field::take(from)?;
        let hi = Field::take(from)?;
        Ok(KeyRange { lo, hi })
    }
}
