// The bytes of what a read answers.
use crate::answer::{Record, ShardAnswer};
use ox_bytes::{Field, FieldFault, Reader, Writer};
use ox_types::{NoMemory, OFFSET_LIMIT};

impl Field for Record {
    ghost use Rattle.ox_ops.specs.Forms.{record_form};
    ghost use Rattle.ox_ops.specs.Laws.{record_form_exact};

    ghost form = { record_form };

    ghost exact = { record_form_exact };

    #[tactic(auto, using(ox_bytes::specs::WritingLaws::fronts), unfolding(crate::specs::Forms::record_form))]
    fn put(&self, to: &mut Writer) -> Result<(), NoMemory> {
        to.put_key(&self.key)?;
        to.put_value(&self.value)?;
        self.meta.put(to)?;
        self.session.put(to)?;
        self.indexes.put(to)
    }

    #[tactic(auto, unfolding(crate::specs::Forms::record_form))]
    fn read(from: &mut Reader<'_>) -> Result<Record, FieldFault> {
        let key = from.take_key()?;
        let value = from.take_value()?;
        let meta = Field::take(from)?;
        let session = Field::take(from)?;
        let indexes = Field::take(from)?;
        Ok(Record {
            key,
            value,
            meta,
            session,
            indexes,
        })
    }
}

impl Field for ShardAnswer {
    ghost use Rattle.ox_ops.specs.Forms.{answer};
    ghost use Rattle.ox_ops.specs.Laws.{answer_exact};

    ghost form = { answer };

    ghost exact = { answer_exact };

    #[tactic(auto, using(ox_bytes::specs::WritingLaws::fronts), unfolding(crate::specs::Forms::answer))]
    fn put(&self, to: &mut Writer) -> Result<(), NoMemory> {
        match self {
            ShardAnswer::Got(found) => {
                to.put_u8(0)?;
                found.put(to)
            }
            ShardAnswer::Keys { keys, more } => {
                to.put_u8(1)?;
                keys.put(to)?;
                to.put_bool(*more)
            }
            ShardAnswer::Records { records, more } => {
                to.put_u8(2)?;
                records.put(to)?;
                to.put_bool(*more)?;
                Ok(())
            }
            ShardAnswer::Notices { items, more } => {
                to.put_u8(3)?;
                items.put(to)?;
                to.put_bool(*more)?;
                Ok(())
            }
            ShardAnswer::NotRetained { asked, low } => {
                to.put_u8(4)?;
                to.put_u64(*asked)?;
                to.put_u64(*low)?;
                Ok(())
            }
            ShardAnswer::Alive => to.put_u8(5),
            ShardAnswer::SessionDoesNotExist { session } => {
                to.put_u8(6)?;
                to.put_u64(*session)?;
                Ok(())
            }
        }
    }

    #[tactic(auto, unfolding(crate::specs::Forms::answer, ox_bytes::specs::Fields::choice_at))]
    fn read(from: &mut Reader<'_>) -> Result<ShardAnswer, FieldFault> {
        match from.take_tag(7)? {
            0 => Ok(ShardAnswer::Got(Field::take(from)?)),
            1 => {
                let keys = Field::take(from)?;
                let more = from.take_bool()?;
                Ok(ShardAnswer::Keys { keys, more })
            }
            2 => {
                let records = Field::take(from)?;
                let more = from.take_bool()?;
                Ok(ShardAnswer::Records { records, more })
            }
            3 => {
                let items = Field::take(from)?;
                let more = from.take_bool()?;
                Ok(ShardAnswer::Notices { items, more })
            }
            4 => {
                let asked = from.take_u64()?;
                let low = from.take_u64_to(OFFSET_LIMIT)?;
                Ok(ShardAnswer::NotRetained { asked, low })
            }
            5 => Ok(ShardAnswer::Alive),
            _ => {
                let session = from.take_u64()?;
                Ok(ShardAnswer::SessionDoesNotExist { session })
            }
        }
    }
}
