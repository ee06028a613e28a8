// The bytes of what a client may ask.
use crate::fields::{put_by, take_by};
use crate::query::{Compare, ShardQuery};
use ox_bytes::{Field, FieldFault, Reader, Writer};
use ox_types::NoMemory;

impl Field for Compare {
    ghost use Rattle.ox_ops.specs.Forms.{compare};
    ghost use Rattle.ox_ops.specs.Laws.{compare_exact};

    ghost form = { compare };

    ghost exact = { compare_exact };

    #[tactic(auto, using(ox_bytes::specs::WritingLaws::fronts), unfolding(crate::specs::Forms::compare))]
    fn put(&self, to: &mut Writer) -> Result<(), NoMemory> {
        match self {
            Compare::Equal => to.put_u8(0),
            Compare::Floor => to.put_u8(1),
            Compare::Ceiling => to.put_u8(2),
            Compare::Lower => to.put_u8(3),
            Compare::Higher => to.put_u8(4),
        }
    }

    #[tactic(auto, unfolding(crate::specs::Forms::compare, ox_bytes::specs::Fields::choice_at))]
    fn read(from: &mut Reader<'_>) -> Result<Compare, FieldFault> {
        match from.take_tag(5)? {
            0 => Ok(Compare::Equal),
            1 => Ok(Compare::Floor),
            2 => Ok(Compare::Ceiling),
            3 => Ok(Compare::Lower),
            _ => Ok(Compare::Higher),
        }
    }
}

impl Field for ShardQuery {
    ghost use Rattle.ox_ops.specs.Forms.{query};
    ghost use Rattle.ox_ops.specs.Laws.{query_exact};

    ghost form = { query };

    ghost exact = { query_exact };

    #[tactic(auto, using(ox_bytes::specs::WritingLaws::fronts), unfolding(crate::specs::Forms::query))]
    fn put(&self, to: &mut Writer) -> Result<(), NoMemory> {
        match self {
            ShardQuery::Get { compare, key, by } => {
                to.put_u8(0)?;
                compare.put(to)?;
                to.put_key(key)?;
                put_by(by, to)
            }
            ShardQuery::List { range, by } => {
                to.put_u8(1)?;
                range.put(to)?;
                put_by(by, to)
            }
            ShardQuery::Scan { range, by } => {
                to.put_u8(2)?;
                range.put(to)?;
                put_by(by, to)?;
                Ok(())
            }
            ShardQuery::Notices { after, skip } => {
                to.put_u8(3)?;
                to.put_u64(*after)?;
                to.put_u64(*skip)?;
                Ok(())
            }
            ShardQuery::KeepAlive { session } => {
                to.put_u8(4)?;
                to.put_u64(*session)?;
                Ok(())
            }
        }
    }

    #[tactic(auto, unfolding(crate::specs::Forms::query, ox_bytes::specs::Fields::choice_at))]
    fn read(from: &mut Reader<'_>) -> Result<ShardQuery, FieldFault> {
        match from.take_tag(5)? {
            0 => {
                let compare = Field::take(from)?;
                let key = from.take_key()?;
                let by = take_by(from)?;
                Ok(ShardQuery::Get { compare, key, by })
            }
            1 => {
                let range = Field::take(from)?;
                let by = take_by(from)?;
                Ok(ShardQuery::List { range, by })
            }
            2 => {
                let range = Field::take(from)?;
                let by = take_by(from)?;
                Ok(ShardQuery::Scan { range, by })
            }
            3 => {
                let after = from.take_u64()?;
                let skip = from.take_u64()?;
                Ok(ShardQuery::Notices { after, skip })
            }
            _ => {
                let session = from.take_u64()?;
                Ok(ShardQuery::KeepAlive { session })
            }
        }
    }
}
