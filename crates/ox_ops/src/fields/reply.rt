// The bytes of what a command answers.
use crate::fields::{VERSION_LIMIT, put_version, take_version};
use crate::reply::{Meta, OpReply, ShardReply};
use ox_bytes::{Field, FieldFault, Reader, Writer};
use ox_types::{NoMemory, TIME_LIMIT};

impl Field for Meta {
    ghost use Rattle.ox_ops.specs.Forms.{meta};
    ghost use Rattle.ox_ops.specs.Laws.{meta_exact};

    ghost form = { meta };

    ghost exact = { meta_exact };

    #[tactic(auto, using(ox_bytes::specs::WritingLaws::fronts), unfolding(crate::specs::Forms::meta))]
    fn put(&self, to: &mut Writer) -> Result<(), NoMemory> {
        to.put_u64(self.version)?;
        to.put_u64(self.modifications)?;
        to.put_u64(self.created)?;
        to.put_u64(self.modified)
    }

    #[tactic(auto, unfolding(crate::specs::Forms::meta))]
    fn read(from: &mut Reader<'_>) -> Result<Meta, FieldFault> {
        let version = from.take_u64_to(VERSION_LIMIT)?;
        let modifications = from.take_u64()?;
        let created = from.take_u64_to(TIME_LIMIT)?;
        let modified = from.take_u64_to(TIME_LIMIT)?;
        Ok(Meta {
            version,
            modifications,
            created,
            modified,
        })
    }
}

impl Field for OpReply {
    ghost use Rattle.ox_ops.specs.Forms.{op_reply};
    ghost use Rattle.ox_ops.specs.Laws.{op_reply_exact};

    ghost form = { op_reply };

    ghost exact = { op_reply_exact };

    #[tactic(auto, using(ox_bytes::specs::WritingLaws::fronts), unfolding(crate::specs::Forms::op_reply))]
    fn put(&self, to: &mut Writer) -> Result<(), NoMemory> {
        match self {
            OpReply::Put { key, meta } => {
                to.put_u8(0)?;
                to.put_key(key)?;
                meta.put(to)
            }
            OpReply::Deleted => to.put_u8(1),
            OpReply::Ranged { removed } => {
                to.put_u8(2)?;
                to.put_u64(*removed)?;
                Ok(())
            }
            OpReply::KeyNotFound => to.put_u8(3),
            OpReply::UnexpectedVersion { found } => {
                to.put_u8(4)?;
                put_version(found, to)?;
                Ok(())
            }
            OpReply::SessionDoesNotExist { session } => {
                to.put_u8(5)?;
                to.put_u64(*session)?;
                Ok(())
            }
            OpReply::ShardFull { weight, limit } => {
                to.put_u8(6)?;
                to.put_u64(*weight)?;
                to.put_u64(*limit)?;
                Ok(())
            }
            OpReply::SequenceSpent { group } => {
                to.put_u8(7)?;
                to.put_u32(*group)?;
                Ok(())
            }
            OpReply::Opened { session } => {
                to.put_u8(8)?;
                to.put_u64(*session)?;
                Ok(())
            }
            OpReply::Closed { removed } => {
                to.put_u8(9)?;
                to.put_u64(*removed)?;
                Ok(())
            }
        }
    }

    #[tactic(auto, unfolding(crate::specs::Forms::op_reply, ox_bytes::specs::Fields::choice_at))]
    fn read(from: &mut Reader<'_>) -> Result<OpReply, FieldFault> {
        match from.take_tag(10)? {
            0 => {
                let key = from.take_key()?;
                let meta = Field::take(from)?;
                Ok(OpReply::Put { key, meta })
            }
            1 => Ok(OpReply::Deleted),
            2 => {
                let removed = from.take_u64()?;
                Ok(OpReply::Ranged { removed })
            }
            3 => Ok(OpReply::KeyNotFound),
            4 => {
                let found = take_version(from)?;
                Ok(OpReply::UnexpectedVersion { found })
            }
            5 => {
                let session = from.take_u64()?;
                Ok(OpReply::SessionDoesNotExist { session })
            }
            6 => {
                let weight = from.take_u64()?;
                let limit = from.take_u64()?;
                Ok(OpReply::ShardFull { weight, limit })
            }
            7 => {
                let group = from.take_u32()?;
                Ok(OpReply::SequenceSpent { group })
            }
            8 => {
                let session = from.take_u64()?;
                Ok(OpReply::Opened { session })
            }
            _ => {
                let removed = from.take_u64()?;
                Ok(OpReply::Closed { removed })
            }
        }
    }
}

impl Field for ShardReply {
    ghost use Rattle.ox_ops.specs.Forms.{shard_reply};
    ghost use Rattle.ox_ops.specs.Laws.{shard_reply_exact};

    ghost form = { shard_reply };

    ghost exact = { shard_reply_exact };

    #[tactic(auto, using(ox_bytes::specs::WritingLaws::fronts), unfolding(crate::specs::Forms::shard_reply))]
    fn put(&self, to: &mut Writer) -> Result<(), NoMemory> {
        self.ops.put(to)
    }

    #[tactic(auto, unfolding(crate::specs::Forms::shard_reply))]
    fn read(from: &mut Reader<'_>) -> Result<ShardReply, FieldFault> {
        let ops = Field::take(from)?;
        Ok(ShardReply { ops })
    }
}
