// The bytes of what a client may change.
use crate::fields::take_name;
use crate::write::{Delete, Expect, IndexEntry, Put, ShardCommand, WriteBatch};
use ox_bytes::{Field, FieldFault, Reader, Writer};
use ox_types::NoMemory;

impl Field for Expect {
    ghost use Rattle.ox_ops.specs.Forms.{expect};
    ghost use Rattle.ox_ops.specs.Laws.{expect_exact};

    ghost form = { expect };

    ghost exact = { expect_exact };

    #[tactic(auto, using(ox_bytes::specs::WritingLaws::fronts), unfolding(crate::specs::Forms::expect))]
    fn put(&self, to: &mut Writer) -> Result<(), NoMemory> {
        match self {
            Expect::Any => to.put_u8(0),
            Expect::Absent => to.put_u8(1),
            Expect::Exactly(version) => {
                to.put_u8(2)?;
                to.put_u64(*version)?;
                Ok(())
            }
        }
    }

    #[tactic(auto, unfolding(crate::specs::Forms::expect, ox_bytes::specs::Fields::choice_at))]
    fn read(from: &mut Reader<'_>) -> Result<Expect, FieldFault> {
        match from.take_tag(3)? {
            0 => Ok(Expect::Any),
            1 => Ok(Expect::Absent),
            _ => Ok(Expect::Exactly(from.take_u64()?)),
        }
    }
}

impl Field for IndexEntry {
    ghost use Rattle.ox_ops.specs.Forms.{index_entry};
    ghost use Rattle.ox_ops.specs.Laws.{index_entry_exact};

    ghost form = { index_entry };

    ghost exact = { index_entry_exact };

    #[tactic(auto, using(ox_bytes::specs::WritingLaws::fronts), unfolding(crate::specs::Forms::index_entry))]
    fn put(&self, to: &mut Writer) -> Result<(), NoMemory> {
        to.put_octets(&self.name)?;
        to.put_key(&self.key)
    }

    #[tactic(auto, unfolding(crate::specs::Forms::index_entry))]
    fn read(from: &mut Reader<'_>) -> Result<IndexEntry, FieldFault> {
        let name = take_name(from)?;
        let key = from.take_key()?;
        Ok(IndexEntry { name, key })
    }
}

impl Field for Put {
    ghost use Rattle.ox_ops.specs.Forms.{put};
    ghost use Rattle.ox_ops.specs.Laws.{put_exact};

    ghost form = { put };

    ghost exact = { put_exact };

    #[tactic(auto, using(ox_bytes::specs::WritingLaws::fronts), unfolding(crate::specs::Forms::put))]
    fn put(&self, to: &mut Writer) -> Result<(), NoMemory> {
        to.put_key(&self.key)?;
        to.put_value(&self.value)?;
        self.expect.put(to)?;
        self.session.put(to)?;
        self.deltas.put(to)?;
        self.indexes.put(to)
    }

    #[tactic(auto, unfolding(crate::specs::Forms::put))]
    fn read(from: &mut Reader<'_>) -> Result<Put, FieldFault> {
        let key = from.take_key()?;
        let value = from.take_value()?;
        let expect = Field::take(from)?;
        let session = Field::take(from)?;
        let deltas = Field::take(from)?;
        let indexes = Field::take(from)?;
        Ok(Put {
            key,
            value,
            expect,
            session,
            deltas,
            indexes,
        })
    }
}

impl Field for Delete {
    ghost use Rattle.ox_ops.specs.Forms.{delete};
    ghost use Rattle.ox_ops.specs.Laws.{delete_exact};

    ghost form = { delete };

    ghost exact = { delete_exact };

    #[tactic(auto, using(ox_bytes::specs::WritingLaws::fronts), unfolding(crate::specs::Forms::delete))]
    fn put(&self, to: &mut Writer) -> Result<(), NoMemory> {
        to.put_key(&self.key)?;
        self.expect.put(to)
    }

    #[tactic(auto, unfolding(crate::specs::Forms::delete))]
    fn read(from: &mut Reader<'_>) -> Result<Delete, FieldFault> {
        let key = from.take_key()?;
        let expect = Field::take(from)?;
        Ok(Delete { key, expect })
    }
}

impl Field for WriteBatch {
    ghost use Rattle.ox_ops.specs.Forms.{write_batch};
    ghost use Rattle.ox_ops.specs.Laws.{write_batch_exact};

    ghost form = { write_batch };

    ghost exact = { write_batch_exact };

    #[tactic(auto, using(ox_bytes::specs::WritingLaws::fronts), unfolding(crate::specs::Forms::write_batch))]
    fn put(&self, to: &mut Writer) -> Result<(), NoMemory> {
        self.puts.put(to)?;
        self.deletes.put(to)?;
        self.ranges.put(to)
    }

    #[tactic(auto, unfolding(crate::specs::Forms::write_batch))]
    fn read(from: &mut Reader<'_>) -> Result<WriteBatch, FieldFault> {
        let puts = Field::take(from)?;
        let deletes = Field::take(from)?;
        let ranges = Field::take(from)?;
        Ok(WriteBatch {
            puts,
            deletes,
            ranges,
        })
    }
}

impl Field for ShardCommand {
    ghost use Rattle.ox_ops.specs.Forms.{command};
    ghost use Rattle.ox_ops.specs.Laws.{command_exact};

    ghost form = { command };

    ghost exact = { command_exact };

    #[tactic(auto, using(ox_bytes::specs::WritingLaws::fronts), unfolding(crate::specs::Forms::command))]
    fn put(&self, to: &mut Writer) -> Result<(), NoMemory> {
        match self {
            ShardCommand::Write(batch) => {
                to.put_u8(0)?;
                batch.put(to)
            }
            ShardCommand::Open { timeout } => {
                to.put_u8(1)?;
                to.put_u64(*timeout)
            }
            ShardCommand::Close { session } => {
                to.put_u8(2)?;
                to.put_u64(*session)?;
                Ok(())
            }
            ShardCommand::Expire { session } => {
                to.put_u8(3)?;
                to.put_u64(*session)?;
                Ok(())
            }
        }
    }

    #[tactic(auto, unfolding(crate::specs::Forms::command, ox_bytes::specs::Fields::choice_at))]
    fn read(from: &mut Reader<'_>) -> Result<ShardCommand, FieldFault> {
        match from.take_tag(4)? {
            0 => Ok(ShardCommand::Write(Field::take(from)?)),
            1 => {
                let timeout = from.take_u64()?;
                Ok(ShardCommand::Open { timeout })
            }
            2 => {
                let session = from.take_u64()?;
                Ok(ShardCommand::Close { session })
            }
            _ => {
                let session = from.take_u64()?;
                Ok(ShardCommand::Expire { session })
            }
        }
    }
}
