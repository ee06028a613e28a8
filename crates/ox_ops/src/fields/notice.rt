// The bytes of what a command changed.
use crate::fields::VERSION_LIMIT;
use crate::notice::{Notice, NoticeItem};
use ox_bytes::{Field, FieldFault, Reader, Writer};
use ox_types::{NoMemory, OFFSET_LIMIT};

impl Field for Notice {
    ghost use Rattle.ox_ops.specs.Forms.{notice};
    ghost use Rattle.ox_ops.specs.Laws.{notice_exact};

    ghost form = { notice };

    ghost exact = { notice_exact };

    #[tactic(auto, using(ox_bytes::specs::WritingLaws::fronts), unfolding(crate::specs::Forms::notice))]
    fn put(&self, to: &mut Writer) -> Result<(), NoMemory> {
        match self {
            Notice::Created { key, version } => {
                to.put_u8(0)?;
                to.put_key(key)?;
                to.put_u64(*version)
            }
            Notice::Modified { key, version } => {
                to.put_u8(1)?;
                to.put_key(key)?;
                to.put_u64(*version)
            }
            Notice::Deleted { key } => {
                to.put_u8(2)?;
                to.put_key(key)?;
                Ok(())
            }
            Notice::Ranged { range } => {
                to.put_u8(3)?;
                range.put(to)?;
                Ok(())
            }
        }
    }

    #[tactic(auto, unfolding(crate::specs::Forms::notice, ox_bytes::specs::Fields::choice_at))]
    fn read(from: &mut Reader<'_>) -> Result<Notice, FieldFault> {
        match from.take_tag(4)? {
            0 => {
                let key = from.take_key()?;
                let version = from.take_u64_to(VERSION_LIMIT)?;
                Ok(Notice::Created { key, version })
            }
            1 => {
                let key = from.take_key()?;
                let version = from.take_u64_to(VERSION_LIMIT)?;
                Ok(Notice::Modified { key, version })
            }
            2 => {
                let key = from.take_key()?;
                Ok(Notice::Deleted { key })
            }
            _ => {
                let range = Field::take(from)?;
                Ok(Notice::Ranged { range })
            }
        }
    }
}

impl Field for NoticeItem {
    ghost use Rattle.ox_ops.specs.Forms.{notice_item};
    ghost use Rattle.ox_ops.specs.Laws.{notice_item_exact};

    ghost form = { notice_item };

    ghost exact = { notice_item_exact };

    #[tactic(auto, using(ox_bytes::specs::WritingLaws::fronts), unfolding(crate::specs::Forms::notice_item))]
    fn put(&self, to: &mut Writer) -> Result<(), NoMemory> {
        to.put_u64(self.offset)?;
        self.notice.put(to)
    }

    #[tactic(auto, unfolding(crate::specs::Forms::notice_item))]
    fn read(from: &mut Reader<'_>) -> Result<NoticeItem, FieldFault> {
        let offset = from.take_u64_to(OFFSET_LIMIT)?;
        let notice = Field::take(from)?;
        Ok(NoticeItem { offset, notice })
    }
}
