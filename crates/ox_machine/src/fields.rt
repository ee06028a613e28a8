// The bytes of a register's commands, queries and replies.
use crate::register::{RegisterCommand, RegisterQuery, RegisterReply};
use ox_bytes::{Field, FieldFault, Reader, Writer};
use ox_types::NoMemory;

impl Field for RegisterCommand {
    ghost use Rattle.ox_machine.specs.Forms.{command};
    ghost use Rattle.ox_machine.specs.FormLaws.{command_exact};

    ghost form = { command };

    ghost exact = { command_exact };

    #[tactic(auto, using(ox_bytes::specs::WritingLaws::fronts), unfolding(crate::specs::Forms::command))]
    fn put(&self, to: &mut Writer) -> Result<(), NoMemory> {
        match *self {
            RegisterCommand::Set { to: value } => {
                to.put_u8(0)?;
                to.put_u64(value)?;
                Ok(())
            }
            RegisterCommand::CompareAndSet {
                expected,
                to: value,
            } => {
                to.put_u8(1)?;
                to.put_u64(expected)?;
                to.put_u64(value)?;
                Ok(())
            }
        }
    }

    #[tactic(auto, unfolding(crate::specs::Forms::command, ox_bytes::specs::Fields::choice_at))]
    fn read(from: &mut Reader<'_>) -> Result<RegisterCommand, FieldFault> {
        match from.take_tag(2)? {
            0 => {
                let to = from.take_u64()?;
                Ok(RegisterCommand::Set { to })
            }
            _ => {
                let expected = from.take_u64()?;
                let to = from.take_u64()?;
                Ok(RegisterCommand::CompareAndSet { expected, to })
            }
        }
    }
}

impl Field for RegisterQuery {
    ghost use Rattle.ox_machine.specs.Forms.{query};
    ghost use Rattle.ox_machine.specs.FormLaws.{query_exact};

    ghost form = { query };

    ghost exact = { query_exact };

    #[tactic(auto, using(ox_bytes::specs::WritingLaws::fronts), unfolding(crate::specs::Forms::query))]
    fn put(&self, to: &mut Writer) -> Result<(), NoMemory> {
        match self {
            RegisterQuery::Read => to.put_u8(0),
        }
    }

    #[tactic(auto, unfolding(crate::specs::Forms::query, ox_bytes::specs::Fields::choice_at))]
    fn read(from: &mut Reader<'_>) -> Result<RegisterQuery, FieldFault> {
        from.take_tag(1)?;
        Ok(RegisterQuery::Read)
    }
}

impl Field for RegisterReply {
    ghost use Rattle.ox_machine.specs.Forms.{reply};
    ghost use Rattle.ox_machine.specs.FormLaws.{reply_exact};

    ghost form = { reply };

    ghost exact = { reply_exact };

    #[tactic(auto, using(ox_bytes::specs::WritingLaws::fronts), unfolding(crate::specs::Forms::reply))]
    fn put(&self, to: &mut Writer) -> Result<(), NoMemory> {
        match *self {
            RegisterReply::Done => to.put_u8(0),
            RegisterReply::Differs { found } => {
                to.put_u8(1)?;
                to.put_u64(found)?;
                Ok(())
            }
        }
    }

    #[tactic(auto, unfolding(crate::specs::Forms::reply, ox_bytes::specs::Fields::choice_at))]
    fn read(from: &mut Reader<'_>) -> Result<RegisterReply, FieldFault> {
        match from.take_tag(2)? {
            0 => Ok(RegisterReply::Done),
            _ => {
                let found = from.take_u64()?;
                Ok(RegisterReply::Differs { found })
            }
        }
    }
}
