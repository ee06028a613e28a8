//! A register: the smallest machine.
ghost use Rattle.std.specs.Prelude.{◌≡◌, IfOk};

use crate::codec::read;
use crate::machine::Machine;
use ox_bytes::encode;
use ox_types::{Bad, EntryId, List, MachineFault, NoMemory, Octets, Timer};
use std::alloc::Global;
use std::marker::Model;

/// A number that commands store, at first 0. Contracts see it as that number.
#[derive(Debug, Drop)]
pub struct Register {
    alloc: Global,
    pub value: u64,
}

impl Model for Register {
    ghost use Rattle.std.specs.Prelude.{ℕ};

    ghost Value = { ℕ };

    ghost view = { λ r. r.value };
}

#[derive(Clone, Copy, Debug, PartialEq, Eq)]
pub enum RegisterCommand {
    Set { to: u64 },
    /// Stores `to` where the value is `expected`.
    CompareAndSet { expected: u64, to: u64 },
}

#[derive(Clone, Copy, Debug, PartialEq, Eq)]
pub enum RegisterReply {
    Done,
    /// The value isn't the expected one, and stays.
    Differs { found: u64 },
}

#[derive(Clone, Copy, Debug, PartialEq, Eq)]
pub enum RegisterQuery {
    Read,
}

impl Machine for Register {
    ghost use Rattle.ox_machine.specs.Register.{register_meaning};
    ghost use Rattle.ox_machine.specs.RegisterLaws.{register_is_machine};

    type Command = RegisterCommand;

    type Reply = RegisterReply;

    type Query = RegisterQuery;

    type Answer = u64;

    ghost meaning = { register_meaning };

    fn empty(alloc: Global) -> Result<Register, NoMemory> {
        Ok(Register { alloc, value: 0 })
    }

    #[tactic(auto, unfolding(crate::specs::Forms::command, crate::specs::Forms::reply))]
    fn apply(
        &mut self,
        _id: EntryId,
        _time: u64,
        command: &RegisterCommand,
    ) -> Result<RegisterReply, NoMemory> {
        match *command {
            RegisterCommand::Set { to } => {
                self.value = to;
                Ok(RegisterReply::Done)
            }
            RegisterCommand::CompareAndSet { expected, to } => {
                if self.value == expected {
                    self.value = to;
                    Ok(RegisterReply::Done)
                } else {
                    Ok(RegisterReply::Differs { found: self.value })
                }
            }
        }
    }

    fn ask(&self, query: &RegisterQuery) -> Result<u64, NoMemory> {
        match query {
            RegisterQuery::Read => Ok(self.value),
        }
    }

    fn encode(alloc: Global, command: &RegisterCommand) -> Result<Octets, NoMemory> {
        encode(alloc, command)
    }

    fn decode(alloc: Global, bytes: &[u8]) -> Result<RegisterCommand, MachineFault> {
        read(alloc, bytes)
    }

    fn decode_query(alloc: Global, bytes: &[u8]) -> Result<RegisterQuery, MachineFault> {
        read(alloc, bytes)
    }

    fn encode_reply(alloc: Global, reply: &RegisterReply) -> Result<Octets, NoMemory> {
        encode(alloc, reply)
    }

    fn encode_answer(alloc: Global, answer: &u64) -> Result<Octets, NoMemory> {
        encode(alloc, answer)
    }

    fn faulty(_alloc: Global, _command: &RegisterCommand) -> Result<Option<Bad>, NoMemory> {
        Ok(None)
    }

    fn timers(&self) -> Result<List<Timer>, NoMemory> {
        Ok(List::new(self.alloc))
    }

    fn heard(_query: &RegisterQuery) -> Option<u64> {
        None
    }

    #[tactic(auto, unfolding(crate::specs::Forms::command))]
    fn expiry(_alloc: Global, _id: u64) -> RegisterCommand {
        RegisterCommand::Set { to: 0 }
    }

    ghost laws = { register_is_machine };
}
