//! A shard as a machine that replicas apply a log to.
use crate::machine::ShardMachine;
use ox_machine::Machine;
use ox_ops::{
    ShardAnswer, ShardCommand, ShardQuery, ShardReply, check, decode_command, decode_query,
    encode_answer, encode_command, encode_reply,
};
use ox_types::{Bad, EntryId, List, MachineFault, NoMemory, Octets, Timer};
use std::alloc::Global;

impl Machine for ShardMachine {
    ghost use Rattle.ox_meaning.specs.Shard.{shard_meaning};
    ghost use Rattle.ox_meaning.specs.ShardLaws.{shard_is_machine};

    type Command = ShardCommand;

    type Reply = ShardReply;

    type Query = ShardQuery;

    type Answer = ShardAnswer;

    ghost meaning = { shard_meaning };

    fn empty(alloc: Global) -> Result<ShardMachine, NoMemory> {
        ShardMachine::empty(alloc)
    }

    fn apply(
        &mut self,
        id: EntryId,
        time: u64,
        command: &ShardCommand,
    ) -> Result<ShardReply, NoMemory> {
        self.apply(id, time, command)
    }

    fn ask(&self, query: &ShardQuery) -> Result<ShardAnswer, NoMemory> {
        self.ask(query)
    }

    fn encode(alloc: Global, command: &ShardCommand) -> Result<Octets, NoMemory> {
        encode_command(alloc, command)
    }

    fn decode(alloc: Global, bytes: &[u8]) -> Result<ShardCommand, MachineFault> {
        decode_command(alloc, bytes)
    }

    fn decode_query(alloc: Global, bytes: &[u8]) -> Result<ShardQuery, MachineFault> {
        decode_query(alloc, bytes)
    }

    fn encode_reply(alloc: Global, reply: &ShardReply) -> Result<Octets, NoMemory> {
        encode_reply(alloc, reply)
    }

    fn encode_answer(alloc: Global, answer: &ShardAnswer) -> Result<Octets, NoMemory> {
        encode_answer(alloc, answer)
    }

    fn faulty(alloc: Global, command: &ShardCommand) -> Result<Option<Bad>, NoMemory> {
        check(alloc, command)
    }

    fn timers(&self) -> Result<List<Timer>, NoMemory> {
        self.timers()
    }

    fn heard(query: &ShardQuery) -> Option<u64> {
        match query {
            ShardQuery::KeepAlive { session } => Some(*session),
            _ => None,
        }
    }

    fn expiry(_alloc: Global, id: u64) -> ShardCommand {
        ShardCommand::Expire { session: id }
    }

    ghost laws = { shard_is_machine };
}
