// The only node of a run: its replica on two disks in memory, and whether it is up.
//
// A disk in memory fails only where memory runs out, so each fault of the replica and of its log is answered by `NoMemory`.
ghost use Rattle.std.specs.Prelude.{◌≡◌, ◌≢◌, ◌≤◌, ◌<◌, ◌++◌, ◌^◌, is_some, IfOk, OnOk};
ghost use Rattle.ox_meaning.specs.Shard.{shard_meaning};
ghost use Rattle.ox_solo_replica.specs.Cutting.{cut_step};
ghost use Rattle.ox_solo_replica.specs.Due.{due_at};
ghost use Rattle.ox_solo_replica.specs.Inputs.{IsInput};
ghost use Rattle.ox_solo_replica.specs.Step.{output_of, replica_step};
ghost use Rattle.ox_solo_safety.specs.World.{opening_replica, reopened};
ghost use Rattle.ox_solo_safety.specs.declared.power.Power.TheVariants as power_is;
ghost use Rattle.ox_types.specs.Durable.{blank, count_of, head_of};
ghost use Rattle.oxia_top.specs.Node.{between, behind_cut, gone};

use crate::letter::{become_leader, new_term};
use ox_memory::MemoryDisk;
use ox_shard::ShardMachine;
use ox_solo_replica::{Cut, Input, Output, Replica, law_either_order};
use ox_solo_safety::Power;
use ox_types::{Entry, Head, List, LogView, NoMemory, NodeId, Term};
use std::alloc::Global;
use std::marker::Model;

/// Node 1, which has one shard.
#[derive(Drop)]
pub struct Node {
    blocks: u32,
    power: Power,
    replica: Replica<ShardMachine, MemoryDisk>,
}

impl Model for Node {
    ghost use Rattle.oxia_top.specs.Node.{NodeState, IsNode, node_of};

    ghost Value = { NodeState };

    ghost view = { λ n. node_of n.blocks n.power n.replica };

    ghost invariant = { λ n. IsNode n.blocks n.power n.replica };
}

/// Adds copies of the entries of a log from one offset up to another. A log has them all where none is missing.
fn copy_from(
    replica: &Replica<ShardMachine, MemoryDisk>,
    from: u64,
    to: u64,
    into: &mut List<Entry>,
) -> Result<(), NoMemory>
    ensures { OnOk result (into.new ≡ into.old ++ between replica.now.disk from to) }
{
    if from < replica.view().base.count {
        return Err(NoMemory);
    }
    for offset in from..to {
        match replica.entry(offset)? {
            Some(entry) => into.push(entry)?,
            None => return Err(NoMemory),
        }
    }
    Ok(())
}

impl Node {
    /// The number of its entries, of those that are committed, its term and its seat.
    pub fn view(&self) -> LogView
        ensures count { result.count ≡ count_of self.now.state.disk }
        ensures seat { (result.term ≡ self.now.state.disk.term) × (result.seat ≡ self.now.state.disk.seat) }
        ensures commit { self.now.power ≡ power_is.Up → result.commit ≡ self.now.state.live.commit }
    {
        self.replica.view()
    }

    pub fn power(&self) -> Power
        ensures { result ≡ self.now.power }
    {
        self.power
    }

    /// The head of its log.
    pub fn head(&self) -> Head
        ensures { result ≡ head_of self.now.state.disk }
    {
        self.replica.head()
    }

    /// Whether it leads.
    pub fn leads(&self) -> bool
        requires { self.now.power ≡ power_is.Up }
        ensures { result ≡ is_some self.now.state.live.leading }
    {
        self.replica.leads()
    }

    /// The timer that has run out where the clock comes to this time (ms), if one has.
    pub fn due(&self, ms: u64) -> Option<u64>
        requires { self.now.power ≡ power_is.Up }
        ensures { result ≡ due_at self.now.state.live ms }
    {
        self.replica.due(ms)
    }

    /// Adds copies of the entries from one offset up to another, all of which the log has.
    pub fn copy_entries(&self, from: u64, to: u64, into: &mut List<Entry>) -> Result<(), NoMemory>
        ensures { OnOk result (into.new ≡ into.old ++ between self.now.state.disk from to) }
    {
        copy_from(&self.replica, from, to, into)
    }

    /// One step of a node that is up.
    pub fn handle(self, input: Input) -> Result<(Node, Output), NoMemory>
        requires up { self.power ≡ power_is.Up }
        requires input { IsInput input }
        ensures output { IfOk result (λ x. x.1 ≡ output_of (replica_step shard_meaning 1 self.blocks self.state input)) }
        ensures node { IfOk result (λ x. x.0 ≡ record self { state = (replica_step shard_meaning 1 self.blocks self.state input).state }) }
    {
        let Node {
            blocks,
            power,
            mut replica,
        } = self;
        match replica.handle(input) {
            Ok(output) => Ok((
                Node {
                    blocks,
                    power,
                    replica,
                },
                output,
            )),
            Err(_) => Err(NoMemory),
        }
    }

    /// One step of a node that is up, cut inside the call of the disks with this number, counted from 1: `stands` where what
    /// that call wrote is found again.
    pub fn handle_cut(self, input: Input, at: u64, stands: bool) -> Result<(Node, Cut), NoMemory>
        requires up { self.power ≡ power_is.Up }
        requires input { IsInput input }
        requires counted { 0 < at }
        ensures cut { IfOk result (λ x. x.1 ≡ cut_step self.state.disk (replica_step shard_meaning 1 self.blocks self.state input) at stands) }
        ensures node { IfOk result (λ x. x.0 ≡ behind_cut self (replica_step shard_meaning 1 self.blocks self.state input) at stands) }
    {
        let Node {
            blocks,
            power,
            mut replica,
        } = self;
        match replica.handle_cut(input, at, stands) {
            Ok(Cut::Whole(output)) => Ok((
                Node {
                    blocks,
                    power,
                    replica,
                },
                Cut::Whole(output),
            )),
            Ok(Cut::Down { kept, head }) => Ok((
                Node {
                    blocks,
                    power: Power::Down,
                    replica,
                },
                Cut::Down { kept, head },
            )),
            Err(_) => Err(NoMemory),
        }
    }

    /// It goes down, or is gone for good.
    pub fn leave(self, power: Power) -> Node
        requires { power ≢ power_is.Up }
        ensures { result ≡ gone self power self.state.disk }
    {
        let Node {
            blocks,
            replica,
            ..
        } = self;
        Node {
            blocks,
            power,
            replica,
        }
    }

    /// It starts from its disks.
    pub fn start(self, alloc: Global) -> Result<Node, NoMemory>
        requires { self.power ≡ power_is.Down }
        ensures { IfOk result (λ n. n ≡ record self { power = power_is.Up }) }
    {
        let Node {
            blocks,
            replica,
            ..
        } = self;
        replica.law_kept();
        law_either_order();
        let (first, second) = replica.close();
        match Replica::recover(alloc, NodeId(1), first, second, blocks) {
            Ok(replica) => Ok(Node {
                blocks,
                power: Power::Up,
                replica,
            }),
            Err(_) => Err(NoMemory),
        }
    }

    /// A node with nothing on its disks.
    fn blank(alloc: Global, blocks: u32) -> Result<Node, NoMemory>
        ensures { IfOk result (λ n. n ≡ record { blocks = blocks; power = power_is.Up; state = reopened shard_meaning blank }) }
    {
        let first = MemoryDisk::sound(alloc)?;
        let second = MemoryDisk::sound(alloc)?;
        match Replica::recover(alloc, NodeId(1), first, second, blocks) {
            Ok(replica) => Ok(Node {
                blocks,
                power: Power::Up,
                replica,
            }),
            Err(_) => Err(NoMemory),
        }
    }

    /// A node that leads in term 1.
    pub fn opening(alloc: Global, blocks: u64) -> Result<Node, NoMemory>
        requires some { 1 ≤ blocks }
        requires small { blocks ≤ 65536 }
        ensures { IfOk result (λ n. n ≡ record { blocks = blocks; power = power_is.Up; state = opening_replica shard_meaning }) }
    {
        let node = Node::blank(alloc, blocks as u32)?;
        let (node, _) = node.handle(new_term(Term(1))?)?;
        let (node, _) = node.handle(become_leader(alloc, Term(1))?)?;
        Ok(node)
    }
}
