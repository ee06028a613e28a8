//! The trait of machines: what a replica needs of what it replicates.
ghost use Rattle.std.specs.Prelude.{◌≡◌, ◌≤◌, ◌<◌, ◌+◌, ℕ, Ok, IsTrue, IfOk, OnOk, length};
ghost use Rattle.ox_bytes.specs.Texts.{Answers, value_in};
ghost use Rattle.ox_types.specs.Limits.{count_limit, time_limit};
ghost use Rattle.ox_types.specs.Timers.{IdsRise};
ghost use Rattle.ox_machine.specs.Meaning.{Meaning, reads};
ghost use Rattle.ox_machine.specs.Laws.{IsMachine, command_limit};

use ox_types::{Bad, EntryId, List, MachineFault, NoMemory, Octets, Timer};
use std::alloc::Global;

/// A machine, to which a replica applies the commands of its log one by one (docs/REPLICATION.md, "Machines"). Two machines
/// that applied the same entries are equal.
///
/// What it does is one definition, its `meaning`, over the value that contracts see of it. The laws of a meaning are those of
/// `specs/Laws`; the one-thread store over it is `specs/Store`.
pub trait Machine: Sized + Drop {
    type Command: Drop;

    type Reply: Drop;

    type Query: Drop;

    type Answer: Drop;

    ghost meaning: { Meaning Self Self.Command Self.Reply Self.Query Self.Answer };

    /// The machine before the first entry.
    fn empty(alloc: Global) -> Result<Self, NoMemory>
        ensures opening { IfOk result (λ machine. machine ≡ meaning.opening) }
        ensures fits { IfOk result (λ machine. meaning.fits 0 machine) };

    /// Applies the command of an entry with this time (ms), and gives the reply. After an `Err` the machine is of no use: drop
    /// it.
    fn apply(
        &mut self,
        id: EntryId,
        time: u64,
        command: &Self::Command,
    ) -> Result<Self::Reply, NoMemory>
        requires fits { meaning.fits id.offset self.old }
        requires offset { id.offset < count_limit }
        requires time { time ≤ time_limit }
        requires lawful { IsTrue (meaning.commands.is_lawful command.now) }
        requires read { IsTrue (reads meaning command.now) }
        ensures state { OnOk result (self.new ≡ meaning.step self.old id time command.now) }
        ensures reply { IfOk result (λ reply. reply ≡ meaning.reply self.old id time command.now) }
        ensures fits { OnOk result (meaning.fits (id.offset + 1) self.new) }
        // The reply can be written.
        ensures lawful { IfOk result (λ reply. IsTrue (meaning.replies.is_lawful reply)) };

    /// The answer to a query, which changes nothing.
    fn ask(&self, query: &Self::Query) -> Result<Self::Answer, NoMemory>
        ensures answer { IfOk result (λ answer. answer ≡ meaning.answer self.now query.now) }
        // Where the machine has applied a log, the answer can be written.
        ensures lawful { (count : ℕ) → count ≤ count_limit → meaning.fits count self.now → IsTrue (meaning.queries.is_lawful query.now) → IfOk result (λ answer. IsTrue (meaning.answers.is_lawful answer)) };

    /// The one text of a command whose numbers are within their bounds.
    fn encode(alloc: Global, command: &Self::Command) -> Result<Octets, NoMemory>
        requires { IsTrue (meaning.commands.is_lawful command.now) }
        ensures text { IfOk result (λ text. text ≡ meaning.commands.text command.now) }
        ensures size { IsTrue (reads meaning command.now) → IfOk result (λ text. length text ≤ command_limit) };

    /// The command with this text, or the place of the first field at fault.
    fn decode(alloc: Global, bytes: &[u8]) -> Result<Self::Command, MachineFault>
        // What is decoded is lawful, and the bytes are its text.
        ensures found { IfOk result (λ x. IsTrue (meaning.commands.is_lawful x) × (bytes.now ≡ meaning.commands.text x)) }
        // The text of a lawful command is decoded as that command, unless memory runs out.
        ensures only { (x : Self.Command) → IsTrue (meaning.commands.is_lawful x) → bytes.now ≡ meaning.commands.text x → Answers result (Ok x) }
        // Where other bytes are at fault.
        ensures exact { Answers result (value_in meaning.commands bytes.now) }
        ensures size { IfOk result (λ x. IsTrue (reads meaning x) → length bytes.now ≤ command_limit) };

    /// The query with this text, or the place of the first field at fault.
    fn decode_query(alloc: Global, bytes: &[u8]) -> Result<Self::Query, MachineFault>
        // What is decoded is lawful, and the bytes are its text.
        ensures found { IfOk result (λ x. IsTrue (meaning.queries.is_lawful x) × (bytes.now ≡ meaning.queries.text x)) }
        // The text of a lawful query is decoded as that query, unless memory runs out.
        ensures only { (x : Self.Query) → IsTrue (meaning.queries.is_lawful x) → bytes.now ≡ meaning.queries.text x → Answers result (Ok x) }
        // Where other bytes are at fault.
        ensures exact { Answers result (value_in meaning.queries bytes.now) };

    /// The one text of a reply.
    fn encode_reply(alloc: Global, reply: &Self::Reply) -> Result<Octets, NoMemory>
        requires { IsTrue (meaning.replies.is_lawful reply.now) }
        ensures { IfOk result (λ text. text ≡ meaning.replies.text reply.now) };

    /// The one text of an answer.
    fn encode_answer(alloc: Global, answer: &Self::Answer) -> Result<Octets, NoMemory>
        requires { IsTrue (meaning.answers.is_lawful answer.now) }
        ensures { IfOk result (λ text. text ≡ meaning.answers.text answer.now) };

    /// The first fault that a command has where a client asks for it. A machine reads a command from a log where it has none,
    /// or where its only fault is that it is an expiry (the rule `Expire`).
    fn faulty(alloc: Global, command: &Self::Command) -> Result<Option<Bad>, NoMemory>
        requires { IsTrue (meaning.commands.is_lawful command.now) }
        ensures { IfOk result (λ bad. bad ≡ meaning.fault command.now) };

    /// The timers that run, by rising id.
    fn timers(&self) -> Result<List<Timer>, NoMemory>
        ensures timers { IfOk result (λ timers. timers ≡ meaning.timers self.now) }
        // Behind a log the ids rise strictly.
        ensures rise { (count : ℕ) → meaning.fits count self.now → IfOk result (λ timers. IdsRise timers) };

    /// The timer that a query starts anew, if any. It takes no memory.
    fn heard(query: &Self::Query) -> Option<u64>
        ensures { result ≡ meaning.heard query.now };

    /// The command of a timer that ran out. It takes no memory.
    fn expiry(alloc: Global, id: u64) -> Self::Command
        ensures expiry { result ≡ meaning.expiry id }
        ensures lawful { IsTrue (meaning.commands.is_lawful result) }
        ensures read { IsTrue (reads meaning result) };

    ghost laws: { IsMachine meaning };
}
