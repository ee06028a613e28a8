// The bytes of what a replica writes to its disks, and the blocks of entries (docs/FORMATS.md).
ghost use Rattle.std.specs.Prelude.{◌≡◌, IsTrue, IfOk};
ghost use Rattle.ox_bytes.specs.Reading.{Tells};
ghost use Rattle.ox_bytes.specs.Writing.{Puts};
ghost use Rattle.ox_bytes.specs.Fields.{whole_of};
ghost use Rattle.ox_bytes.specs.LogForms.{entry_blocks as blocks};
ghost use Rattle.ox_wal.specs.ActionForms.{action as action_form, actions};

use ox_bytes::{COUNT_LIMIT, Field, FieldFault, Reader, TERM_LIMIT, Writer, decode};
use ox_types::{Action, Entry, EntryBody, List, NoMemory, Octets, Term};
use std::alloc::Global;
use std::marker::Model;

/// An action as a field.
#[derive(Drop)]
pub struct Step(pub Action);

impl Model for Step {
    ghost use Rattle.ox_types.specs.declared.durable.Action.{Action as ActionIs};

    ghost Value = { ActionIs };

    ghost view = { λ s. s.0 };
}

impl Field for Step {
    ghost use Rattle.ox_wal.specs.ActionForms.{action};
    ghost use Rattle.ox_wal.specs.ActionLaws.{action_exact};

    ghost form = { action };

    ghost exact = { action_exact };

    #[tactic(auto, using(ox_bytes::specs::WritingLaws::fronts))]
    fn put(&self, to: &mut Writer) -> Result<(), NoMemory> {
        put_action(&self.0, to)
    }

    #[tactic(auto, unfolding(crate::specs::ActionForms::action, ox_bytes::specs::Fields::choice_at))]
    fn read(from: &mut Reader<'_>) -> Result<Step, FieldFault> {
        match from.take_tag(5)? {
            0 => Ok(Step(Action::Term(Term(from.take_u64_to(TERM_LIMIT)?)))),
            1 => {
                let count = from.take_u64_to(COUNT_LIMIT)?;
                Ok(Step(Action::Attach { count }))
            }
            2 => Ok(Step(Action::Lead)),
            3 => {
                let entries = Field::take(from)?;
                Ok(Step(Action::Append { entries }))
            }
            _ => {
                let term = Term(from.take_u64_to(TERM_LIMIT)?);
                let seat = Field::take(from)?;
                let head = Field::take(from)?;
                let saved = from.take_octets()?;
                Ok(Step(Action::Restore {
                    term,
                    seat,
                    head,
                    saved,
                }))
            }
        }
    }
}

/// The byte of an action and its fields.
#[tactic(auto, using(ox_bytes::specs::WritingLaws::fronts), unfolding(crate::specs::ActionForms::action))]
fn put_action(action: &Action, to: &mut Writer) -> Result<(), NoMemory>
    requires { IsTrue (action_form.is_lawful action.now) }
    ensures { Puts result to.old to.new (action_form.text action.now) }
{
    match action {
        Action::Term(term) => {
            to.put_u8(0)?;
            to.put_u64(term.0)?;
            Ok(())
        }
        Action::Attach { count } => {
            to.put_u8(1)?;
            to.put_u64(*count)?;
            Ok(())
        }
        Action::Lead => to.put_u8(2),
        Action::Append { entries } => {
            to.put_u8(3)?;
            entries.put(to)?;
            Ok(())
        }
        Action::Restore {
            term,
            seat,
            head,
            saved,
        } => {
            to.put_u8(4)?;
            to.put_u64(term.0)?;
            seat.put(to)?;
            head.put(to)?;
            to.put_octets(saved)?;
            Ok(())
        }
    }
}

/// The blocks of 4,096 bytes that an entry takes: those of its text, rounded up.
pub fn entry_blocks(entry: &Entry) -> u64
    ensures { result ≡ blocks entry.now }
{
    match &entry.body {
        EntryBody::Pass => 1,
        EntryBody::Command(bytes) => {
            let len = bytes.len() as u64;
            len / 4096 + (len % 4096 + 29 + 4095) / 4096
        }
    }
}

/// The one text of a batch of actions.
pub fn encode_actions(alloc: Global, batch: &[Action]) -> Result<Octets, NoMemory>
    requires { IsTrue (actions.is_lawful batch.now) }
    ensures { IfOk result (λ text. text ≡ actions.text batch.now) }
{
    let mut writer = Writer::empty(alloc);
    writer.put_u32(batch.len() as u32)?;
    for action in batch {
        put_action(action, &mut writer)?;
    }
    Ok(writer.finish())
}

/// The steps as actions.
fn actions_in(alloc: Global, steps: List<Step>) -> Result<List<Action>, NoMemory>
    ensures { IfOk result (λ actions. actions ≡ steps) }
{
    let mut actions = List::new(alloc);
    for step in steps.into_vec() {
        let Step(action) = step;
        actions.push(action)?;
    }
    Ok(actions)
}

/// The actions that the bytes are the text of.
pub fn decode_actions(alloc: Global, bytes: &[u8]) -> Result<List<Action>, FieldFault>
    // What is read is lawful, and the bytes are its text.
    ensures found { IfOk result (λ batch. IsTrue (actions.is_lawful batch) × (bytes.now ≡ actions.text batch)) }
    ensures exact { Tells result (whole_of actions bytes.now) }
{
    let steps: List<Step> = decode(alloc, bytes)?;
    Ok(actions_in(alloc, steps)?)
}
