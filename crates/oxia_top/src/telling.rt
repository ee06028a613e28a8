// What a step of a replica gave is told, and what is kept of it.
ghost use Rattle.std.specs.Prelude.{◌≡◌, ◌++◌, ◌+◌, ◌∷◌, [], length, map, IfOk, OnOk};
ghost use Rattle.std.specs.List.{flat_map};
ghost use Rattle.ox_report.specs.Effect.{effect_line};
ghost use Rattle.ox_wire.specs.Effects.{Effect as effect};
ghost use Rattle.ox_wire.specs.Effects.{kept_effects};
ghost use Rattle.ox_solo_safety.specs.Run.{answer_effects, messages_of, origin_of, sent_effects, whole_effects};
ghost use Rattle.oxia_top.specs.Letters.{messages_in};
ghost use Rattle.oxia_top.specs.Running.{knife_of};

use crate::knife::Knife;
use crate::letter::{Letter, send_all};
use ox_report::{add_answered, add_kept, add_was_cut, add_whole};
use ox_solo_replica::{Answered, Output};
use ox_types::{Entry, Head, KeptAs, List, NoMemory, Octets};
use ox_wire::{Cause, Origin};
use std::alloc::Global;

/// Tells the answers to clients.
fn add_answers(alloc: Global, text: &mut Octets, replies: &[Answered]) -> Result<(), NoMemory>
    ensures { OnOk result (text.new ≡ text.old ++ flat_map effect_line (answer_effects replies.now)) }
{
    for reply in replies {
        add_answered(alloc, text, reply.tag, &reply.outcome)?;
    }
    Ok(())
}

/// Tells of a step with a knife that it was whole.
fn add_if_whole(text: &mut Octets, knife: Knife) -> Result<(), NoMemory>
    ensures { OnOk result (text.new ≡ text.old ++ flat_map effect_line (whole_effects (knife_of knife))) }
{
    match knife {
        Knife::Free => Ok(()),
        Knife::At { .. } => add_whole(text),
    }
}

/// Tells all of a whole step, behind which the log has this head, and keeps its messages.
pub fn tell_whole(
    alloc: Global,
    text: &mut Octets,
    letters: &mut List<Letter>,
    shard: u64,
    knife: Knife,
    head: Head,
    output: Output,
) -> Result<(), NoMemory>
    ensures text { OnOk result (text.new ≡ text.old ++ flat_map effect_line (kept_effects output.kept head ++ whole_effects (knife_of knife) ++ sent_effects (length letters.old + 1) shard output.sends ++ answer_effects output.replies)) }
    ensures letters { OnOk result (messages_in letters.new ≡ messages_in letters.old ++ messages_of shard output.sends) }
{
    let Output {
        kept,
        sends,
        replies,
    } = output;
    add_kept(text, kept.as_slice(), head)?;
    add_if_whole(text, knife)?;
    send_all(text, letters, shard, sends)?;
    add_answers(alloc, text, replies.as_slice())
}

/// Tells of a step that was cut what of it was kept.
pub fn tell_cut(text: &mut Octets, kept: &[KeptAs], head: Head) -> Result<(), NoMemory>
    ensures { OnOk result (text.new ≡ text.old ++ flat_map effect_line (kept_effects kept.now head ++ effect.WasCut ∷ [])) }
{
    add_kept(text, kept, head)?;
    add_was_cut(text)
}

/// Adds the origin of each of these entries, which come from the same.
pub fn note_origins(
    origins: &mut List<Origin>,
    shard: u64,
    cause: Cause,
    entries: &[Entry],
) -> Result<(), NoMemory>
    ensures { OnOk result (origins.new ≡ origins.old ++ map (origin_of shard cause) entries.now) }
{
    for entry in entries {
        origins.push(Origin {
            shard,
            term: entry.term.0,
            offset: entry.offset,
            cause,
        })?;
    }
    Ok(())
}
