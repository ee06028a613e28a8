// The bytes of what a coordinator answers to a swap.
ghost use Rattle.std.specs.Prelude.{◌≡◌, ◌∷◌};
ghost use Rattle.ox_bytes.specs.Numbers.{be32};
ghost use Rattle.ox_bytes.specs.Writing.{Puts};

use crate::swap::{SwapOutcome, SwapRefused};
use ox_bytes::{Field, FieldFault, Reader, Writer};
use ox_types::{NoMemory, NodeId};

/// The byte of a refusal, and the node that it names.
#[tactic(auto, using(ox_bytes::specs::WritingLaws::fronts))]
fn put_node(kind: u8, node: NodeId, to: &mut Writer) -> Result<(), NoMemory>
    ensures { Puts result to.old to.new (kind ∷ be32 node) }
{
    to.put_u8(kind)?;
    to.put_u32(node.0)?;
    Ok(())
}

impl Field for SwapRefused {
    ghost use Rattle.ox_wire.specs.MessageForms.{swap_refused};
    ghost use Rattle.ox_wire.specs.MessageLaws.{swap_refused_exact};

    ghost form = { swap_refused };

    ghost exact = { swap_refused_exact };

    #[tactic(auto, using(ox_bytes::specs::WritingLaws::fronts), unfolding(crate::specs::MessageForms::swap_refused))]
    fn put(&self, to: &mut Writer) -> Result<(), NoMemory> {
        match self {
            SwapRefused::UnknownShard => to.put_u8(0),
            SwapRefused::InProgress { term } => {
                to.put_u8(1)?;
                to.put_u64(term.0)
            }
            SwapRefused::NotMember { node } => put_node(2, *node, to),
            SwapRefused::UnknownNode { node } => put_node(3, *node, to),
            SwapRefused::AlreadyMember { node } => put_node(4, *node, to),
            SwapRefused::TermsSpent { term, version } => {
                to.put_u8(5)?;
                to.put_u64(term.0)?;
                to.put_u64(*version)?;
                Ok(())
            }
        }
    }

    #[tactic(auto, unfolding(crate::specs::MessageForms::swap_refused, ox_bytes::specs::Fields::choice_at))]
    fn read(from: &mut Reader<'_>) -> Result<SwapRefused, FieldFault> {
        match from.take_tag(6)? {
            0 => Ok(SwapRefused::UnknownShard),
            1 => {
                let term = Field::take(from)?;
                Ok(SwapRefused::InProgress { term })
            }
            2 => {
                let node = NodeId(from.take_u32()?);
                Ok(SwapRefused::NotMember { node })
            }
            3 => {
                let node = NodeId(from.take_u32()?);
                Ok(SwapRefused::UnknownNode { node })
            }
            4 => {
                let node = NodeId(from.take_u32()?);
                Ok(SwapRefused::AlreadyMember { node })
            }
            _ => {
                let term = Field::take(from)?;
                let version = from.take_u64()?;
                Ok(SwapRefused::TermsSpent { term, version })
            }
        }
    }
}

impl Field for SwapOutcome {
    ghost use Rattle.ox_wire.specs.MessageForms.{swap_outcome};
    ghost use Rattle.ox_wire.specs.MessageLaws.{swap_outcome_exact};

    ghost form = { swap_outcome };

    ghost exact = { swap_outcome_exact };

    #[tactic(auto, using(ox_bytes::specs::WritingLaws::fronts), unfolding(crate::specs::MessageForms::swap_outcome))]
    fn put(&self, to: &mut Writer) -> Result<(), NoMemory> {
        match self {
            SwapOutcome::Begun { term } => {
                to.put_u8(0)?;
                to.put_u64(term.0)
            }
            SwapOutcome::Refused(refused) => {
                to.put_u8(1)?;
                refused.put(to)
            }
        }
    }

    #[tactic(auto, unfolding(crate::specs::MessageForms::swap_outcome, ox_bytes::specs::Fields::choice_at))]
    fn read(from: &mut Reader<'_>) -> Result<SwapOutcome, FieldFault> {
        match from.take_tag(2)? {
            0 => {
                let term = Field::take(from)?;
                Ok(SwapOutcome::Begun { term })
            }
            _ => {
                let refused = Field::take(from)?;
                Ok(SwapOutcome::Refused(refused))
            }
        }
    }
}
