// The bytes of what became of a request.
use crate::message::Outcome;
use ox_bytes::{COUNT_LIMIT, Field, FieldFault, OFFSET_LIMIT, Reader, Writer};
use ox_types::NoMemory;

impl Field for Outcome {
    ghost use Rattle.ox_wire.specs.MessageForms.{outcome};
    ghost use Rattle.ox_wire.specs.MessageLaws.{outcome_exact};

    ghost form = { outcome };

    ghost exact = { outcome_exact };

    #[tactic(auto, using(ox_bytes::specs::WritingLaws::fronts), unfolding(crate::specs::MessageForms::outcome))]
    fn put(&self, to: &mut Writer) -> Result<(), NoMemory> {
        match self {
            Outcome::Ack {
                term,
                offset,
                reply,
            } => {
                to.put_u8(0)?;
                to.put_u64(term.0)?;
                to.put_u64(*offset)?;
                to.put_octets(reply)
            }
            Outcome::Read {
                term,
                prefix,
                answer,
            } => {
                to.put_u8(1)?;
                to.put_u64(term.0)?;
                to.put_u64(*prefix)?;
                to.put_octets(answer)
            }
            Outcome::Refused(refusal) => {
                to.put_u8(2)?;
                refusal.put(to)?;
                Ok(())
            }
        }
    }

    #[tactic(auto, unfolding(crate::specs::MessageForms::outcome, ox_bytes::specs::Fields::choice_at))]
    fn read(from: &mut Reader<'_>) -> Result<Outcome, FieldFault> {
        match from.take_tag(3)? {
            0 => {
                let term = Field::take(from)?;
                let offset = from.take_u64_to(OFFSET_LIMIT)?;
                let reply = from.take_octets()?;
                Ok(Outcome::Ack {
                    term,
                    offset,
                    reply,
                })
            }
            1 => {
                let term = Field::take(from)?;
                let prefix = from.take_u64_to(COUNT_LIMIT)?;
                let answer = from.take_octets()?;
                Ok(Outcome::Read {
                    term,
                    prefix,
                    answer,
                })
            }
            _ => {
                let refusal = Field::take(from)?;
                Ok(Outcome::Refused(refusal))
            }
        }
    }
}
