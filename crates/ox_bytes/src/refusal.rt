// The bytes of refusals (docs/FORMATS.md).
use crate::fault::FieldFault;
use crate::field::Field;
use crate::reader::Reader;
use crate::writer::Writer;
use ox_types::{
    Bad, COUNT_LIMIT, NoMemory, NodeId, Part, Refusal, Rule, Seat, ShardId, TERM_LIMIT, Term,
};

impl Field for Part {
    ghost use Rattle.ox_bytes.specs.LogForms.{part};
    ghost use Rattle.ox_bytes.specs.LogLaws.{part_exact};

    ghost form = { part };

    ghost exact = { part_exact };

    #[tactic(auto, using(crate::specs::WritingLaws::fronts), unfolding(crate::specs::LogForms::part))]
    fn put(&self, to: &mut Writer) -> Result<(), NoMemory> {
        match self {
            Part::Bytes => to.put_u8(0),
            Part::Batch => to.put_u8(1),
            Part::Put => to.put_u8(2),
            Part::Session => to.put_u8(3),
        }
    }

    #[tactic(auto, unfolding(crate::specs::LogForms::part, crate::specs::Fields::choice_at))]
    fn read(from: &mut Reader<'_>) -> Result<Part, FieldFault> {
        match from.take_tag(4)? {
            0 => Ok(Part::Bytes),
            1 => Ok(Part::Batch),
            2 => Ok(Part::Put),
            _ => Ok(Part::Session),
        }
    }
}

impl Field for Rule {
    ghost use Rattle.ox_bytes.specs.LogForms.{bad_rule};
    ghost use Rattle.ox_bytes.specs.LogLaws.{bad_rule_exact};

    ghost form = { bad_rule };

    ghost exact = { bad_rule_exact };

    #[tactic(auto, using(crate::specs::WritingLaws::fronts), unfolding(crate::specs::LogForms::bad_rule))]
    fn put(&self, to: &mut Writer) -> Result<(), NoMemory> {
        match self {
            Rule::Grammar => to.put_u8(0),
            Rule::Ops => to.put_u8(1),
            Rule::Size => to.put_u8(2),
            Rule::Deltas => to.put_u8(3),
            Rule::First => to.put_u8(4),
            Rule::Sequence => to.put_u8(5),
            Rule::Long => to.put_u8(6),
            Rule::Indexes => to.put_u8(7),
            Rule::Repeated => to.put_u8(8),
            Rule::Timeout => to.put_u8(9),
            Rule::Expire => to.put_u8(10),
        }
    }

    #[tactic(auto, unfolding(crate::specs::LogForms::bad_rule, crate::specs::Fields::choice_at))]
    fn read(from: &mut Reader<'_>) -> Result<Rule, FieldFault> {
        match from.take_tag(11)? {
            0 => Ok(Rule::Grammar),
            1 => Ok(Rule::Ops),
            2 => Ok(Rule::Size),
            3 => Ok(Rule::Deltas),
            4 => Ok(Rule::First),
            5 => Ok(Rule::Sequence),
            6 => Ok(Rule::Long),
            7 => Ok(Rule::Indexes),
            8 => Ok(Rule::Repeated),
            9 => Ok(Rule::Timeout),
            _ => Ok(Rule::Expire),
        }
    }
}

impl Field for Bad {
    ghost use Rattle.ox_bytes.specs.LogForms.{bad_form};
    ghost use Rattle.ox_bytes.specs.LogLaws.{bad_form_exact};

    ghost form = { bad_form };

    ghost exact = { bad_form_exact };

    #[tactic(auto, using(crate::specs::WritingLaws::fronts), unfolding(crate::specs::LogForms::bad_form))]
    fn put(&self, to: &mut Writer) -> Result<(), NoMemory> {
        self.part.put(to)?;
        to.put_u32(self.index)?;
        self.rule.put(to)
    }

    #[tactic(auto, unfolding(crate::specs::LogForms::bad_form))]
    fn read(from: &mut Reader<'_>) -> Result<Bad, FieldFault> {
        let part = Field::take(from)?;
        let index = from.take_u32()?;
        let rule = Field::take(from)?;
        Ok(Bad { part, index, rule })
    }
}

impl Field for Refusal {
    ghost use Rattle.ox_bytes.specs.LogForms.{refusal};
    ghost use Rattle.ox_bytes.specs.LogLaws.{refusal_exact};

    ghost form = { refusal };

    ghost exact = { refusal_exact };

    #[tactic(auto, using(crate::specs::WritingLaws::fronts), unfolding(crate::specs::LogForms::refusal))]
    fn put(&self, to: &mut Writer) -> Result<(), NoMemory> {
        match self {
            Refusal::OldTerm { asked, has } => {
                to.put_u8(0)?;
                to.put_u64(asked.0)?;
                to.put_u64(has.0)?;
                Ok(())
            }
            Refusal::UnknownTerm { asked, has } => {
                to.put_u8(1)?;
                to.put_u64(asked.0)?;
                to.put_u64(has.0)?;
                Ok(())
            }
            Refusal::SeatTaken { term, seat } => {
                to.put_u8(2)?;
                to.put_u64(term.0)?;
                seat.put(to)?;
                Ok(())
            }
            Refusal::NotLeader { term, hint } => {
                to.put_u8(3)?;
                to.put_u64(term.0)?;
                hint.put(to)?;
                Ok(())
            }
            Refusal::Recovering {
                term,
                begin,
                commit,
            } => {
                to.put_u8(4)?;
                to.put_u64(term.0)?;
                to.put_u64(*begin)?;
                to.put_u64(*commit)?;
                Ok(())
            }
            Refusal::TooManyPending { limit } => {
                to.put_u8(5)?;
                to.put_u32(*limit)?;
                Ok(())
            }
            Refusal::LogSpent { count } => {
                to.put_u8(6)?;
                to.put_u64(*count)?;
                Ok(())
            }
            Refusal::LogFull { need, free } => {
                to.put_u8(7)?;
                to.put_u64(*need)?;
                to.put_u64(*free)?;
                Ok(())
            }
            Refusal::LeaderGone { term, by } => {
                to.put_u8(8)?;
                to.put_u64(term.0)?;
                to.put_u64(by.0)?;
                Ok(())
            }
            Refusal::BadRequest(bad) => {
                to.put_u8(9)?;
                bad.put(to)?;
                Ok(())
            }
            Refusal::NoSuchShard { asked, shards } => {
                to.put_u8(10)?;
                to.put_u32(asked.0)?;
                to.put_u32(*shards)?;
                Ok(())
            }
        }
    }

    #[tactic(auto, unfolding(crate::specs::LogForms::refusal, crate::specs::Fields::choice_at))]
    fn read(from: &mut Reader<'_>) -> Result<Refusal, FieldFault> {
        match from.take_tag(11)? {
            0 => {
                let asked = Term(from.take_u64_to(TERM_LIMIT)?);
                let has = Term(from.take_u64_to(TERM_LIMIT)?);
                Ok(Refusal::OldTerm { asked, has })
            }
            1 => {
                let asked = Term(from.take_u64_to(TERM_LIMIT)?);
                let has = Term(from.take_u64_to(TERM_LIMIT)?);
                Ok(Refusal::UnknownTerm { asked, has })
            }
            2 => {
                let term = Term(from.take_u64_to(TERM_LIMIT)?);
                let seat = Field::take(from)?;
                Ok(Refusal::SeatTaken { term, seat })
            }
            3 => {
                let term = Term(from.take_u64_to(TERM_LIMIT)?);
                let hint = Field::take(from)?;
                Ok(Refusal::NotLeader { term, hint })
            }
            4 => {
                let term = Term(from.take_u64_to(TERM_LIMIT)?);
                let begin = from.take_u64_to(COUNT_LIMIT)?;
                let commit = from.take_u64_to(COUNT_LIMIT)?;
                Ok(Refusal::Recovering {
                    term,
                    begin,
                    commit,
                })
            }
            5 => {
                let limit = from.take_u32()?;
                Ok(Refusal::TooManyPending { limit })
            }
            6 => {
                let count = from.take_u64_to(COUNT_LIMIT)?;
                Ok(Refusal::LogSpent { count })
            }
            7 => {
                let need = from.take_u64()?;
                let free = from.take_u64()?;
                Ok(Refusal::LogFull { need, free })
            }
            8 => {
                let term = Term(from.take_u64_to(TERM_LIMIT)?);
                let by = Term(from.take_u64_to(TERM_LIMIT)?);
                Ok(Refusal::LeaderGone { term, by })
            }
            9 => {
                let bad = Field::take(from)?;
                Ok(Refusal::BadRequest(bad))
            }
            _ => {
                let asked = ShardId(from.take_u32()?);
                let shards = from.take_u32()?;
                Ok(Refusal::NoSuchShard { asked, shards })
            }
        }
    }
}
