// The bytes of logs and of what is told of them (docs/FORMATS.md).
use crate::fault::FieldFault;
use crate::field::Field;
use crate::reader::Reader;
use crate::writer::Writer;
use ox_types::{
    COUNT_LIMIT, CoordId, Entry, EntryBody, Head, NoMemory, NodeId, OFFSET_LIMIT, Peer, Seat,
    ShardId, TERM_LIMIT, TIME_LIMIT, Term,
};

impl Field for Term {
    ghost use Rattle.ox_bytes.specs.LogForms.{term};
    ghost use Rattle.ox_bytes.specs.LogLaws.{term_exact};

    ghost form = { term };

    ghost exact = { term_exact };

    #[tactic(auto, using(crate::specs::WritingLaws::fronts))]
    fn put(&self, to: &mut Writer) -> Result<(), NoMemory> {
        to.put_u64(self.0)
    }

    fn read(from: &mut Reader<'_>) -> Result<Term, FieldFault> {
        Ok(Term(from.take_u64_to(TERM_LIMIT)?))
    }
}

impl Field for NodeId {
    ghost use Rattle.ox_bytes.specs.Fields.{number32};
    ghost use Rattle.ox_bytes.specs.NumberLaws.{number32_exact};

    ghost form = { number32 };

    ghost exact = { number32_exact };

    #[tactic(auto, using(crate::specs::WritingLaws::fronts))]
    fn put(&self, to: &mut Writer) -> Result<(), NoMemory> {
        to.put_u32(self.0)
    }

    fn read(from: &mut Reader<'_>) -> Result<NodeId, FieldFault> {
        Ok(NodeId(from.take_u32()?))
    }
}

impl Field for CoordId {
    ghost use Rattle.ox_bytes.specs.Fields.{number32};
    ghost use Rattle.ox_bytes.specs.NumberLaws.{number32_exact};

    ghost form = { number32 };

    ghost exact = { number32_exact };

    #[tactic(auto, using(crate::specs::WritingLaws::fronts))]
    fn put(&self, to: &mut Writer) -> Result<(), NoMemory> {
        to.put_u32(self.0)
    }

    fn read(from: &mut Reader<'_>) -> Result<CoordId, FieldFault> {
        Ok(CoordId(from.take_u32()?))
    }
}

impl Field for ShardId {
    ghost use Rattle.ox_bytes.specs.Fields.{number32};
    ghost use Rattle.ox_bytes.specs.NumberLaws.{number32_exact};

    ghost form = { number32 };

    ghost exact = { number32_exact };

    #[tactic(auto, using(crate::specs::WritingLaws::fronts))]
    fn put(&self, to: &mut Writer) -> Result<(), NoMemory> {
        to.put_u32(self.0)
    }

    fn read(from: &mut Reader<'_>) -> Result<ShardId, FieldFault> {
        Ok(ShardId(from.take_u32()?))
    }
}

impl Field for Head {
    ghost use Rattle.ox_bytes.specs.LogForms.{head};
    ghost use Rattle.ox_bytes.specs.LogLaws.{head_exact};

    ghost form = { head };

    ghost exact = { head_exact };

    #[tactic(auto, using(crate::specs::WritingLaws::fronts), unfolding(crate::specs::LogForms::head))]
    fn put(&self, to: &mut Writer) -> Result<(), NoMemory> {
        to.put_u64(self.term.0)?;
        to.put_u64(self.count)
    }

    #[tactic(auto, unfolding(crate::specs::LogForms::head))]
    fn read(from: &mut Reader<'_>) -> Result<Head, FieldFault> {
        let term = Term(from.take_u64_to(TERM_LIMIT)?);
        let count = from.take_u64_to(COUNT_LIMIT)?;
        Ok(Head { term, count })
    }
}

impl Field for EntryBody {
    ghost use Rattle.ox_bytes.specs.LogForms.{entry_body};
    ghost use Rattle.ox_bytes.specs.LogLaws.{entry_body_exact};

    ghost form = { entry_body };

    ghost exact = { entry_body_exact };

    #[tactic(auto, using(crate::specs::WritingLaws::fronts), unfolding(crate::specs::LogForms::entry_body))]
    fn put(&self, to: &mut Writer) -> Result<(), NoMemory> {
        match self {
            EntryBody::Pass => to.put_u8(0),
            EntryBody::Command(bytes) => {
                to.put_u8(1)?;
                to.put_octets(bytes)?;
                Ok(())
            }
        }
    }

    #[tactic(auto, unfolding(crate::specs::LogForms::entry_body, crate::specs::Fields::choice_at))]
    fn read(from: &mut Reader<'_>) -> Result<EntryBody, FieldFault> {
        match from.take_tag(2)? {
            0 => Ok(EntryBody::Pass),
            _ => {
                let bytes = from.take_octets()?;
                Ok(EntryBody::Command(bytes))
            }
        }
    }
}

impl Field for Seat {
    ghost use Rattle.ox_bytes.specs.LogForms.{seat};
    ghost use Rattle.ox_bytes.specs.LogLaws.{seat_exact};

    ghost form = { seat };

    ghost exact = { seat_exact };

    #[tactic(auto, using(crate::specs::WritingLaws::fronts), unfolding(crate::specs::LogForms::seat))]
    fn put(&self, to: &mut Writer) -> Result<(), NoMemory> {
        match self {
            Seat::Fenced => to.put_u8(0),
            Seat::Attached => to.put_u8(1),
            Seat::Led => to.put_u8(2),
        }
    }

    #[tactic(auto, unfolding(crate::specs::LogForms::seat, crate::specs::Fields::choice_at))]
    fn read(from: &mut Reader<'_>) -> Result<Seat, FieldFault> {
        match from.take_tag(3)? {
            0 => Ok(Seat::Fenced),
            1 => Ok(Seat::Attached),
            _ => Ok(Seat::Led),
        }
    }
}

impl Field for Peer {
    ghost use Rattle.ox_bytes.specs.LogForms.{peer};
    ghost use Rattle.ox_bytes.specs.LogLaws.{peer_exact};

    ghost form = { peer };

    ghost exact = { peer_exact };

    #[tactic(auto, using(crate::specs::WritingLaws::fronts), unfolding(crate::specs::LogForms::peer))]
    fn put(&self, to: &mut Writer) -> Result<(), NoMemory> {
        match self {
            Peer::Node(id) => {
                to.put_u8(0)?;
                to.put_u32(id.0)?;
                Ok(())
            }
            Peer::Coordinator(id) => {
                to.put_u8(1)?;
                to.put_u32(id.0)?;
                Ok(())
            }
        }
    }

    #[tactic(auto, unfolding(crate::specs::LogForms::peer, crate::specs::Fields::choice_at))]
    fn read(from: &mut Reader<'_>) -> Result<Peer, FieldFault> {
        match from.take_tag(2)? {
            0 => {
                let id = NodeId(from.take_u32()?);
                Ok(Peer::Node(id))
            }
            _ => {
                let id = CoordId(from.take_u32()?);
                Ok(Peer::Coordinator(id))
            }
        }
    }
}

impl Field for Entry {
    ghost use Rattle.ox_bytes.specs.LogForms.{entry};
    ghost use Rattle.ox_bytes.specs.LogLaws.{entry_exact};

    ghost form = { entry };

    ghost exact = { entry_exact };

    #[tactic(auto, using(crate::specs::WritingLaws::fronts), unfolding(crate::specs::LogForms::entry))]
    fn put(&self, to: &mut Writer) -> Result<(), NoMemory> {
        to.put_u64(self.term.0)?;
        to.put_u64(self.offset)?;
        to.put_u64(self.time)?;
        self.body.put(to)
    }

    #[tactic(auto, unfolding(crate::specs::LogForms::entry))]
    fn read(from: &mut Reader<'_>) -> Result<Entry, FieldFault> {
        let term = Term(from.take_u64_to(TERM_LIMIT)?);
        let offset = from.take_u64_to(OFFSET_LIMIT)?;
        let time = from.take_u64_to(TIME_LIMIT)?;
        let body = Field::take(from)?;
        Ok(Entry {
            term,
            offset,
            time,
            body,
        })
    }
}
