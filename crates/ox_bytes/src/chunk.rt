// The bytes of the pieces of a snapshot (docs/FORMATS.md).
ghost use Rattle.std.specs.Prelude.{◌≡◌, ◌==◌, ◌+◌, nat_le, length};
ghost use Rattle.ox_bytes.specs.declared.fault.WireRule.TheVariants.{Range};
ghost use Rattle.ox_bytes.specs.Form.{checked};
ghost use Rattle.ox_bytes.specs.Fields.{number32, octets};
ghost use Rattle.ox_bytes.specs.Reading.{Gives};
ghost use Rattle.ox_bytes.specs.LogForms.{head_to, pieces_of, piece_length};

use crate::fault::{FieldFault, WireRule};
use crate::field::Field;
use crate::reader::Reader;
use crate::writer::Writer;
use ox_types::{COUNT_LIMIT, Chunk, Head, NoMemory, Octets, SAVED_LIMIT, Term};

/// The bytes of a whole piece of a snapshot: 1 MiB.
pub const PIECE_SIZE: u64 = 1_048_576;

/// How many pieces a snapshot of so many bytes makes: one at least.
pub fn pieces(total: u64) -> u64
    ensures { result ≡ pieces_of total }
{
    if total == 0 {
        1
    } else {
        (total - 1) / PIECE_SIZE + 1
    }
}

/// How many bytes the piece `index` has, which is one of the snapshot's.
pub fn piece_len(total: u64, index: u32) -> u64
    ensures { result ≡ piece_length total index }
{
    let rest = total.saturating_sub(u64::from(index) * PIECE_SIZE);
    rest.min(PIECE_SIZE)
}

/// A head whose term is at most `top`.
#[tactic(auto, unfolding(crate::specs::LogForms::head_to))]
fn take_head_to(from: &mut Reader<'_>, top: u64) -> Result<Head, FieldFault>
    ensures { Gives result from.new ((head_to top).at from.old) }
{
    let range = from.bad(WireRule::Range);
    let term: Term = Field::take(from)?;
    if term.0 > top {
        return Err(FieldFault::Bad(range));
    }
    let count = from.take_u64_to(COUNT_LIMIT)?;
    Ok(Head { term, count })
}

/// The index of a piece.
fn take_index(from: &mut Reader<'_>, total: u64) -> Result<u32, FieldFault>
    ensures { Gives result from.new ((checked (λ i. nat_le (i + 1) (pieces_of total)) Range number32).at from.old) }
{
    let range = from.bad(WireRule::Range);
    let index = from.take_u32()?;
    if u64::from(index) >= pieces(total) {
        return Err(FieldFault::Bad(range));
    }
    Ok(index)
}

/// The bytes of a piece.
fn take_piece(from: &mut Reader<'_>, total: u64, index: u32) -> Result<Octets, FieldFault>
    ensures { Gives result from.new ((checked (λ b. length b == piece_length total index) Range octets).at from.old) }
{
    let range = from.bad(WireRule::Range);
    let bytes = from.take_octets()?;
    if bytes.len() as u64 != piece_len(total, index) {
        return Err(FieldFault::Bad(range));
    }
    Ok(bytes)
}

impl Field for Chunk {
    ghost use Rattle.ox_bytes.specs.LogForms.{chunk};
    ghost use Rattle.ox_bytes.specs.LogLaws.{chunk_exact};

    ghost form = { chunk };

    ghost exact = { chunk_exact };

    #[tactic(auto, using(crate::specs::WritingLaws::fronts), unfolding(crate::specs::LogForms::chunk, crate::specs::LogForms::head_to, crate::specs::LogForms::piece_in))]
    fn put(&self, to: &mut Writer) -> Result<(), NoMemory> {
        to.put_u64(self.term.0)?;
        to.put_u64(self.head.term.0)?;
        to.put_u64(self.head.count)?;
        to.put_u64(self.total)?;
        to.put_u32(self.index)?;
        to.put_octets(&self.bytes)
    }

    #[tactic(auto, unfolding(crate::specs::LogForms::chunk, crate::specs::LogForms::piece_in))]
    fn read(from: &mut Reader<'_>) -> Result<Chunk, FieldFault> {
        let term: Term = Field::take(from)?;
        let head = take_head_to(from, term.0)?;
        let total = from.take_u64_to(SAVED_LIMIT)?;
        let index = take_index(from, total)?;
        let bytes = take_piece(from, total, index)?;
        Ok(Chunk {
            term,
            head,
            total,
            index,
            bytes,
        })
    }
}
