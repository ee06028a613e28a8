// Filling the half that isn't the journal, and making it the journal.
ghost use Rattle.std.specs.Prelude.{◌≡◌, ◌<◌, ◌≤◌, ◌+◌, ◌/◌, ◌%◌, ◌^◌, [], ◌∷◌, ◌++◌, ℕ, List, length, vec_capacity, OnOk};
ghost use Rattle.ox_outside.specs.Causes.{HasCause};
ghost use Rattle.ox_outside.specs.Disk.{CallsLater, IsSynced, LeavesOnly};
ghost use Rattle.ox_journal.specs.Append.{WithOrWithout};
ghost use Rattle.ox_journal.specs.Calls.{Calls};
ghost use Rattle.ox_journal.specs.Filling.{Fills, Gathers};
ghost use Rattle.ox_journal.specs.Half.{Shut};
ghost use Rattle.ox_journal.specs.Pair.{IsAside};

use crate::record::open_gate;
use ox_outside::{Disk, Failed};

pub const PIECE: usize = 1_048_576;

/// Writes a piece behind what is filled, without a sync.
pub fn fill_piece<D: Disk>(disk: &mut D, at: u64, piece: &[u8]) -> Result<(), Failed>
    requires small { at < 2 ^ 63 }
    requires told { D.tells → (text : List ℕ) × Fills (D.shows disk.old) text × (at ≡ length text) }
    ensures done { (text : List ℕ) → D.tells → Fills (D.shows disk.old) text → at ≡ length text
        → OnOk result (Fills (D.shows disk.new) (text ++ piece.now)) }
    ensures any_moment { (text : List ℕ) → D.tells → Fills (D.shows disk.old) text → at ≡ length text
        → LeavesOnly (D.shows disk.old) (D.shows disk.new) (Shut []) }
    ensures fits { OnOk result (at + length piece.now + 1 < 2 ^ 63) }
    ensures calls { D.tells → CallsLater 1 (D.shows disk.old) (D.shows disk.new) }
    ensures cause { HasCause (D.faults disk.old) (D.faults disk.new) result }
{
    disk.write_at(at + 1, piece)?;
    Ok(())
}

/// Adds no more bytes than a piece has to a text: a whole piece is written, the rest waits in the buffer.
pub fn fill_once<D: Disk>(
    disk: &mut D,
    filled: &mut u64,
    buffer: &mut Vec<u8>,
    bytes: &[u8],
) -> Result<(), Failed>
    requires size { length bytes.now ≤ 1048576 }
    requires small { filled.old < 2 ^ 63 }
    requires gathered { length buffer.old.items < 1048576 }
    requires room { 5242885 ≤ vec_capacity buffer.old }
    requires told { D.tells → (text : List ℕ) × Gathers (D.shows disk.old) filled.old buffer.old.items text }
    ensures done { (text : List ℕ) → D.tells → Gathers (D.shows disk.old) filled.old buffer.old.items text
        → OnOk result (Gathers (D.shows disk.new) filled.new buffer.new.items (text ++ bytes.now)) }
    ensures any_moment { (text : List ℕ) → D.tells → Gathers (D.shows disk.old) filled.old buffer.old.items text
        → LeavesOnly (D.shows disk.old) (D.shows disk.new) (Shut []) }
    ensures aside { (round : ℕ) (text : List ℕ) → D.tells → Gathers (D.shows disk.old) filled.old buffer.old.items text
        → IsAside round (D.shows disk.old) → OnOk result (IsAside round (D.shows disk.new)) }
    ensures small { filled.new < 2 ^ 63 }
    ensures gathered { length buffer.new.items < 1048576 }
    ensures room { 5242885 ≤ vec_capacity buffer.new }
    ensures pending { OnOk result (length buffer.new.items ≡ (length buffer.old.items + length bytes.now) % 1048576) }
    ensures calls { D.tells → OnOk result (Calls ((length buffer.old.items + length bytes.now) / 1048576) (D.shows disk.old) (D.shows disk.new)) }
    ensures cause { HasCause (D.faults disk.old) (D.faults disk.new) result }
{
    let room = PIECE - buffer.len();
    if bytes.len() < room {
        let _ = buffer.extend_from_slice(bytes);
        return Ok(());
    }
    let _ = buffer.extend_from_slice(&bytes[..room]);
    let written = fill_piece(disk, *filled, &*buffer);
    buffer.clear();
    written?;
    *filled += PIECE as u64;
    let _ = buffer.extend_from_slice(&bytes[room..]);
    Ok(())
}

/// Adds bytes to a text, a piece at a time.
pub fn fill_all<D: Disk>(
    disk: &mut D,
    filled: &mut u64,
    buffer: &mut Vec<u8>,
    bytes: &[u8],
) -> Result<(), Failed>
    requires small { filled.old < 2 ^ 63 }
    requires gathered { length buffer.old.items < 1048576 }
    requires room { 5242885 ≤ vec_capacity buffer.old }
    requires told { D.tells → (text : List ℕ) × Gathers (D.shows disk.old) filled.old buffer.old.items text }
    ensures done { (text : List ℕ) → D.tells → Gathers (D.shows disk.old) filled.old buffer.old.items text
        → OnOk result (Gathers (D.shows disk.new) filled.new buffer.new.items (text ++ bytes.now)) }
    ensures any_moment { (text : List ℕ) → D.tells → Gathers (D.shows disk.old) filled.old buffer.old.items text
        → LeavesOnly (D.shows disk.old) (D.shows disk.new) (Shut []) }
    ensures aside { (round : ℕ) (text : List ℕ) → D.tells → Gathers (D.shows disk.old) filled.old buffer.old.items text
        → IsAside round (D.shows disk.old) → OnOk result (IsAside round (D.shows disk.new)) }
    ensures small { filled.new < 2 ^ 63 }
    ensures gathered { length buffer.new.items < 1048576 }
    ensures room { 5242885 ≤ vec_capacity buffer.new }
    ensures pending { OnOk result (length buffer.new.items ≡ (length buffer.old.items + length bytes.now) % 1048576) }
    ensures calls { D.tells → OnOk result (Calls ((length buffer.old.items + length bytes.now) / 1048576) (D.shows disk.old) (D.shows disk.new)) }
    ensures cause { HasCause (D.faults disk.old) (D.faults disk.new) result }
{
    let mut at = 0;
    while at < bytes.len() {
        let end = next_end(at, bytes.len());
        fill_once(disk, filled, buffer, &bytes[at..end])?;
        at = end;
    }
    Ok(())
}

// The end of the piece that begins here.
fn next_end(at: usize, len: usize) -> usize
    requires { at < len }
    ensures later { at < result }
    ensures within { result ≤ len }
    ensures short { result ≤ at + 1048576 }
{
    if len - at < PIECE { len } else { at + PIECE }
}

/// Writes the rest and a closed gate, and then opens the master gate.
pub fn switch_half<D: Disk>(disk: &mut D, at: u64, rest: &[u8]) -> Result<(), Failed>
    requires small { at < 2 ^ 63 }
    requires told { D.tells → (front : List ℕ) × Fills (D.shows disk.old) front × (at ≡ length front) }
    ensures done { (front text : List ℕ) → D.tells → Fills (D.shows disk.old) front → at ≡ length front → front ++ rest.now ≡ text ++ 0 ∷ []
        → OnOk result (Shut (1 ∷ text) ((D.shows disk.new).seen) × IsSynced (D.shows disk.new)) }
    ensures any_moment { (front text : List ℕ) → D.tells → Fills (D.shows disk.old) front → at ≡ length front → front ++ rest.now ≡ text ++ 0 ∷ []
        → LeavesOnly (D.shows disk.old) (D.shows disk.new) (WithOrWithout [] text) }
    ensures fits { OnOk result (at + length rest.now + 1 < 2 ^ 63) }
    ensures calls { D.tells → OnOk result (CallsLater 4 (D.shows disk.old) (D.shows disk.new)) }
    ensures cause { HasCause (D.faults disk.old) (D.faults disk.new) result }
{
    fill_piece(disk, at, rest)?;
    open_gate(disk, 0)?;
    Ok(())
}
