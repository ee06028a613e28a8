// One record more, on one half.
ghost use Rattle.std.specs.Prelude.{◌≡◌, ◌<◌, ◌+◌, ◌^◌, ◌∷◌, ◌++◌, ℕ, List, length, OnOk};
ghost use Rattle.ox_outside.specs.Causes.{HasCause};
ghost use Rattle.ox_outside.specs.Disk.{IsSynced, CallsLater, LeavesOnly};
ghost use Rattle.ox_journal.specs.Append.{Starts, Opens, WithOrWithout};
ghost use Rattle.ox_journal.specs.Half.{Shut};

use ox_outside::{Disk, Failed};

/// Opens the gate at `end`, behind which a record and a closed gate stand.
pub fn open_gate<D: Disk>(disk: &mut D, end: u64) -> Result<(), Failed>
    requires place { D.tells → end < length ((D.shows disk.old).seen) }

    ensures done { (text record_is : List ℕ) → D.tells → Opens (D.shows disk.old) end text record_is
        → OnOk result (Shut (text ++ 1 ∷ record_is) ((D.shows disk.new).seen) × IsSynced (D.shows disk.new)) }
    ensures any_moment { (text record_is : List ℕ) → D.tells → Opens (D.shows disk.old) end text record_is
        → LeavesOnly (D.shows disk.old) (D.shows disk.new) (WithOrWithout text record_is) }
    ensures calls { D.tells → OnOk result (CallsLater 3 (D.shows disk.old) (D.shows disk.new)) }
    ensures cause { HasCause (D.faults disk.old) (D.faults disk.new) result }
{
    disk.sync()?;
    disk.write_at(end, &[1])?;
    disk.sync()?;
    Ok(())
}

/// Writes a record and a closed gate behind the gate at `end`, and then opens that gate.
pub fn add_record<D: Disk>(disk: &mut D, end: u64, bytes: &[u8]) -> Result<(), Failed>
    requires place { D.tells → end < length ((D.shows disk.old).seen) }
    requires small { end < 2 ^ 63 }

    ensures done { (text record_is : List ℕ) → D.tells → Starts (D.shows disk.old) end text record_is bytes.now
        → OnOk result (Shut (text ++ 1 ∷ record_is) ((D.shows disk.new).seen) × IsSynced (D.shows disk.new)) }
    ensures any_moment { (text record_is : List ℕ) → D.tells → Starts (D.shows disk.old) end text record_is bytes.now
        → LeavesOnly (D.shows disk.old) (D.shows disk.new) (WithOrWithout text record_is) }
    ensures fits { OnOk result (end + length bytes.now + 1 < 2 ^ 63) }
    ensures calls { D.tells → OnOk result (CallsLater 4 (D.shows disk.old) (D.shows disk.new)) }
    ensures cause { HasCause (D.faults disk.old) (D.faults disk.new) result }
{
    disk.write_at(end + 1, bytes)?;
    open_gate(disk, end)
}
