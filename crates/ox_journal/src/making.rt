// The master gate of a half.
ghost use Rattle.std.specs.Prelude.{◌≡◌, ◌∷◌, [], OnOk};
ghost use Rattle.ox_outside.specs.Causes.{HasCause};
ghost use Rattle.ox_outside.specs.Disk.{CallsLater, IsSynced, LeavesOnly};
ghost use Rattle.ox_journal.specs.Calls.{closing_calls};
ghost use Rattle.ox_journal.specs.Half.{Shut};
ghost use Rattle.ox_journal.specs.Head.{head_of};
ghost use Rattle.ox_journal.specs.Made.{DeadOr, DeadOrMade};
ghost use Rattle.ox_journal.specs.Pair.{IsClosed, IsHalf};
ghost use Rattle.ox_journal.specs.declared.head.Head.TheVariants.{Dead};

use crate::record::add_record;
use ox_outside::{Disk, Failed};

/// Closes the master gate of a half that is blank or live. Another is closed, and a torn write could open it.
pub fn close_gate<D: Disk>(disk: &mut D) -> Result<(), Failed>
    ensures done { D.tells → IsSynced (D.shows disk.old) → OnOk result (Shut [] ((D.shows disk.new).seen) × IsSynced (D.shows disk.new)) }
    ensures any_moment { D.tells → IsSynced (D.shows disk.old)
        → LeavesOnly (D.shows disk.old) (D.shows disk.new) (DeadOr (head_of ((D.shows disk.old).seen))) }
    ensures closed { D.tells → IsClosed (D.shows disk.old) → OnOk result (IsClosed (D.shows disk.new)) }
    ensures closed_any_moment { D.tells → IsClosed (D.shows disk.old) → LeavesOnly (D.shows disk.old) (D.shows disk.new) (Shut []) }
    ensures calls { D.tells → OnOk result (CallsLater (closing_calls ((D.shows disk.old).seen)) (D.shows disk.old) (D.shows disk.new)) }
    ensures cause { HasCause (D.faults disk.old) (D.faults disk.new) result }
{
    let mut bytes = [0u8; 2];
    let n = disk.read_at(0, &mut bytes)?;
    if n == 2 && bytes[0] != 1 {
        return Ok(());
    }
    disk.write_at(0, &[0])?;
    disk.sync()?;
    Ok(())
}

/// Makes a half that isn't live one of round 0 without a record.
pub fn make_half<D: Disk>(disk: &mut D) -> Result<(), Failed>
    requires synced { D.tells → IsSynced (D.shows disk.old) }
    requires dead { D.tells → head_of ((D.shows disk.old).seen) ≡ Dead }
    ensures done { D.tells → OnOk result (IsHalf 0 [] ((D.shows disk.new).seen) × IsSynced (D.shows disk.new)) }
    ensures any_moment { D.tells → LeavesOnly (D.shows disk.old) (D.shows disk.new) DeadOrMade }
    ensures cause { HasCause (D.faults disk.old) (D.faults disk.new) result }
{
    close_gate(disk)?;
    add_record(disk, 0, &[79, 88, 73, 65, 74, 82, 78, 49, 0, 0])?;
    Ok(())
}
