// Reading the records of a journal.
ghost use Rattle.std.specs.Prelude.{◌≡◌, ◌≢◌, ◌⊎◌, ◌≤◌, ℕ, List, [], ◌∷◌, ◌++◌, ◌+◌, length, drop, Ok, Err, Some, None, IfOk, IfErr, IsErrOf, IfSome};
ghost use Rattle.ox_types.specs.Lists.{first_of};
ghost use Rattle.ox_outside.specs.Causes.{Rose};
ghost use Rattle.ox_outside.specs.Disk.{Quiet};
ghost use Rattle.ox_journal.specs.Next.{next_of, StandsAt};
ghost use Rattle.ox_journal.specs.Pair.{IsHalf, IsOpen, IsReading};
ghost use Rattle.ox_journal.specs.declared.state.State.TheVariants.{Open, Reading, Broken};
ghost use Rattle.ox_journal.specs.declared.reading.Next.TheVariants.{Cut};
ghost use Rattle.ox_journal.specs.declared.fault.JournalFault.TheVariants.{Damaged, DiskFault, NoMemory};

use crate::fault::JournalFault;
use crate::journal::Journal;
use crate::reading::read_record;
use crate::state::State;
use ox_outside::Disk;
use ox_types::Octets;

impl<D: Disk> Journal<D> {
    /// The next record, or None once every record was given; from then on, and after `create`, None again. It costs the record's bytes.
    pub fn next_payload(&mut self) -> Result<Option<Octets>, JournalFault>
        requires told { D.tells → self.old.state ≡ Reading
            → (done : List (List ℕ)) × IsReading (D.shows self.old.live) (D.shows self.old.spare) self.old.round self.old.end done }

        ensures given { (done : List (List ℕ)) → D.tells → self.old.state ≡ Reading
            → IsReading (D.shows self.old.live) (D.shows self.old.spare) self.old.round self.old.end done
            → IfOk result (λ given. IfSome given (λ payload. IsReading (D.shows self.new.live) (D.shows self.new.spare) self.new.round self.new.end (done ++ payload ∷ []))) }
        ensures gate { D.tells → self.old.state ≡ Reading
            → IfOk result (λ given. IfSome given (λ payload. StandsAt ((D.shows self.old.live).seen) self.old.end payload)) }
        ensures none { (done : List (List ℕ)) → D.tells → self.old.state ≡ Reading
            → IsReading (D.shows self.old.live) (D.shows self.old.spare) self.old.round self.old.end done
            → result ≡ Ok None → IsOpen (D.shows self.new.live) (D.shows self.new.spare) self.new.round self.new.end done }
        ensures held { (done more : List (List ℕ)) → D.tells → self.old.state ≡ Reading
            → IsReading (D.shows self.old.live) (D.shows self.old.spare) self.old.round self.old.end done
            → IsHalf self.old.round (done ++ more) ((D.shows self.old.live).seen)
            → IfOk result (λ given. given ≡ first_of more) }
        ensures held_err { (done more : List (List ℕ)) → D.tells → self.old.state ≡ Reading
            → IsReading (D.shows self.old.live) (D.shows self.old.spare) self.old.round self.old.end done
            → IsHalf self.old.round (done ++ more) ((D.shows self.old.live).seen)
            → IfErr result (λ e. (e ≡ DiskFault) ⊎ (e ≡ NoMemory)) }
        ensures damaged { D.tells → (half at : ℕ) → result ≡ Err (Damaged half at)
            → (half ≡ self.old.half) × (at ≡ self.old.end) × (next_of (drop self.old.end ((D.shows self.old.live).seen)) ≡ Cut) }
        ensures again { (done : List (List ℕ)) → D.tells → self.old.state ≡ Reading
            → IsReading (D.shows self.old.live) (D.shows self.old.spare) self.old.round self.old.end done
            → IfErr result (λ e. IsReading (D.shows self.new.live) (D.shows self.new.spare) self.new.round self.new.end done) }
        ensures quiet { D.tells → self.old.state ≡ Reading → Quiet (D.shows self.old.live) (D.shows self.new.live) }
        ensures spare { self.new.spare ≡ self.old.spare }
        ensures same { (self.new.half ≡ self.old.half) × (self.new.round ≡ self.old.round) }
        ensures rewrite { (self.new.filled ≡ self.old.filled) × (self.new.left ≡ self.old.left) × (self.new.buffer.items ≡ self.old.buffer.items) }
        ensures end { IfOk result (λ given. IfSome given (λ payload. self.new.end ≡ self.old.end + (length payload + 5))) }
        ensures state_some { IfOk result (λ given. IfSome given (λ payload. (self.old.state ≡ Reading) × (self.new.state ≡ Reading))) }
        ensures state_none { result ≡ Ok None → self.old.state ≡ Reading → self.new.state ≡ Open }
        ensures state_fault { IsErrOf result DiskFault → self.new.state ≡ Broken }
        ensures state_err { IfErr result (λ e. e ≢ DiskFault → (self.old.state ≡ Reading) × (self.new.state ≡ Reading)) }
        ensures none_left { self.old.state ≢ Reading → self.old.state ≢ Broken → result ≡ Ok None }
        ensures past { self.old.state ≢ Reading → self.new ≡ self.old }
        ensures only { IfErr result (λ e. (e ≡ DiskFault) ⊎ (e ≡ NoMemory) ⊎ (e ≡ Damaged self.old.half self.old.end)) }
        ensures cause { IsErrOf result DiskFault → (self.old.state ≡ Broken) ⊎ Rose (D.faults self.old.live) (D.faults self.new.live) }
        ensures later { D.faults self.old.live ≤ D.faults self.new.live }
    {
        if let State::Broken = self.state {
            return Err(JournalFault::DiskFault);
        }
        let State::Reading = self.state else {
            return Ok(None);
        };
        match read_record(self.alloc, &mut self.live, self.half, self.end) {
            Ok(Some(payload)) => {
                self.end += payload.len() as u64 + 5;
                Ok(Some(payload))
            }
            Ok(None) => {
                self.state = State::Open;
                Ok(None)
            }
            Err(JournalFault::DiskFault) => {
                self.state = State::Broken;
                Err(JournalFault::DiskFault)
            }
            Err(fault) => Err(fault),
        }
    }
}
