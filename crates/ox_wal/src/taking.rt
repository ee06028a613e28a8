// What the log becomes.
ghost use Rattle.std.specs.Prelude.{◌≡◌, ◌≤◌, ◌+◌, length, vec_capacity};
ghost use Rattle.ox_types.specs.Durable.{blank};
ghost use Rattle.ox_wal.specs.State.{state_of, drafted, IsDraft};

use crate::draft::Draft;
use crate::log::Log;
use ox_types::{Head, Seat, Term};
use std::alloc::Global;

impl Log {
    /// The state before anything was written.
    pub(crate) fn blank(alloc: Global) -> Log
        ensures { state_of result ≡ blank }
    {
        Log {
            term: Term(0),
            seat: Seat::Fenced,
            base: Head {
                term: Term(0),
                count: 0,
            },
            saved: None,
            entries: Vec::new(alloc),
            used: 0,
        }
    }

    /// Takes the draft, for whose entries there is room.
    pub(crate) fn take_draft(&mut self, draft: Draft)
        requires is { IsDraft self.old draft }
        requires room { length self.old.entries.items + length draft.staged.items ≤ vec_capacity self.old.entries }
        ensures state { state_of self.new ≡ drafted self.old draft }
        ensures used { self.new.used ≡ draft.used }
    {
        let Draft {
            term,
            seat,
            keep,
            staged,
            used,
        } = draft;
        let mut staged = staged;
        self.entries.truncate(keep);
        let _ = self.entries.append(&mut staged);
        self.term = term;
        self.seat = seat;
        self.used = used;
    }
}
