ghost use Rattle.std.specs.Prelude.{◌≡◌, ◌++◌, ◌∷◌, [], IfOk, OnOk};
ghost use Rattle.ox_ops.specs.Apply.{some_notice};

use ox_ops::{Notice, OpReply};
use ox_puts::Change;
use ox_types::{List, NoMemory};
use std::alloc::Global;

/// What the operations of a command have made so far.
#[derive(Debug, Drop)]
pub struct Done {
    pub replies: List<OpReply>,
    pub notices: List<Notice>,
}

impl Done {
    pub fn nothing(alloc: Global) -> Done
        ensures { result ≡ record { replies = []; notices = [] } }
    {
        Done {
            replies: List::new(alloc),
            notices: List::new(alloc),
        }
    }

    /// One reply, and nothing else.
    pub fn alone(alloc: Global, reply: OpReply) -> Result<Done, NoMemory>
        ensures { IfOk result (λ done. done ≡ record { replies = reply ∷ []; notices = [] }) }
    {
        let mut done = Done::nothing(alloc);
        done.replies.push(reply)?;
        Ok(done)
    }

    pub fn add(&mut self, change: Change) -> Result<(), NoMemory>
        ensures { OnOk result (self.new ≡ record { replies = self.old.replies ++ change.reply ∷ []; notices = self.old.notices ++ some_notice change.notice }) }
    {
        let Change {
            reply,
            gone: _,
            notice,
        } = change;
        self.replies.push(reply)?;
        match notice {
            Some(notice) => self.notices.push(notice),
            None => Ok(()),
        }
    }
}
