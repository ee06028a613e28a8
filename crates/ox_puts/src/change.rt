ghost use Rattle.std.specs.Prelude.{◌≡◌};
ghost use Rattle.ox_puts.specs.Changes.{refusal_of};

use ox_ops::{Notice, OpReply, Record};
use ox_types::List;
use std::alloc::Global;

/// What an operation answered, the records that it replaced or removed, in the order of their keys, and its notice.
#[derive(Debug, Drop)]
pub struct Change {
    pub reply: OpReply,
    pub gone: List<Record>,
    pub notice: Option<Notice>,
}

/// The change of an operation that is refused.
pub fn refusal(alloc: Global, reply: OpReply) -> Change
    ensures { result ≡ refusal_of reply }
{
    Change {
        reply,
        gone: List::new(alloc),
        notice: None,
    }
}
