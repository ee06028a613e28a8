ghost use Rattle.std.specs.Prelude.{◌≡◌, ◌++◌, ℕ, List, [], OnOk, OnErr, Err};
ghost use Rattle.ox_frame.specs.Frame.{frame_of, IsPayload};
ghost use Rattle.ox_frame.specs.Front.{next_of, Reads, GivesFrame, IfFrame};
ghost use Rattle.ox_frame.specs.declared.fault.FrameFault.{FrameFault as Fault};

use crate::fault::NextFault;
use crate::text::front;
use bytes::BytesMut;
use ox_types::{NoMemory, Octets};
use std::alloc::Global;
use std::marker::Model;

/// Takes the frames off a stream that comes in pieces (docs/FORMATS.md). Contracts see it as the rest: the bytes that
/// came and were given in no frame.
///
/// All calls together cost time linear in the bytes that came, however they were cut and however small the frames are:
/// a frame that is given leaves the bytes behind it where they are, and they move only where that frees as much as is
/// moved, or where the buffer grows.
#[derive(Debug, Drop)]
pub struct Decoder {
    rest: BytesMut,
    alloc: Global,
}

impl Model for Decoder {
    ghost use Rattle.std.specs.Prelude.{List, ℕ};

    ghost Value = { List ℕ };

    ghost view = { λ d. d.rest.items };
}

/// Takes the frame at the front off the rest.
#[tactic(auto, unfolding(crate::specs::Front::next_of))]
fn take_off(alloc: Global, rest: &mut BytesMut) -> Result<Option<Octets>, NextFault>
    ensures exact { Reads result rest.old.items rest.new.items }
    ensures found { IfFrame result (λ payload. IsPayload payload × (rest.old.items ≡ frame_of payload ++ rest.new.items)) }
{
    match front(rest.as_slice()) {
        Err(fault) => Err(NextFault::Frame(fault)),
        Ok(None) => Ok(None),
        Ok(Some(len)) => {
            let end = len + 4;
            let payload = Octets::from_slice(alloc, &rest.as_slice()[4..end])?;
            rest.advance(end);
            Ok(Some(payload))
        }
    }
}

impl Decoder {
    pub fn empty(alloc: Global) -> Decoder
        ensures { result ≡ [] }
    {
        Decoder {
            rest: BytesMut::new(alloc),
            alloc,
        }
    }

    /// Takes the next piece of the stream.
    pub fn feed(&mut self, piece: &[u8]) -> Result<(), NoMemory>
        ensures ok { OnOk result (self.new ≡ self.old ++ piece.now) }
        ensures err { OnErr result (self.new ≡ self.old) }
        // A fault is not mended by what follows.
        ensures for_good { (fault : Fault) → next_of self.old ≡ Err fault → next_of self.new ≡ Err fault }
    {
        self.rest.extend_from_slice(piece)?;
        Ok(())
    }

    /// The next frame's bytes, or None until more of the stream has come.
    pub fn next(&mut self) -> Result<Option<Octets>, NextFault>
        // What is given stood at the front of the rest as a frame, and is taken off.
        ensures found { IfFrame result (λ payload. IsPayload payload × (self.old ≡ frame_of payload ++ self.new)) }
        // A frame that stands at the front of the rest is given, unless memory runs out.
        ensures only { (payload more : List ℕ) → IsPayload payload → self.old ≡ frame_of payload ++ more → GivesFrame result self.new payload more }
        // Which of the answers it is, and what is left.
        ensures exact { Reads result self.old self.new }
    {
        take_off(self.alloc, &mut self.rest)
    }
}
