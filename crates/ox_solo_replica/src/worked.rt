// A worked history.
ghost use Rattle.std.specs.Prelude.{◌≡◌, [], ◌∷◌};
ghost use Rattle.ox_types.specs.declared.durable.KeptAs.TheVariants as kept_is;
ghost use Rattle.ox_types.specs.declared.peer.Peer.TheVariants.{Coordinator};
ghost use Rattle.ox_wire.specs.declared.body.Body.TheVariants.{Ready};
ghost use Rattle.ox_wire.specs.declared.message.Outcome.TheVariants.{Ack};
ghost use Rattle.ox_solo_replica.specs.Step.{output_of};
ghost use Rattle.ox_solo_replica.specs.Worked.{fenced, led, stored};

/// What a node alone says and keeps, from its first term to its first write.
pub fn worked_rows()
    ensures fenced { (output_of fenced).kept ≡ kept_is.Term 1 ∷ [] }
    ensures led { (output_of led).kept ≡ kept_is.Lead ∷ kept_is.Append 1 ∷ [] }
    ensures ready { (output_of led).sends ≡ record { to = Coordinator 4; body = Ready 1 } ∷ [] }
    ensures stored { output_of stored ≡ record { kept = kept_is.Append 1 ∷ []; sends = []; replies = record { tag = 7; outcome = Ack 1 1 (0 ∷ []) } ∷ [] } }
    ensures value { stored.state.live.machine ≡ 5 }
    ensures commit { stored.state.live.commit ≡ 2 }
{}
