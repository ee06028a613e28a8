//! The worked rows of the store, computed by its definitions.
#![tactic(auto)]

ghost use Rattle.std.specs.Prelude.{◌≡◌, ◌∷◌, [], Some, None, true, false, codes, length, replicate};
ghost use Rattle.ox_order.specs.declared.range.Lo.TheVariants.{At};
ghost use Rattle.ox_order.specs.declared.range.Hi.TheVariants.{Before, End};
ghost use Rattle.ox_ops.specs.declared.reply.OpReply.TheVariants as reply;
ghost use Rattle.ox_ops.specs.declared.query.ShardQuery.TheVariants as query;
ghost use Rattle.ox_ops.specs.declared.query.Compare.TheVariants.{Equal, Floor};
ghost use Rattle.ox_ops.specs.declared.answer.ShardAnswer.TheVariants as answer;
ghost use Rattle.ox_ops.specs.declared.notice.Notice.TheVariants as notice;
ghost use Rattle.ox_ops.specs.Page.{page_of, is_more};
ghost use Rattle.ox_rows.specs.Rows.{replies_of, asked_after, all_keys, keys_order, expectations, sequence, sessions, retention, batch_at, after_falling, owners, ranged, once, itself};

/// Keys are listed in their order, and a range by slashes.
pub fn row_of_key_order()
    ensures all { asked_after keys_order (query.List all_keys None) ≡ answer.Keys (codes "a" ∷ codes "b" ∷ codes "/a" ∷ codes "/b" ∷ codes "/a/a" ∷ codes "/a/b" ∷ codes "/b/a" ∷ []) false }
    ensures range { asked_after keys_order (query.List (record { lo = At (codes "/a/"); hi = Before (codes "/a//") }) None) ≡ answer.Keys (codes "/a/a" ∷ codes "/a/b" ∷ []) false }
{}

/// Expectations are tested against what is there.
pub fn row_of_expectations()
    ensures { replies_of expectations ≡ reply.Put (codes "a") (once 0) ∷ reply.UnexpectedVersion (Some 0) ∷ reply.Deleted ∷ reply.UnexpectedVersion None ∷ [] }
{}

/// A sequence goes on from its greatest key, and ends at the greatest number.
pub fn row_of_sequence_keys()
    ensures { replies_of sequence ≡ reply.Put (codes "q-00000000000000000001") (once 0) ∷ reply.Put (codes "q-00000000000000000004") (once 1) ∷ reply.SequenceSpent 0 ∷ [] }
{}

/// A close takes the records that now have the session.
pub fn row_of_sessions()
    ensures replies { replies_of sessions ≡ reply.Opened 1 ∷ reply.Put (codes "e1") (once 0) ∷ reply.Put (codes "e2") (once 1) ∷ reply.Put (codes "e1") (record { version = 2; modifications = 1; created = 0; modified = 0 }) ∷ reply.Closed 1 ∷ [] }
    ensures keys { asked_after sessions (query.List all_keys None) ≡ answer.Keys (codes "e1" ∷ []) false }
    ensures notices { asked_after sessions (query.Notices 4 0) ≡ answer.Notices (record { offset = 5; notice = notice.Deleted (codes "e2") } ∷ []) false }
{}

/// Notices are dropped an hour and a millisecond later.
pub fn row_of_retention()
    ensures after_1 { asked_after (retention 3600001) (query.Notices 1 0) ≡ answer.Notices (record { offset = 2; notice = notice.Created (codes "b") 1 } ∷ []) false }
    ensures after_0 { asked_after (retention 3600001) (query.Notices 0 0) ≡ answer.NotRetained 0 1 }
    ensures after_2 { asked_after (retention 3600001) (query.Notices 2 0) ≡ answer.Notices [] false }
    ensures in_time { asked_after (retention 3600000) (query.Notices 0 0) ≡ answer.Notices (record { offset = 1; notice = notice.Created (codes "a") 0 } ∷ record { offset = 2; notice = notice.Created (codes "b") 1 } ∷ []) false }
{}

/// Where times fall, the low mark is that of the batch that was dropped last, and those before it are kept.
pub fn row_of_falling_times()
    ensures low { after_falling.low ≡ 2 }
    ensures kept { after_falling.batches ≡ batch_at 1 1 ∷ batch_at 3 1 ∷ [] }
{}

/// Equal secondary keys go by key: a get of the key takes the first, and a floor the last.
pub fn row_of_indexes()
    ensures list { asked_after owners (query.List (record { lo = At (codes "b1"); hi = End }) (Some (codes "owner"))) ≡ answer.Keys (codes "a" ∷ codes "b" ∷ []) false }
    ensures get { asked_after owners (query.Get Equal (codes "b1") (Some (codes "owner"))) ≡ answer.Got (Some (record { key = codes "a"; value = codes "x"; meta = once 0; session = None; indexes = record { name = codes "owner"; key = codes "b1" } ∷ [] })) }
    ensures floor { asked_after owners (query.Get Floor (codes "b1") (Some (codes "owner"))) ≡ answer.Got (Some (record { key = codes "b"; value = codes "y"; meta = once 1; session = None; indexes = record { name = codes "owner"; key = codes "b1" } ∷ [] })) }
{}

/// A range delete that removes nothing leaves no notice.
pub fn row_of_range_deletes()
    ensures replies { replies_of ranged ≡ reply.Put (codes "a") (once 0) ∷ reply.Put (codes "b") (once 1) ∷ reply.Ranged 2 ∷ reply.Ranged 0 ∷ [] }
    ensures notices { asked_after ranged (query.Notices 0 0) ≡ answer.Notices (record { offset = 1; notice = notice.Created (codes "a") 0 } ∷ record { offset = 2; notice = notice.Created (codes "b") 1 } ∷ record { offset = 3; notice = notice.Ranged (record { lo = At (codes "a"); hi = Before (codes "c") }) } ∷ []) false }
{}

/// A page ends at 1,000 items and at 3,145,728 bytes, and says whether an item was left out.
pub fn row_of_pages()
    ensures items { length (page_of itself (replicate 1001 1)) ≡ 1000 }
    ensures left_out { is_more itself (replicate 1001 1) ≡ true }
    ensures whole { is_more itself (replicate 1000 1) ≡ false }
    ensures bytes { page_of itself (3145727 ∷ 1 ∷ 1 ∷ []) ≡ 3145727 ∷ 1 ∷ [] }
    ensures too_long { page_of itself (3145727 ∷ 2 ∷ 1 ∷ []) ≡ 3145727 ∷ [] }
{}
