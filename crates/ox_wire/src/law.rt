ghost use Rattle.std.specs.Prelude.{◌≡◌, ◌++◌, ◌↔◌, ℕ, List, [], IsTrue};
ghost use Rattle.ox_types.specs.declared.log.Entry.{Entry as AnyEntry};
ghost use Rattle.ox_types.specs.declared.log.TermTable.{TermTable as AnyTable};
ghost use Rattle.ox_types.specs.declared.snapshot.Chunk.{Chunk as AnyChunk};
ghost use Rattle.ox_bytes.specs.LogForms.{term_table, chunk};
ghost use Rattle.ox_quorum.specs.declared.config.Config.{Config as AnyConfig};
ghost use Rattle.ox_wire.specs.declared.body.Follower.{Follower as AnyFollower};
ghost use Rattle.ox_wire.specs.declared.body.Body.TheVariants as body_is;
ghost use Rattle.ox_wire.specs.declared.message.Message.{Message as AnyMessage};
ghost use Rattle.ox_wire.specs.BodyForms.{body as body_form};
ghost use Rattle.ox_wire.specs.Rules.{IsAppend, IsBecomeLeader, IsTable, IsPiece};
ghost use Rattle.ox_wire.specs.Spells.{Spells};

/// Bytes are one message at most, a message has one text, and no text of a message begins another's.
pub fn law_spelling()
    ensures one_message { (bytes : List ℕ) (m n : AnyMessage) → Spells bytes m → Spells bytes n → m ≡ n }
    ensures one_text { (bytes other : List ℕ) (m : AnyMessage) → Spells bytes m → Spells other m → bytes ≡ other }
    ensures begins_none { (bytes rest : List ℕ) (m n : AnyMessage) → Spells bytes m → Spells (bytes ++ rest) n → (m ≡ n) × (rest ≡ []) }
{}

/// Which Append has a text: its numbers have their bounds, it has at most 64 entries, each of them keeps its own rules, their
/// offsets go on by ones from `from`, and their terms never fall and are at most the message's.
pub fn law_append()
    ensures { (term from commit : ℕ) (entries : List AnyEntry) → IsTrue (body_form.is_lawful (body_is.Append term from commit entries)) ↔ IsAppend term from commit entries }
{}

/// Which BecomeLeader has a text: its term has its bound, the config and each follower keep their own rules, and the
/// followers' ids rise.
pub fn law_become_leader()
    ensures { (term : ℕ) (config : AnyConfig) (followers : List AnyFollower) → IsTrue (body_form.is_lawful (body_is.BecomeLeader term config followers)) ↔ IsBecomeLeader term config followers }
{}

/// Which term table has a text: its numbers have their bounds, terms and last offsets rise from run to run, and none is below
/// the base.
pub fn law_table()
    ensures { (table : AnyTable) → IsTrue (term_table.is_lawful table) ↔ IsTable table }
{}

/// Which piece of a snapshot has a text: its numbers have their bounds, its head isn't above its term, and it is one of the
/// pieces of its total, with just the bytes of that piece.
pub fn law_piece()
    ensures { (piece : AnyChunk) → IsTrue (chunk.is_lawful piece) ↔ IsPiece piece }
{}
