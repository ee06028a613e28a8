// What holds of every line and every text.
ghost use Rattle.std.specs.Prelude.{◌≡◌, ◌≢◌, ◌↔◌, ◌⊎◌, ◌<◌, ◌^◌, Ok, Err, true, false, List, [], ℕ, length};
ghost use Rattle.std.specs.List.{list_all};
ghost use Rattle.ox_types.specs.declared.ended.LineRule.{LineRule};
ghost use Rattle.ox_types.specs.declared.ended.LineRule.TheVariants as rule;
ghost use Rattle.ox_schedule.specs.Events.{Event};
ghost use Rattle.ox_schedule.specs.declared.schedule.Places.{Places};
ghost use Rattle.ox_schedule.specs.declared.schedule.Schedule.{Schedule};
ghost use Rattle.ox_schedule.specs.Shape.{event_fits};
ghost use Rattle.ox_schedule.specs.Spelling.{SpellsEvent, is_word, words_of};
ghost use Rattle.ox_schedule.specs.Reading.{line_at};
ghost use Rattle.ox_schedule.specs.Lawful.{asks_encodable, is_of_one_node, blocks_fit};
ghost use Rattle.ox_schedule.specs.Schedule.{SpellsSchedule, IsSchedule, IsFirstBadLine, schedule_at};

/// A line is read as an event exactly where it spells the event.
pub fn law_line()
    ensures { (p : Places) (line : List ℕ) (e : Event) → (line_at p line ≡ Ok e) ↔ SpellsEvent p line e }
{}

/// `bytes` comes first, then `word`, which says exactly that the shape is wrong; each other rule is one of single words.
pub fn law_rules()
    ensures bytes { (p : Places) (line : List ℕ) → (line_at p line ≡ Err rule.Bytes) ↔ ((line ≢ []) × (list_all is_word (words_of line) ≡ false)) }
    ensures word { (p : Places) (line : List ℕ) → (line_at p line ≡ Err rule.Word) ↔ ((line ≡ []) ⊎ ((list_all is_word (words_of line) ≡ true) × (event_fits (words_of line) ≡ false))) }
{}

/// Bytes are read as a schedule exactly where they spell it.
pub fn law_schedule()
    ensures { (bytes : List ℕ) (s : Schedule) → (schedule_at bytes ≡ Ok s) ↔ SpellsSchedule bytes s }
{}

/// Where bytes spell no schedule, reading tells the line behind a front that spells one, and the first rule that it breaks.
pub fn law_first_bad_line()
    ensures { (bytes : List ℕ) (number : ℕ) (broken : LineRule) → (schedule_at bytes ≡ Err (number, broken)) ↔ IsFirstBadLine bytes number broken }
{}

/// Bytes spell one schedule at most.
pub fn law_one_schedule()
    ensures { (bytes : List ℕ) (s t : Schedule) → SpellsSchedule bytes s → SpellsSchedule bytes t → s ≡ t }
{}

/// Each request of a schedule is lawful in the grammar of commands and queries, where the bytes are fewer than 2^32: so a
/// command may be tested by `check` of `ox_ops`, and it and a query can be encoded.
pub fn law_encodable()
    ensures { (bytes : List ℕ) (s : Schedule) → SpellsSchedule bytes s → length bytes < 2 ^ 32 → list_all asks_encodable s.events ≡ true }
{}

/// Each event of a schedule is at node 1 and shard 0, where it names them, and its numbers are in their range; so are the
/// blocks, where the first line says how many. Of what bytes spell, `valid` of `SpellsSchedule` says that it is a schedule.
pub fn law_places()
    ensures events { (s : Schedule) → IsSchedule s → list_all is_of_one_node s.events ≡ true }
    ensures blocks { (s : Schedule) → IsSchedule s → blocks_fit s.first ≡ true }
{}
