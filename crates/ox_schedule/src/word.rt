// Words, and the numbers that they say.
ghost use Rattle.std.specs.Prelude.{◌≡◌, ◌≢◌, ◌↔◌, ◌<◌, ◌^◌, ◌∷◌, [], ℕ, map, IfSome, IfNone, IsTrue, decimal, MatchOption};
ghost use Rattle.std.specs.Str.{bytes_eq};
ghost use Rattle.ox_schedule.specs.Outcome.{Gives};
ghost use Rattle.ox_schedule.specs.Reading.{number_of, word_at};

use crate::fault::LineFault;
use itoa::Buffer;
use ox_types::LineRule;

pub fn is(word: &[u8], text: &[u8]) -> bool
    ensures { result ≡ bytes_eq word.now text.now }
{
    word == text
}

/// The first word, and those after it.
pub fn first_word<'a, 'b>(words: &'b [&'a [u8]]) -> Option<(&'a [u8], &'b [&'a [u8]])>
    ensures { MatchOption result (map (λ w. w.now) words.now ≡ []) (λ x. map (λ w. w.now) words.now ≡ x.0.now ∷ map (λ w. w.now) x.1.now) }
{
    match words {
        [] => None,
        [word, rest @ ..] => Some((*word, rest)),
    }
}

/// The next word, and those after it.
pub fn next_word<'a, 'b>(words: &'b [&'a [u8]]) -> Result<(&'a [u8], &'b [&'a [u8]]), LineFault>
    ensures { Gives (λ x. (x.0.now, map (λ w. w.now) x.1.now)) result (word_at (map (λ w. w.now) words.now)) }
{
    let [word, rest @ ..] = words else {
        return Err(LineFault::Rule(LineRule::Word));
    };
    Ok((*word, rest))
}

/// The number that a word says, in its one spelling.
fn number(word: &[u8]) -> Option<u64>
    ensures found { IfSome result (λ n. (word.now ≡ decimal n) × (n < 2 ^ 64)) }
    ensures none { IfNone result ((n : ℕ) → n < 2 ^ 64 → word.now ≢ decimal n) }
{
    match std::str::from_utf8(word) {
        Ok(text) => match text.parse::<u64>() {
            Ok(number) => is_number(word, number).then_some(number),
            Err(_) => None,
        },
        Err(_) => None,
    }
}

/// Whether the word says this number.
fn is_number(word: &[u8], number: u64) -> bool
    ensures { IsTrue result ↔ (word.now ≡ decimal number) }
{
    is(word, Buffer::new().format(number).as_bytes())
}

pub fn read_number(word: &[u8]) -> Result<u64, LineFault>
    ensures { Gives (λ n. n) result (number_of word.now) }
{
    match number(word) {
        Some(number) => Ok(number),
        None => Err(LineFault::Rule(LineRule::Number)),
    }
}
