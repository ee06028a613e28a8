// Keys and values, as their words say them.
ghost use Rattle.std.specs.Prelude.{◌≡◌, true, IfOk};
ghost use Rattle.std.specs.Str.{bytes_eq};
ghost use Rattle.std.specs.List.{list_all};
ghost use Rattle.percent_encoding.specs.Percent.{percent_decode};
ghost use Rattle.ox_ops.specs.Forms as form;
ghost use Rattle.ox_schedule.specs.Outcome.{Gives};
ghost use Rattle.ox_text.specs.Words.{spelt, value_word};
ghost use Rattle.ox_schedule.specs.Spelling.{is_byte};
ghost use Rattle.ox_schedule.specs.Reading.{key_of, value_of, value_guess, name_of};

use crate::fault::LineFault;
use crate::word::is;
use ox_text::spelling;
use ox_types::{Key, LineRule, NoMemory, Octets, Value};
use percent_encoding::percent_decode;
use std::alloc::Global;

fn decoded(alloc: Global, word: &[u8]) -> Result<Vec<u8>, NoMemory>
    ensures text { IfOk result (λ bytes. bytes.items ≡ percent_decode word.now) }
    ensures small { IfOk result (λ bytes. list_all is_byte bytes.items ≡ true) }
{
    let mut bytes = Vec::new(alloc);
    percent_decode(word).append_to(&mut bytes)?;
    Ok(bytes)
}

/// Whether the word is the one spelling of the bytes.
fn is_spelling(alloc: Global, word: &[u8], bytes: &[u8]) -> Result<bool, NoMemory>
    ensures { IfOk result (λ b. b ≡ bytes_eq word.now (spelt bytes.now)) }
{
    let text = spelling(alloc, bytes)?;
    Ok(is(word, text.as_bytes()))
}

/// The key that a word says.
pub fn read_key(alloc: Global, word: &[u8]) -> Result<Key, LineFault>
    ensures { Gives (λ key. key) result (key_of word.now) }
{
    let bytes = decoded(alloc, word)?;
    if !is_spelling(alloc, word, bytes.as_slice())? {
        return Err(LineFault::Rule(LineRule::Key));
    }
    match Key::try_new(bytes) {
        Ok(key) => Ok(key),
        Err(_) => Err(LineFault::Rule(LineRule::Key)),
    }
}

/// The bytes of the value that a word would say.
fn guessed(alloc: Global, word: &[u8]) -> Result<Vec<u8>, NoMemory>
    ensures text { IfOk result (λ bytes. bytes.items ≡ value_guess word.now) }
    ensures small { IfOk result (λ bytes. list_all is_byte bytes.items ≡ true) }
{
    if is(word, b"*") {
        return Ok(Vec::new(alloc));
    }
    decoded(alloc, word)
}

/// Whether the word is the one spelling of the value.
fn is_value_spelling(alloc: Global, word: &[u8], value: &[u8]) -> Result<bool, NoMemory>
    ensures { IfOk result (λ b. b ≡ bytes_eq word.now (value_word value.now)) }
{
    if value.is_empty() {
        return Ok(is(word, b"*"));
    }
    is_spelling(alloc, word, value)
}

/// The value that a word says.
pub fn read_value(alloc: Global, word: &[u8]) -> Result<Value, LineFault>
    ensures { Gives (λ value. value) result (value_of word.now) }
{
    let bytes = guessed(alloc, word)?;
    if !is_value_spelling(alloc, word, bytes.as_slice())? {
        return Err(LineFault::Rule(LineRule::Value));
    }
    match Value::try_new(bytes) {
        Ok(value) => Ok(value),
        Err(_) => Err(LineFault::Rule(LineRule::Value)),
    }
}

/// Whether the bytes are as many as a name may have.
fn is_name(bytes: &[u8]) -> bool
    ensures { result ≡ form.is_name bytes.now }
{
    1 <= bytes.len() && bytes.len() <= 255
}

/// The name of an index that a word says.
pub fn read_name(alloc: Global, word: &[u8]) -> Result<Octets, LineFault>
    ensures { Gives (λ name. name) result (name_of word.now) }
{
    let name = decoded(alloc, word)?;
    if !is_spelling(alloc, word, name.as_slice())? {
        return Err(LineFault::Rule(LineRule::Option));
    }
    if !is_name(name.as_slice()) {
        return Err(LineFault::Rule(LineRule::Option));
    }
    Ok(Octets::from_vec(name))
}
