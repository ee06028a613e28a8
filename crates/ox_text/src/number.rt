// Numbers, by themselves and behind words.
ghost use Rattle.std.specs.Prelude.{◌≡◌, ◌++◌, OnOk, decimal};
ghost use Rattle.ox_text.specs.Words.{field};

use itoa::Buffer;
use ox_types::{NoMemory, Octets};

/// A number.
pub fn add_number(text: &mut Octets, number: u64) -> Result<(), NoMemory>
    ensures { OnOk result (text.new ≡ text.old ++ decimal number) }
{
    text.extend(Buffer::new().format(number).as_bytes())
}

/// A word and a number, with nothing between them.
pub fn add_joined(text: &mut Octets, word: &[u8], number: u64) -> Result<(), NoMemory>
    ensures { OnOk result (text.new ≡ text.old ++ (word.now ++ decimal number)) }
{
    text.extend(word)?;
    add_number(text, number)
}

/// A number behind a space.
pub fn add_field(text: &mut Octets, number: u64) -> Result<(), NoMemory>
    ensures { OnOk result (text.new ≡ text.old ++ field number) }
{
    text.extend(b" ")?;
    add_number(text, number)
}

/// A word and a number.
pub fn add_count(text: &mut Octets, word: &[u8], number: u64) -> Result<(), NoMemory>
    ensures { OnOk result (text.new ≡ text.old ++ (word.now ++ field number)) }
{
    text.extend(word)?;
    add_field(text, number)
}

/// A word and two numbers.
pub fn add_counts(text: &mut Octets, word: &[u8], first: u64, second: u64) -> Result<(), NoMemory>
    ensures { OnOk result (text.new ≡ text.old ++ (word.now ++ field first ++ field second)) }
{
    text.extend(word)?;
    add_field(text, first)?;
    add_field(text, second)
}
