// Keys and values, percent-encoded.
ghost use Rattle.std.specs.Prelude.{◌≡◌, ◌++◌, IfOk, OnOk, OnErr};
ghost use Rattle.std.specs.String.{string_bytes};
ghost use Rattle.ox_text.specs.Words.{spelt, value_word};

use ox_types::{Key, NoMemory, Octets, Value};
use percent_encoding::{AsciiSet, NON_ALPHANUMERIC, ascii_set, percent_encode};
use std::alloc::Global;

/// All that is spelt by an escape.
const ESCAPED: AsciiSet = ascii_set!(
    NON_ALPHANUMERIC
        .remove(b'-')
        .remove(b'_')
        .remove(b'.')
        .remove(b'/')
);

/// The one spelling of the bytes. It costs their number.
pub fn spelling(alloc: Global, bytes: &[u8]) -> Result<String, NoMemory>
    ensures { IfOk result (λ text. string_bytes text ≡ spelt bytes.now) }
{
    let mut text = String::new(alloc);
    percent_encode(bytes, ESCAPED).append_to(&mut text)?;
    Ok(text)
}

/// Adds the spelling of bytes, as of the name of an index. It costs their number, and takes memory for the spelling too.
/// Where memory runs out, nothing is added.
pub fn add_bytes(alloc: Global, text: &mut Octets, bytes: &[u8]) -> Result<(), NoMemory>
    ensures ok { OnOk result (text.new ≡ text.old ++ spelt bytes.now) }
    ensures err { OnErr result (text.new ≡ text.old) }
{
    let word = spelling(alloc, bytes)?;
    text.extend(word.as_bytes())
}

/// Adds the spelling of a key, as it stands in a line. It costs its bytes, and takes memory for its text too.
/// Where memory runs out, nothing is added.
pub fn add_key(alloc: Global, text: &mut Octets, key: &Key) -> Result<(), NoMemory>
    ensures ok { OnOk result (text.new ≡ text.old ++ spelt key.now) }
    ensures err { OnErr result (text.new ≡ text.old) }
{
    add_bytes(alloc, text, key.bytes())
}

/// Adds the spelling of a value, `*` for the empty one, at the same cost as that of a key. Where memory runs out,
/// nothing is added.
pub fn add_value(alloc: Global, text: &mut Octets, value: &Value) -> Result<(), NoMemory>
    ensures ok { OnOk result (text.new ≡ text.old ++ value_word value.now) }
    ensures err { OnErr result (text.new ≡ text.old) }
{
    let bytes = value.bytes();
    if bytes.is_empty() {
        return text.extend(b"*");
    }
    let word = spelling(alloc, bytes)?;
    text.extend(word.as_bytes())
}
