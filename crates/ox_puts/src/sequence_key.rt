//! The bytes of sequence keys.
ghost use Rattle.std.specs.Prelude.{◌≡◌, ◌≤◌, ◌+◌, ◌*◌, ◌++◌, [], length, IfOk};
ghost use Rattle.std.specs.List.{flat_map};
ghost use Rattle.std.specs.Option.{option_copied};
ghost use Rattle.ox_types.specs.Limits.{key_limit};
ghost use Rattle.ox_ops.specs.Sequence.{group_text, sequence_key as key_text, after_prefix, groups_of};
ghost use Rattle.ox_puts.specs.Search.{digits_number, front_number};

use itoa::Buffer;
use ox_types::{Key, List, NoMemory, Octets};
use std::alloc::Global;

/// The bytes of a group: a dash and 20 digits.
pub const GROUP_BYTES: usize = 21;

/// The digits before those of a number.
const ZEROS: [u8; 20] = [b'0'; 20];

fn add_group(text: &mut Octets, number: u64) -> Result<(), NoMemory>
    ensures { IfOk result (λ _. text.new ≡ text.old ++ group_text number) }
{
    let mut buffer = Buffer::new();
    let digits = buffer.format(number).as_bytes();
    text.extend(b"-")?;
    text.extend(&ZEROS[digits.len()..])?;
    text.extend(digits)?;
    Ok(())
}

/// The key of the prefix and these numbers, at the cost of its bytes.
pub fn sequence_key(alloc: Global, prefix: &Key, numbers: &[u64]) -> Result<Key, NoMemory>
    requires some { 1 ≤ length numbers.now }
    requires short { length prefix.now + 21 * length numbers.now ≤ key_limit }
    ensures { IfOk result (λ key. key ≡ key_text prefix.now numbers.now) }
{
    let mut text = Octets::from_slice(alloc, prefix.bytes())?;
    for number in numbers {
        add_group(&mut text, *number)?;
    }
    match Key::try_new(text.into_vec()) {
        Ok(key) => Ok(key),
        Err(_) => unreachable!(),
    }
}

/// What follows the prefix.
pub fn rest_of<'a>(key: &'a [u8], prefix: &[u8]) -> Option<&'a [u8]>
    ensures { option_copied result ≡ after_prefix prefix.now key.entry.now }
{
    key.strip_prefix(prefix)
}

fn number_of(digits: &[u8]) -> Option<u64>
    requires { length digits.now ≡ 20 }
    ensures { result ≡ digits_number digits.now }
{
    let mut number: u64 = 0;
    for digit in digits {
        if !digit.is_ascii_digit() {
            return None;
        }
        number = number
            .checked_mul(10)?
            .checked_add(u64::from(*digit - b'0'))?;
    }
    Some(number)
}

fn front_group(bytes: &[u8]) -> Option<u64>
    requires { 21 ≤ length bytes.now }
    ensures { result ≡ front_number bytes.now }
{
    match bytes {
        [] => None,
        [first, rest @ ..] => {
            if *first == b'-' {
                number_of(&rest[..20])
            } else {
                None
            }
        }
    }
}

/// The numbers of so many groups, where the bytes are just these.
pub fn numbers_in(alloc: Global, count: usize, bytes: &[u8]) -> Result<Option<List<u64>>, NoMemory>
    requires { length bytes.now ≡ 21 * count }
    ensures { IfOk result (λ numbers. numbers ≡ groups_of count bytes.now) }
{
    let mut numbers = List::new(alloc);
    let mut rest = bytes;
    for _ in 0..count {
        match front_group(rest) {
            Some(number) => numbers.push(number)?,
            None => return Ok(None),
        }
        rest = &rest[GROUP_BYTES..];
    }
    Ok(Some(numbers))
}
