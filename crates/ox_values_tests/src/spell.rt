// Bytes as words.
use ox_types::{NoMemory, Octets};
use std::alloc::Global;

fn decimal(digits: &[u8]) -> u64 {
    let mut number: u64 = 0;
    for digit in digits {
        number = number.wrapping_mul(10).wrapping_add((*digit & 15) as u64);
    }
    number
}

fn add_hexadecimal(bytes: &mut Octets, digits: &[u8]) -> Result<(), NoMemory> {
    let mut byte: u8 = 0;
    let mut is_second = false;
    for digit in digits {
        let value = if *digit > b'9' {
            (*digit & 15).wrapping_add(9)
        } else {
            *digit & 15
        };
        byte = (byte << 4) | value;
        if is_second {
            bytes.extend(&[byte])?;
        }
        is_second = !is_second;
    }
    Ok(())
}

fn add_word(bytes: &mut Octets, word: &[u8]) -> Result<(), NoMemory> {
    match word {
        [b'.', digits @ ..] => bytes.extend(&decimal(digits).to_be_bytes()),
        [b':', digits @ ..] => bytes.extend(&decimal(digits).to_be_bytes()[4..]),
        [b'\'', text @ ..] => {
            bytes.extend(&(text.len() as u64).to_be_bytes()[4..])?;
            bytes.extend(text)
        }
        digits => add_hexadecimal(bytes, digits),
    }
}

/// The bytes of these words. `.5` is the number 5 in eight bytes and `:5` in four, `'ab` is the text `ab` behind its length in
/// four bytes, and every other word is hexadecimal digits, two a byte.
pub fn spelled(alloc: Global, words: &str) -> Result<Octets, NoMemory> {
    let mut bytes = Octets::new(alloc);
    for word in words.as_bytes().split(|byte| *byte == b' ') {
        add_word(&mut bytes, word)?;
    }
    Ok(bytes)
}
