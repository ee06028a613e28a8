// The words behind the program's name, as bytes.
use ox_types::{List, NoMemory, Octets};
use std::env::{Env, FillError};

/// The bytes that a word is given room for at first.
const FIRST_ROOM: usize = 4096;

/// What stands at a place of the command line.
#[derive(Drop)]
enum Found {
    Word(Octets),
    /// The last word stands before it.
    Nothing,
    /// A word that is longer than the room.
    Longer,
}

fn find(rt: &HostRuntime, place: usize, room: usize) -> Result<Found, NoMemory> {
    let mut bytes = vec![in rt.alloc(); 0u8; room]?;
    match rt.arg(place, &mut bytes) {
        Ok(length) => {
            bytes.truncate(length);
            Ok(Found::Word(Octets::from_vec(bytes)))
        }
        Err(FillError::NotPresent) => Ok(Found::Nothing),
        Err(FillError::TooLong) => Ok(Found::Longer),
    }
}

/// The word at this place, or None behind the last one. It is asked for with twice the room until it fits.
fn word(rt: &HostRuntime, place: usize) -> Result<Option<Octets>, NoMemory> {
    let mut room = FIRST_ROOM;
    for _ in 0..32 {
        match find(rt, place, room)? {
            Found::Word(word) => return Ok(Some(word)),
            Found::Nothing => return Ok(None),
            Found::Longer => room = room.saturating_mul(2),
        }
    }
    Err(NoMemory)
}

/// All words behind the program's name. They are bytes, in whatever encoding.
pub fn words(rt: &HostRuntime) -> Result<List<Octets>, NoMemory> {
    let mut words = List::new(rt.alloc());
    for place in 1..usize::MAX {
        match word(rt, place)? {
            Some(word) => words.push(word)?,
            None => break,
        }
    }
    Ok(words)
}
