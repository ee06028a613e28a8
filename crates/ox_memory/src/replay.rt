// Writes in place, on a file that has the room.
ghost use Rattle.std.specs.Prelude.{◌≡◌, ◌≤◌, ◌<◌, ◌+◌, ◌^◌, length, replicate, fold, vec_capacity, IsOk, OnOk, OnErr};
ghost use Rattle.ox_memory.specs.Log.{put, wrote, tore, Fits, image_of};

use crate::log::{Call, Image};
use ox_types::NoMemory;

/// Writes bytes over what is there and past the end.
pub fn put(file: &mut Vec<u8>, at: usize, bytes: &[u8]) -> Result<(), NoMemory>
    requires place { at ≤ length file.old.items }
    requires end { at + length bytes.now < 2 ^ 64 }
    requires room { length file.old.items ≤ vec_capacity file.old }
    ensures put { OnOk result (file.new.items ≡ put file.old.items at bytes.now) }
    ensures same { OnErr result (file.new.items ≡ file.old.items) }
    ensures room { length file.new.items ≤ vec_capacity file.new }
    ensures enough { at + length bytes.now ≤ vec_capacity file.old → IsOk result }
    ensures capacity { vec_capacity file.old ≤ vec_capacity file.new }
{
    let end = at + bytes.len();
    if end <= file.len() {
        file[at..end].copy_from_slice(bytes);
        return Ok(());
    }
    let more = end - file.len();
    file.try_reserve(more)?;
    file.truncate(at);
    let _ = file.extend_from_slice(bytes);
    Ok(())
}

/// Writes so many ones over what is there and past the end, where there is room.
pub fn put_ones(file: &mut Vec<u8>, at: usize, n: usize)
    requires place { at ≤ length file.old.items }
    requires end { at + n ≤ vec_capacity file.old }
    requires room { length file.old.items ≤ vec_capacity file.old }
    ensures put { file.new.items ≡ put file.old.items at (replicate n 1) }
    ensures room { length file.new.items ≤ vec_capacity file.new }
    ensures capacity { vec_capacity file.old ≤ vec_capacity file.new }
{
    let end = at + n;
    if end <= file.len() {
        file[at..end].fill(1);
        return;
    }
    file.truncate(at);
    let _ = file.resize(end, 1);
}

/// Applies writes in turn.
pub fn replay(file: &mut Vec<u8>, calls: &[Call])
    requires fits { Fits file.old.items calls.now }
    requires room { length file.old.items ≤ vec_capacity file.old }
    requires end { length (fold wrote file.old.items calls.now) ≤ vec_capacity file.old }
    ensures replayed { file.new.items ≡ fold wrote file.old.items calls.now }
    ensures room { length file.new.items ≤ vec_capacity file.new }
    ensures capacity { vec_capacity file.old ≤ vec_capacity file.new }
{
    let mut left = calls;
    while let [call, rest @ ..] = left {
        if let Call::Write { at, bytes } = call {
            let _ = put(file, *at as usize, bytes.as_slice());
        }
        left = rest;
    }
}

/// Applies writes in turn, each with ones in place of its bytes.
pub fn replay_torn(file: &mut Vec<u8>, calls: &[Call])
    requires fits { Fits file.old.items calls.now }
    requires room { length file.old.items ≤ vec_capacity file.old }
    requires end { length (fold wrote file.old.items calls.now) ≤ vec_capacity file.old }
    ensures replayed { file.new.items ≡ fold tore file.old.items calls.now }
    ensures long { length file.new.items ≡ length (fold wrote file.old.items calls.now) }
    ensures room { length file.new.items ≤ vec_capacity file.new }
    ensures capacity { vec_capacity file.old ≤ vec_capacity file.new }
{
    let mut left = calls;
    while let [call, rest @ ..] = left {
        if let Call::Write { at, bytes } = call {
            put_ones(file, *at as usize, bytes.len());
        }
        left = rest;
    }
}

// Makes of the safe file and the writes since what a crash of this kind leaves.
fn make_image(safe: &mut Vec<u8>, calls: &[Call], image: Image)
    requires fits { Fits safe.old.items calls.now }
    requires room { length safe.old.items ≤ vec_capacity safe.old }
    requires end { length (fold wrote safe.old.items calls.now) ≤ vec_capacity safe.old }
    ensures image { safe.new.items ≡ image_of image (record { safe = safe.old.items; writes = calls.now }) }
    ensures no_longer { length safe.new.items ≤ length (fold wrote safe.old.items calls.now) }
    ensures capacity { vec_capacity safe.old ≤ vec_capacity safe.new }
{
    match image {
        Image::NoneKept => {}
        Image::AllKept => replay(safe, calls),
        Image::Torn => replay_torn(safe, calls),
    }
}

/// Makes both files what a crash of this kind leaves of the safe one with the writes since.
pub fn crash_files(file: &mut Vec<u8>, safe: &mut Vec<u8>, calls: &[Call], image: Image)
    requires fits { Fits safe.old.items calls.now }
    requires seen { file.old.items ≡ fold wrote safe.old.items calls.now }
    requires room { length file.old.items ≤ vec_capacity file.old }
    requires safe_room { length file.old.items ≤ vec_capacity safe.old }
    ensures image { safe.new.items ≡ image_of image (record { safe = safe.old.items; writes = calls.now }) }
    ensures same { file.new.items ≡ safe.new.items }
    ensures room { length file.new.items ≤ vec_capacity file.new }
    ensures safe_room { length file.new.items ≤ vec_capacity safe.new }
{
    make_image(safe, calls, image);
    file.clear();
    let _ = file.extend_from_slice(&*safe);
}
