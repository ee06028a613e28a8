// The bytes of the vocabulary (docs/FORMATS.md): a form for each type, and fields that several types have.
ghost use Rattle.std.specs.Prelude.{◌≡◌, IsTrue};
ghost use Rattle.ox_bytes.specs.Reading.{Gives};
ghost use Rattle.ox_bytes.specs.Writing.{Puts};
ghost use Rattle.ox_bytes.specs.Fields.{option};
ghost use Rattle.ox_ops.specs.Forms.{version, index_name};

mod answer;
mod notice;
mod query;
mod reply;
mod write;

use ox_bytes::{FieldFault, Reader, WireRule, Writer};
use ox_types::{NoMemory, Octets};

/// The most that a record's version is: 2^63 - 1.
pub(crate) const VERSION_LIMIT: u64 = 9_223_372_036_854_775_807;

/// The most bytes of an index's name.
const NAME_LIMIT: usize = 255;

/// The name of an index.
pub(crate) fn take_name(from: &mut Reader<'_>) -> Result<Octets, FieldFault>
    ensures { Gives result from.new (index_name.at from.old) }
{
    let range = from.bad(WireRule::Range);
    let name = from.take_octets()?;
    if name.is_empty() || name.len() > NAME_LIMIT {
        return Err(FieldFault::Bad(range));
    }
    Ok(name)
}

/// The name of an index, or none.
#[tactic(auto, using(ox_bytes::specs::WritingLaws::fronts))]
pub(crate) fn put_by(by: &Option<Octets>, to: &mut Writer) -> Result<(), NoMemory>
    requires { IsTrue ((option index_name).is_lawful by.now) }
    ensures { Puts result to.old to.new ((option index_name).text by.now) }
{
    match by {
        None => to.put_u8(0),
        Some(name) => {
            to.put_u8(1)?;
            to.put_octets(name)
        }
    }
}

/// The name of an index, or none.
#[tactic(auto, unfolding(ox_bytes::specs::Fields::option_at))]
pub(crate) fn take_by(from: &mut Reader<'_>) -> Result<Option<Octets>, FieldFault>
    ensures { Gives result from.new ((option index_name).at from.old) }
{
    match from.take_tag(2)? {
        0 => Ok(None),
        _ => Ok(Some(take_name(from)?)),
    }
}

/// The version of a record, or none.
#[tactic(auto, using(ox_bytes::specs::WritingLaws::fronts))]
pub(crate) fn put_version(found: &Option<u64>, to: &mut Writer) -> Result<(), NoMemory>
    ensures { Puts result to.old to.new ((option version).text found.now) }
{
    match found {
        None => to.put_u8(0),
        Some(number) => {
            to.put_u8(1)?;
            to.put_u64(*number)
        }
    }
}

/// The version of a record, or none.
#[tactic(auto, unfolding(ox_bytes::specs::Fields::option_at))]
pub(crate) fn take_version(from: &mut Reader<'_>) -> Result<Option<u64>, FieldFault>
    ensures { Gives result from.new ((option version).at from.old) }
{
    if from.take_tag(2)? == 0 {
        Ok(None)
    } else {
        Ok(Some(from.take_u64_to(VERSION_LIMIT)?))
    }
}
