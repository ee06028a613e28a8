// How a record came about.
ghost use Rattle.std.specs.Prelude.{◌≡◌, ◌++◌, OnOk};
ghost use Rattle.ox_report.specs.Field.{meta_fields};

use ox_ops::Meta;
use ox_text::add_field;
use ox_types::{NoMemory, Octets};

/// How a record came about, each number behind a space.
pub fn add_meta(text: &mut Octets, meta: Meta) -> Result<(), NoMemory>
    ensures { OnOk result (text.new ≡ text.old ++ meta_fields meta) }
{
    add_field(text, meta.version)?;
    add_field(text, meta.modifications)?;
    add_field(text, meta.created)?;
    add_field(text, meta.modified)
}
