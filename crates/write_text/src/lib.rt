// Prints the dict's text of a caller's record from its flat table, its names, its shape and its order (document 01, "Header bytes out"). write calls it. The walks over a
// table that was checked are in `inner`.
#![tactic(auto)]

mod inner;

ghost use Rattle.write_depth.specs.Printable.{printable};
ghost use Rattle.write_text.specs.Prints.{PrintsText};

use dtype::GivenRecord;
use refusal::Refusal;

// Puts the text at `at`, as far as there is room. A refusal stores nothing.
pub fn put_text(given: GivenRecord<'_>, out: &mut [u8], at: usize) -> Result<usize, Refusal>
    ensures { PrintsText (printable given.entry.table.now given.entry.names.now given.entry.shape.now given.entry.order) out.old at result out.new }
{
    write_depth::check(given)?;
    Ok(inner::put_dict(given, out, at))
}
