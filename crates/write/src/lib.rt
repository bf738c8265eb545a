// Writes the header of a caller's record to lent room (document 01, "Header bytes out"): prefix, the dict's text, its padding. The C interface calls it. The text is first
// put on one scratch byte, so that its length is known before a byte of the lent room is stored.
#![tactic(auto)]

ghost use Rattle.std.specs.Prelude.{◌≡◌, ◌∷◌, length};
ghost use Rattle.counts.specs.Outcome.{gives};
ghost use Rattle.counts.specs.Number.{capped};
ghost use Rattle.emit.specs.Emits.{Emits};
ghost use Rattle.literal_grammar.specs.Print.{spaces, print};
ghost use Rattle.dtype.specs.Record.{Record};
ghost use Rattle.record.specs.Layout.{header_layout};
ghost use Rattle.record.specs.File.{bare_text, file_by};
ghost use Rattle.header_prefix.specs.Answer.{version_is};
ghost use Rattle.write_depth.specs.Printable.{printable};
ghost use Rattle.write.specs.Writes.{WritesHeader, WritesRecord};

use counts::Bytes;
use dtype::GivenRecord;
use refusal::Refusal;
use write_padding::PaddingPlan;

// Puts the dict's text and returns the place after it. Where it is refused, nothing is put.
fn put_text(given: GivenRecord<'_>, out: &mut [u8], at: usize) -> usize
    ensures { (x : Record) → printable given.entry.table.now given.entry.names.now given.entry.shape.now given.entry.order ≡ gives x → Emits (print (header_layout x)) out.old at out.new result }
{
    let Ok(end) = write_text::put_text(given, out, at) else {
        // not reached by the only caller: the same text was measured before
        return at;
    };
    end
}

// Puts the whole header at the front of room that is long enough (10 is LF).
fn put_header(plan: PaddingPlan, given: GivenRecord<'_>, out: &mut [u8]) -> usize
    ensures { (x : Record) → printable given.entry.table.now given.entry.names.now given.entry.shape.now given.entry.order ≡ gives x → Emits (λ z. file_by (version_is plan.version) plan.text (print (header_layout x) (spaces plan.spaces (10 ∷ z)))) out.old 0 out.new result }
{
    let after_prefix = write_padding::put_prefix(out, 0, plan.version, plan.text);
    let after_text = put_text(given, out, after_prefix);
    write_padding::put_padding(out, after_text, plan.spaces)
}

// Writes the header of a record whose text has `bare` bytes before its padding; or 4, 28.
fn write_record(bare: usize, given: GivenRecord<'_>, out: &mut [u8]) -> Result<Bytes, Refusal>
    ensures { (x : Record) → printable given.entry.table.now given.entry.names.now given.entry.shape.now given.entry.order ≡ gives x → bare ≡ capped (length (bare_text x)) → WritesRecord x out.old result out.new }
{
    let plan = write_padding::plan_for(given.names.is_ascii(), bare)?;
    if out.len() < plan.whole {
        return Err(Refusal::OutputRoom);
    }
    put_header(plan, given, out);
    Ok(Bytes(plan.whole as u64))
}

// Writes the header of a caller's record at the front of `out` and returns its length; or 27, 13, 20, 21, 22, 7, 4, 28.
pub fn write_header(given: GivenRecord<'_>, out: &mut [u8]) -> Result<Bytes, Refusal>
    ensures { WritesHeader given.entry.table.now given.entry.names.now given.entry.shape.now given.entry.order out.old result out.new }
{
    let mut scratch = [0u8; 1];
    let bare = write_text::put_text(given, &mut scratch, 0)?;
    write_record(bare, given, out)
}
