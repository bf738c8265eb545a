// Decides whether the text of a caller's record would open more than 32 brackets at once (document 01, 7), from its flat table. write_text calls it. `within` and
// `fields_within` call each other in a cycle, once for each record; array levels are passed in a loop, `innermost`.
#![tactic(auto)]

ghost use Rattle.refusal.specs.Answers.{answer};
ghost use Rattle.std.specs.Prelude.{◌≡◌, cond, eqb};
ghost use Rattle.counts.specs.Outcome.{each};
ghost use Rattle.literal_grammar.specs.Print.{value_of, values_of};
ghost use Rattle.dtype.specs.Dtype.{Dtype, Fields};
ghost use Rattle.dtype.specs.Entries.{field_count};
ghost use Rattle.record.specs.Layout.{descr_layout, field_row};
ghost use Rattle.record.specs.Within.{within as is_within, all_within};
ghost use Rattle.check_record.specs.Answer.{summary};
ghost use Rattle.write_depth.specs.Listed.{InTableAt, FieldsInTableAt, Under};
ghost use Rattle.write_depth.specs.Printable.{printable};

use check_record::Summary;
use dtype::{ARRAY, GivenRecord, PLAIN};
use refusal::Refusal;

// How many brackets may be open at once inside the dict's own.
const IN_DICT: u64 = literal_grammar::MOST_OPEN as u64 - 1;

// The check of check_record, and then 7.
pub fn check(given: GivenRecord<'_>) -> Result<Summary, Refusal>
    ensures { answer result ≡ each summary (printable given.entry.table.now given.entry.names.now given.entry.shape.now given.entry.order) }
{
    let checked = check_record::check(given)?;
    if !within(given.table, 0, IN_DICT) {
        return Err(Refusal::Depth);
    }
    Ok(checked)
}

// The first entry from e on that is no array level: e itself where there is no level. (A `while`: no range has its end before it is met.)
pub fn innermost(table: &[u64], e: usize) -> usize
    ensures { Under table.now e result }
{
    let mut c = e;
    while table_entry::entry_at(table, c).kind == ARRAY {
        c += 1;
    }
    c
}

// Whether at most k brackets are open at once in the text of the dtype at entry e.
#[cycle(fields_within_within)]
fn within(table: &[u64], e: usize, k: u64) -> bool
    requires { (d : Dtype) × InTableAt table.now e d }
    ensures { (d : Dtype) → InTableAt table.now e d → result ≡ is_within (value_of (descr_layout d)) k }
{
    let under = innermost(table, e);
    let entry = table_entry::entry_at(table, under);
    entry.kind == PLAIN || k > 0 && fields_within(table, entry.number, under + 1, k - 1)
}

// The same for `count` fields, the first at entry e.
#[cycle(fields_within_within)]
fn fields_within(table: &[u64], count: u64, e: usize, k: u64) -> bool
    requires { (fs : Fields) × (count ≡ field_count fs) × FieldsInTableAt table.now e fs }
    ensures { (fs : Fields) → count ≡ field_count fs → FieldsInTableAt table.now e fs → result ≡ all_within (values_of (field_row fs)) k }
{
    let mut c = e;
    for _ in 0..count {
        let field = table_entry::entry_at(table, c);
        if k < brackets(field.kind) || !within(table, c, k - 1) {
            return false;
        }
        c += field.extent as usize;
    }
    true
}

// How many brackets a field opens besides those of its type: its own, and one in it for a sub-shape.
fn brackets(kind: u64) -> u64
    ensures { result ≡ cond (eqb kind 1) 2 1 }
{
    if kind == ARRAY { 2 } else { 1 }
}
