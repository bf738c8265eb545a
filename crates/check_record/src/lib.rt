// The check of a caller's record that every function over a record makes first (document 01, "The refusal numbers": 27, 13, 20, 21, 22, in this order): `check_dtype` for
// the dtype beside a shape, then 22 in `check`. Called before places, elements, writing and listing, and by the C interface.
#![tactic(auto)]

ghost use Rattle.refusal.specs.Answers.{answer};
ghost use Rattle.std.specs.Prelude.{◌≡◌, not, cond, ◌&&◌, ℕ, suc, ◌<◌, None, Some};
ghost use Rattle.counts.specs.Outcome.{each};
ghost use Rattle.dtype.specs.Limits.{over};
ghost use Rattle.dtype.specs.Agrees.{entry_at, RecordAgrees, Agrees};
ghost use Rattle.dtype.specs.Seen.{some_from, object_at, field_bytes, over_at};
ghost use Rattle.shape.specs.Count.{item_count};
ghost use Rattle.check_record.specs.Limited.{limited_dtype};
ghost use Rattle.check_record.specs.Checked.{checked_record};
ghost use Rattle.check_record.specs.Answer.{item_size, summary_of, summary};

use counts::{Bytes, Items};
use dtype::{GivenRecord, MOST_DIMENSIONS, MOST_ENTRIES, MOST_NAMES, Order};
use refusal::Refusal;

// What a record has, beside its table, names, shape and order.
#[derive(Clone, Copy)]
pub struct Summary {
    pub rank: usize,
    pub entries: usize,
    pub size: Option<Bytes>,
    pub count: Items,
}

// The item size of the dtype that a table and its names list, or the first of 27, 13, 20, 21 that applies to it beside this shape.
pub fn check_dtype(table: &[u64], names: &[u8], shape: &[u64]) -> Result<Option<Bytes>, Refusal>
    ensures { answer result ≡ each item_size (limited_dtype table.now names.now shape.now) }
{
    if !check_table::is_dtype(table, names) {
        return Err(Refusal::NoReading);
    }
    let entries = table.len() / dtype::ENTRY;
    if MOST_DIMENSIONS < shape.len() {
        return Err(Refusal::Dimensions);
    }
    if check_scan::too_deep(table, entries) {
        return Err(Refusal::Dimensions);
    }
    if MOST_ENTRIES < entries {
        return Err(Refusal::Entries);
    }
    if MOST_NAMES < names.len() {
        return Err(Refusal::Entries);
    }
    if over_size(table, entries) {
        return Err(Refusal::Size);
    }
    Ok(item_size(table, entries))
}

// What a record has, or the first of 27, 13, 20, 21, 22 that applies.
pub fn check(given: GivenRecord<'_>) -> Result<Summary, Refusal>
    ensures { answer result ≡ each summary (checked_record given.entry.table.now given.entry.names.now given.entry.shape.now given.entry.order) }
{
    let size = match check_dtype(given.table, given.names, given.shape) {
        Ok(size) => size,
        Err(why) => return Err(why),
    };
    counted(
        given.table.len() / dtype::ENTRY,
        size,
        given.shape,
        given.order,
    )
}

// The summary of a record of `entries` entries and this item size, or 22.
fn counted(
    entries: usize,
    size: Option<Bytes>,
    shape: &[u64],
    order: Order,
) -> Result<Summary, Refusal>
    ensures { answer result ≡ each (summary_of entries size shape.now) (item_count order shape.now) }
{
    let count = shape::count(shape, order)?;
    Ok(Summary {
        rank: shape.len(),
        entries,
        size,
        count,
    })
}

// Whether there is no `O`, and some entry's size is over 2^64-1.
fn over_size(table: &[u64], n: usize) -> bool
    requires { (e : ℕ) → e < n → Agrees table.now n e }
    ensures { result ≡ (not (some_from (object_at table.now) n 0) && some_from (over_at table.now) n 0) }
{
    !check_scan::has_object(table, n) && some_over(table, n)
}

// Whether some entry's size is over 2^64-1.
fn some_over(table: &[u64], n: usize) -> bool
    requires { (e : ℕ) → e < n → Agrees table.now n e }
    ensures { result ≡ some_from (over_at table.now) n 0 }
{
    for e in 0..n {
        if entry_over(table, n, e) {
            return true;
        }
    }
    false
}

// Whether the size of entry `e` is over 2^64-1.
fn entry_over(table: &[u64], n: usize, e: usize) -> bool
    requires { (e < n) × Agrees table.now n e }
    ensures { result ≡ over_at table.now e }
{
    let entry = table_entry::entry_at(table, e);
    if entry.kind == dtype::PLAIN {
        return check_scan::plain_over(entry.letter, entry.number);
    }
    if entry.kind == dtype::ARRAY {
        let inner = table_entry::entry_at(table, e + 1);
        return Items(entry.number).of_size(Bytes(inner.bytes)).is_none();
    }
    fields_over(table, n, e)
}

// Whether the sum of a record's field sizes is over 2^64-1.
fn fields_over(table: &[u64], n: usize, e: usize) -> bool
    requires { (e < n) × RecordAgrees table.now n e }
    ensures { result ≡ over (field_bytes table.now (entry_at table.now e).number (suc e)) }
{
    let entry = table_entry::entry_at(table, e);
    let mut c = e + 1;
    let mut bytes = Bytes(0);
    for _ in 0..entry.number {
        let field = table_entry::entry_at(table, c);
        let Some(more) = bytes.plus(Bytes(field.bytes)) else {
            return true;
        };
        bytes = more;
        c += field.extent as usize;
    }
    false
}

// The item size of a table whose sizes are exact; none under an `O`.
fn item_size(table: &[u64], n: usize) -> Option<Bytes>
    ensures { result ≡ cond (some_from (object_at table.now) n 0) None (Some (record { 0 = (entry_at table.now 0).bytes })) }
{
    if check_scan::has_object(table, n) {
        None
    } else {
        Some(Bytes(table_entry::entry_at(table, 0).bytes))
    }
}
