// Places in the data (document 01, "The record"): the bytes that an index and a path name in a file, or the refusals of the given record, then 24, 25, 26. Called by
// element and by the C interface.
#![tactic(auto)]

ghost use Rattle.refusal.specs.Answers.{answer};
ghost use Rattle.std.specs.Prelude.{◌≡◌, false, List, ℕ, suc, ◌<◌, Some};
ghost use Rattle.counts.specs.Counts.{as_bytes};
ghost use Rattle.dtype.specs.Dtype.{Dtype, Fields, record_of};
ghost use Rattle.dtype.specs.Entries.{field_count};
ghost use Rattle.dtype.specs.Record.{table as table_for};
ghost use Rattle.dtype.specs.Limits.{some_over};
ghost use Rattle.dtype.specs.Seen.{field_at, field_bytes};
ghost use Rattle.check_table.specs.Reading.{untyped};
ghost use Rattle.place.specs.Place.{placed, place_of};
ghost use Rattle.place.specs.Walk.{ListedSized, Steps, Finds, Accepted};

use counts::{Bytes, Items};
use dtype::GivenRecord;
use place_area::Run;
use refusal::Refusal;

// An entry of the table, and how many bytes of the item come before it.
#[derive(Clone, Copy)]
pub struct Reached {
    pub entry: usize,
    pub before: Bytes,
}

// The bytes that an index and a path name in a file of this length, whose data starts at `start`.
pub fn place(
    file: Bytes,
    start: Bytes,
    given: GivenRecord<'_>,
    index: &[u64],
    path: &[u64],
) -> Result<Run, Refusal>
    ensures { answer result ≡ place_of file.0 start.0 given.entry.table.now given.entry.names.now given.entry.shape.now given.entry.order index.now path.now }
{
    let found = check_record::check(given)?;
    in_record(file, start, found.size, found.count, given, index, path)
}

// A place under a record that was checked; or 24, 25, 26. In a file that is long enough no item's byte is over 2^64-1.
fn in_record(
    file: Bytes,
    start: Bytes,
    size: Option<Bytes>,
    count: Items,
    given: GivenRecord<'_>,
    index: &[u64],
    path: &[u64],
) -> Result<Run, Refusal>
    requires { (ns : List ℕ) × (d : Dtype) × Accepted given.table.now ns given.shape.now given.order d size count }
    ensures { (ns : List ℕ) (d : Dtype) → Accepted given.entry.table.now ns given.entry.shape.now given.entry.order d size count → answer result ≡ placed file.0 start.0 (record { dtype = d; shape = given.entry.shape.now; order = given.entry.order }) index.now path.now }
{
    let item = place_area::item(file, start, size, count, given.shape, given.order, index)?;
    let run = follow(given.table, path)?;
    let Some(first) = place_area::first_byte(start, item.which, item.size, run.first) else {
        // not reached: the place is inside the file, which has at most 2^64-1 bytes
        return Err(Refusal::Nowhere);
    };
    Ok(Run {
        first,
        len: run.len,
        kind: run.kind,
    })
}

// The bytes that a path names in an item, counted from the item's first, and their type (its units are a type_units::TimeUnits); or 26. An entry that is not plain has no type.
fn follow(table: &[u64], path: &[u64]) -> Result<Run, Refusal>
    requires { (d : Dtype) × (table.now ≡ table_for d) × (some_over d ≡ false) }
    ensures { (d : Dtype) → table.now ≡ table_for d → some_over d ≡ false → untyped d ≡ false → Finds d path.now result }
{
    let mut e: usize = 0;
    let mut before = Bytes(0);
    for i in path {
        let Some(spot) = step(table, e, *i) else {
            return Err(Refusal::Nowhere);
        };
        let Some(further) = before.plus(spot.before) else {
            // not reached: the item's size fits
            return Err(Refusal::Nowhere);
        };
        e = spot.entry;
        before = further;
    }
    let entry = table_entry::entry_at(table, e);
    let Some(kind) = table_entry::type_of(entry) else {
        return Err(Refusal::Nowhere);
    };
    Ok(Run {
        first: before,
        len: Bytes(entry.bytes),
        kind,
    })
}

// What number i of a path leads to from entry e.
fn step(table: &[u64], e: usize, i: u64) -> Option<Reached>
    requires { (d : Dtype) × ListedSized table.now e d }
    ensures { (d : Dtype) → ListedSized table.now e d → Steps table.now e d i result }
{
    let entry = table_entry::entry_at(table, e);
    if entry.kind == dtype::PLAIN {
        return None;
    }
    if entry.number <= i {
        return None;
    }
    if entry.kind == dtype::ARRAY {
        let c = e + 1;
        let inner = table_entry::entry_at(table, c);
        let items = Items(i);
        let Some(before) = items.of_size(Bytes(inner.bytes)) else {
            // not reached: the array's size fits
            return None;
        };
        return Some(Reached { entry: c, before });
    }
    field_at(table, e, i)
}

// Field i of the record at entry e.
fn field_at(table: &[u64], e: usize, i: u64) -> Option<Reached>
    requires { (fs : Fields) × ListedSized table.now e (record_of fs) × (i < field_count fs) }
    ensures { result ≡ Some (record { entry = field_at table.now i (suc e); before = as_bytes (field_bytes table.now i (suc e)) }) }
{
    let mut c = e + 1;
    let mut before = Bytes(0);
    for _ in 0..i {
        let field = table_entry::entry_at(table, c);
        let Some(more) = before.plus(Bytes(field.bytes)) else {
            // not reached: the record's size fits
            return None;
        };
        before = more;
        c += field.extent as usize;
    }
    Some(Reached { entry: c, before })
}
