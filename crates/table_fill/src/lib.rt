// Writes entries of the dtype table to lent room (document 01, "The record": "one entry for each plain type, array level and record"); an entry without room is not written.
// Called by header. The levels of a sub-shape come before their type in the table, but their sizes are known only after it: the type's entries are moved to make room.
#![tactic(auto)]

ghost use Rattle.std.specs.Prelude.{◌≡◌, ◌+◌, ◌-◌, ◌*◌, ◌≤◌, length};
ghost use Rattle.dtype.specs.Record.{entry_width};
ghost use Rattle.dtype.specs.EntryOf.{entry_of};
ghost use Rattle.table_fill.specs.Lifted.{relinked, lifted};
ghost use Rattle.dtype.specs.Dtype.{plain, size_of};
ghost use Rattle.counts.specs.Number.{capped};
ghost use Rattle.counts.specs.Counts.{as_bytes};
ghost use Rattle.table_fill.specs.Written.{no_type, type_in, put, bare, up_of, name_of, size_over, levelled, above};

use counts::{Bytes, Items};
use dtype::{ARRAY, ENTRY, Entry, RECORD};
use refusal::Refusal;
use saturating::held_product;
use table_entry::plain_entry;
use type_letters::{Endianness, TypeChar};
use type_str::TypeStr;
use type_units::TimeUnits;

// Which number of an entry is the length of its name: the last.
const NAME: usize = ENTRY - 1;

// Moves `count` entries from `entry` on by `by` entries, and adds the shift to their parent numbers. Does nothing if there is no room.
pub fn lift(table: &mut [u64], entry: usize, count: usize, by: usize)
    ensures { table.new ≡ lifted table.old entry count by }
{
    let all = table.len() / ENTRY;
    if all < count {
        return;
    }
    if all - count < by {
        return;
    }
    if all - count - by < entry {
        return;
    }
    table.copy_within(ENTRY * entry..ENTRY * (entry + count), ENTRY * (entry + by));
    relink(table, entry + by, count, by);
}

// Adjusts `count` entries that were moved by `by` to `entry`: parent numbers get the shift; the first entry gets the entry before it as its parent, and no name.
fn relink(table: &mut [u64], entry: usize, count: usize, by: usize)
    requires { entry_width * (entry + count) ≤ length table.old }
    ensures { table.new ≡ relinked table.old entry count by }
{
    for k in (1..count).rev() {
        let i = ENTRY * (entry + k);
        table[i] = table[i].saturating_add(by as u64);
    }
    if count != 0 {
        let first = ENTRY * entry;
        table[first + NAME] = 0;
        table[first] = entries_between(1, entry);
    }
}

// The number of entries from `at` up to `stop`, 0 if `stop` comes first.
pub fn entries_between(at: usize, stop: usize) -> u64
    ensures { result ≡ stop - at }
{
    stop.saturating_sub(at) as u64
}

// The type that was read, or a placeholder.
pub fn type_in(r: Result<TypeStr, Refusal>) -> TypeStr
    ensures { result ≡ type_in r }
{
    // the only caller, header, has judged its text
    r.unwrap_or(no_type())
}

// The placeholder where no type was read.
fn no_type() -> TypeStr
    ensures { result ≡ no_type }
{
    TypeStr {
        order: Endianness::Irrelevant,
        letter: TypeChar::Object,
        size: 0,
        units: TimeUnits::Absent,
    }
}

// The parent of level k of a field: the field's own for the outermost, else the level before it.
fn parent(k: usize, entry: usize, up: u64) -> u64
    ensures { result ≡ capped (up_of k entry up) }
{
    if k == 0 {
        return up;
    }
    (entry as u64).saturating_add((k - 1) as u64)
}

// The length of the name of level k of a field: only the outermost has one.
fn name_of(k: usize, name: u64) -> u64
    ensures { result ≡ name_of k name }
{
    if k == 0 { name } else { 0 }
}

// Writes the entry of a plain type, and returns its size as the entry holds it.
pub fn put_plain(table: &mut [u64], at: usize, t: TypeStr, up: u64, name: u64) -> Bytes
    ensures value { result ≡ as_bytes (capped (size_of (plain t))) }
    ensures table_after { table.new ≡ put table.old at (entry_of (plain t) up name) }
{
    let e = plain_entry(t, up, name);
    put_entry(table, at, e);
    Bytes(e.bytes)
}

// Writes the entry of a record of `count` fields, whose entries end before `stop`.
pub fn put_record(
    table: &mut [u64],
    at: usize,
    up: u64,
    name: u64,
    count: u64,
    stop: usize,
    size: Bytes,
)
    ensures { table.new ≡ put table.old at (bare 2 up count (stop - at) size.0 name) }
{
    put_entry(
        table,
        at,
        bare_entry(RECORD, up, count, entries_between(at, stop), size, name),
    );
}

// Writes the levels of a sub-shape around the type whose entries go from `entry` up to `stop`, which are moved to make room, and returns their size.
pub fn put_sub_shape(
    table: &mut [u64],
    entry: usize,
    up: u64,
    name: u64,
    shape: &[u64],
    stop: usize,
    size: Bytes,
) -> Bytes
    ensures value { result ≡ as_bytes (size_over shape.now size.0) }
    ensures table_after { table.new ≡ above shape.now entry up name stop size.0 table.old }
{
    let rank = shape.len();
    if rank == 0 {
        return size;
    }
    let count = entries_between(entry, stop) as usize;
    let last = stop.saturating_add(rank);
    lift(table, entry, count, rank);
    put_levels(table, entry, up, name, shape, last, size)
}

// Writes the levels of a sub-shape around the type whose entries end before `stop`, the innermost first, and returns their size.
fn put_levels(
    table: &mut [u64],
    entry: usize,
    up: u64,
    name: u64,
    shape: &[u64],
    stop: usize,
    size: Bytes,
) -> Bytes
    ensures value { result ≡ as_bytes (size_over shape.now size.0) }
    ensures table_after { table.new ≡ levelled shape.now entry up name stop size.0 table.old }
{
    let mut held = size;
    for k in (0..shape.len()).rev() {
        held = held_product(Items(shape[k]), held);
        put_level(table, entry, k, up, name, shape[k], stop, held);
    }
    held
}

// Writes level k of a field whose outermost level is entry number `entry`.
fn put_level(
    table: &mut [u64],
    entry: usize,
    k: usize,
    up: u64,
    name: u64,
    number: u64,
    stop: usize,
    size: Bytes,
)
    ensures { table.new ≡ put table.old (entry + k) (bare 1 (up_of k entry up) number (stop - (entry + k)) size.0 (name_of k name)) }
{
    let all = table.len() / ENTRY;
    if all <= k {
        return;
    }
    if all - k <= entry {
        return;
    }
    let at = entry + k;
    let head = parent(k, entry, up);
    let own = name_of(k, name);
    put_entry(
        table,
        at,
        bare_entry(ARRAY, head, number, entries_between(at, stop), size, own),
    );
}

// Writes the nine numbers of an entry.
fn put_entry(table: &mut [u64], at: usize, e: Entry)
    ensures { table.new ≡ put table.old at e }
{
    if table.len() / ENTRY <= at {
        return;
    }
    let i = ENTRY * at;
    table[i] = e.parent;
    table[i + 1] = e.kind;
    table[i + 2] = e.order;
    table[i + 3] = e.letter;
    table[i + 4] = e.number;
    table[i + 5] = e.units;
    table[i + 6] = e.extent;
    table[i + 7] = e.bytes;
    table[i + 8] = e.name;
}

// The entry of an array level or a record, with the numbers of a type 0.
fn bare_entry(kind: u64, up: u64, number: u64, extent: u64, size: Bytes, name: u64) -> Entry
    ensures { result ≡ bare kind up number extent size.0 name }
{
    Entry {
        parent: up,
        kind,
        order: 0,
        letter: 0,
        number,
        units: 0,
        extent,
        bytes: size.0,
        name,
    }
}
