// Whether a caller's table and names list a dtype that some reading gives, the test of 27 (document 01, "The refusal numbers"): each entry agrees with those after it,
// the first one extends to the table's end, and the names are those of the entries. Called by check_record.
#![tactic(auto)]

ghost use Rattle.std.specs.Prelude.{ℕ, ◌<◌, ◌≡◌, not};
ghost use Rattle.dtype.specs.Agrees.{Bare, ArrayAgrees, RecordAgrees};
ghost use Rattle.check_table.specs.Decides.{Decides, TypedAgrees, SoundEntry, refuses};
ghost use Rattle.utf8.specs.Decode.{utf8};
ghost use Rattle.check_table.specs.Reading.{read_dtype};
ghost use Rattle.check_table.specs.Named.{NamesPass, Outermost};

use counts::{Bytes, Items};
use dtype::Entry;
use saturating::{held_bytes, held_product, held_sum};

// Whether a plain entry has a type, and agrees with its size.
fn plain_agrees(entry: Entry) -> bool
    ensures { Decides result (TypedAgrees entry) }
{
    let Some(t) = table_entry::type_of(entry) else {
        return false;
    };
    entry.extent == 1 && entry.bytes == held_bytes(t).0
}

// Whether the numbers of a type are 0, as they must be in an entry that is not plain.
fn is_bare(entry: Entry) -> bool
    ensures { Decides result (Bare entry) }
{
    entry.order == 0 && entry.letter == 0 && entry.units == 0
}

// Whether an array's entry agrees with the next one.
fn array_agrees(table: &[u64], n: usize, e: usize) -> bool
    requires { e < n }
    ensures { Decides result (ArrayAgrees table.now n e) }
{
    let c = e + 1;
    if n <= c {
        return false;
    }
    let outer = table_entry::entry_at(table, e);
    let inner = table_entry::entry_at(table, c);
    is_bare(outer)
        && inner.parent == e as u64
        && inner.name == 0
        && outer.extent != 0
        && outer.extent - 1 == inner.extent
        && outer.bytes == held_product(Items(outer.number), Bytes(inner.bytes)).0
}

// Whether a record's entry agrees with those of its fields.
fn record_agrees(table: &[u64], n: usize, e: usize) -> bool
    requires { e < n }
    ensures { Decides result (RecordAgrees table.now n e) }
{
    let outer = table_entry::entry_at(table, e);
    if !is_bare(outer) {
        return false;
    }
    if ((n - e) as u64) < outer.extent {
        return false;
    }
    let stop = e + outer.extent as usize;
    let mut c = e + 1;
    let mut bytes = Bytes(0);
    for _ in 0..outer.number {
        if stop <= c {
            return false;
        }
        let field = table_entry::entry_at(table, c);
        if field.parent != e as u64 {
            return false;
        }
        if ((stop - c) as u64) < field.extent {
            return false;
        }
        bytes = held_sum(bytes, Bytes(field.bytes));
        c += field.extent as usize;
    }
    c == stop && bytes.0 == outer.bytes
}

// Whether an entry agrees with those after it and, if plain, has a type.
fn entry_agrees(table: &[u64], n: usize, e: usize) -> bool
    requires { e < n }
    ensures { Decides result (SoundEntry table.now n e) }
{
    let entry = table_entry::entry_at(table, e);
    match entry.kind {
        dtype::PLAIN => plain_agrees(entry),
        dtype::ARRAY => array_agrees(table, n, e),
        dtype::RECORD => record_agrees(table, n, e),
        _ => false,
    }
}

// Whether each of the first n entries agrees with those after it. From the last entry back, so that no field skipped by a record is empty, and the time is linear in the table.
pub fn entries_agree(table: &[u64], n: usize) -> bool
    ensures { Decides result ((e : ℕ) → e < n → SoundEntry table.now n e) }
{
    for e in (0..n).rev() {
        if !entry_agrees(table, n, e) {
            return false;
        }
    }
    true
}

fn is_utf8(text: &[u8]) -> bool
    ensures { result ≡ not (refuses (utf8 text.now)) }
{
    utf8::check(text).is_ok()
}

// Whether `names` is the names of n entries end to end, each UTF-8 by itself.
fn names_match(table: &[u64], n: usize, names: &[u8]) -> bool
    ensures { Decides result (NamesPass table.now names.now n) }
{
    let mut start: usize = 0;
    for e in 0..n {
        let entry = table_entry::entry_at(table, e);
        if ((names.len() - start) as u64) < entry.name {
            return false;
        }
        let end = start + entry.name as usize;
        if !is_utf8(&names[start..end]) {
            return false;
        }
        start = end;
    }
    start == names.len()
}

// Whether a table and its names list a dtype that some reading gives, and that is no array.
pub fn is_dtype(table: &[u64], names: &[u8]) -> bool
    ensures { result ≡ not (refuses (read_dtype table.now names.now)) }
{
    let n = table.len() / dtype::ENTRY;
    n != 0
        && table.len() == dtype::ENTRY * n
        && first_fits(table_entry::entry_at(table, 0), n as u64)
        && entries_agree(table, n)
        && names_match(table, n, names)
}

// Whether the outermost entry extends to the table's end, is no array, and has neither parent nor name.
fn first_fits(first: Entry, n: u64) -> bool
    ensures { Decides result (Outermost first n) }
{
    first.kind != dtype::ARRAY && first.extent == n && first.parent == 0 && first.name == 0
}
