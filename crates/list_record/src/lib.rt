// Puts the listing of a caller's record to lent room (document 01, "What the collector buys"); its text is list_text's `listing`. list_file calls it, and the C interface.
#![tactic(auto)]

ghost use Rattle.std.specs.Prelude.{◌≡◌, ◌∷◌, ◌++◌, ◌/◌, length};
ghost use Rattle.emit.specs.Emits.{Emits};
ghost use Rattle.dtype.specs.Dtype.{Dtype};
ghost use Rattle.dtype.specs.Agrees.{entry_at};
ghost use Rattle.dtype.specs.Shape as shapes;
ghost use Rattle.dtype.specs.Record.{entry_width};
ghost use Rattle.header_prefix.specs.Answer.{version_is};
ghost use Rattle.table_entry.specs.EntryType.{type_of};
ghost use Rattle.check_record.specs.Valid.{made};
ghost use Rattle.place.specs.Walk.{Accepted};
ghost use Rattle.list_text.specs.Listing.{spaced_numbers, order_line, strides_line, item_line, type_text_in, kind_text, is_field, name_text, entry_line, entry_lines, listing};
ghost use Rattle.list_text.specs.Strided.{Strided};
ghost use Rattle.list_record.specs.Answer.{ListsOne, Lists};

use counts::{Bytes, Items};
use dtype::{ARRAY, Entry, GivenRecord, Order, PLAIN, RECORD};
use emit::{put, put_bytes, put_count};
use header_prefix::Version;
use refusal::Refusal;
use write_pieces::{put_between, put_numbers};

// Puts the listing of a record, its version and its data start at the front of `out` and returns its length; or 27, 13, 20, 21, 22, 28.
pub fn list(
    version: Version,
    start: Bytes,
    given: GivenRecord<'_>,
    out: &mut [u8],
) -> Result<Bytes, Refusal>
    ensures { Lists (version_is version) start.0 given.entry.table.now given.entry.names.now given.entry.shape.now given.entry.order out.old result out.new }
{
    let found = check_record::check(given)?;
    list_checked(version, start, given, found.size, found.count, out)
}

// The same for a record that was checked: the text is measured on a scratch byte, and put where there is room.
fn list_checked(
    version: Version,
    start: Bytes,
    given: GivenRecord<'_>,
    size: Option<Bytes>,
    count: Items,
    out: &mut [u8],
) -> Result<Bytes, Refusal>
    requires { (d : Dtype) × Accepted given.table.now given.names.now given.shape.now given.order d size count }
    ensures { (d : Dtype) → Accepted given.entry.table.now given.entry.names.now given.entry.shape.now given.entry.order d size count → ListsOne (version_is version) start.0 (made d given.entry.shape.now given.entry.order) out.old result out.new }
{
    let mut scratch = [0u8; 1];
    let n = put_all(&mut scratch, version, start, given, size, count);
    if out.len() < n {
        return Err(Refusal::OutputRoom);
    }
    put_all(out, version, start, given, size, count);
    Ok(Bytes(n as u64))
}

// Puts the whole listing at the front of `out`, as far as there is room, and returns its length.
fn put_all(
    out: &mut [u8],
    version: Version,
    start: Bytes,
    given: GivenRecord<'_>,
    size: Option<Bytes>,
    count: Items,
) -> usize
    requires { (d : Dtype) × Accepted given.table.now given.names.now given.shape.now given.order d size count }
    ensures { (d : Dtype) → Accepted given.entry.table.now given.entry.names.now given.entry.shape.now given.entry.order d size count → Emits (listing (version_is version) start.0 (made d given.entry.shape.now given.entry.order)) out.old 0 out.new result }
{
    let after_version = put_between(out, 0, b"version ", version.major() as u64, b".0\n");
    let after_order = put_order(out, after_version, given.order);
    let after_shape = put_row(out, after_order, b"shape", given.shape);
    let after_strides = put_strides(out, after_shape, given.order, given.shape);
    let after_count = put_between(out, after_strides, b"count ", count.0, b"\n");
    let after_item = put_size(out, after_count, size);
    let after_data = put_between(out, after_item, b"data ", start.0, b"\n");
    put_entries(out, after_data, given.table, given.names)
}

// Puts the line of the order.
fn put_order(out: &mut [u8], at: usize, order: Order) -> usize
    ensures { Emits (order_line order) out.old at out.new result }
{
    match order {
        Order::C => put_bytes(out, at, b"order C\n"),
        Order::Fortran => put_bytes(out, at, b"order F\n"),
    }
}

// Puts a line of a word and numbers, each after a space (10 is LF).
fn put_row(out: &mut [u8], at: usize, word: &[u8], row: &[u64]) -> usize
    ensures { Emits (λ x. word.now ++ spaced_numbers row.now (10 ∷ x)) out.old at out.new result }
{
    let after_word = put_bytes(out, at, word);
    let after_numbers = put_numbers(out, after_word, b" ", row, b"");
    put(out, after_numbers, b'\n')
}

// Puts the line of the strides.
fn put_strides(out: &mut [u8], at: usize, order: Order, shape: &[u64]) -> usize
    requires { Strided order shape.now }
    ensures { Emits (strides_line (shapes.strides order shape.now)) out.old at out.new result }
{
    let mut strides = [0u64; dtype::MOST_DIMENSIONS];
    let _ = shape::strides(shape, order, &mut strides);
    put_row(out, at, b"strides", &strides[..shape.len()])
}

// Puts the line of the item size.
fn put_size(out: &mut [u8], at: usize, size: Option<Bytes>) -> usize
    ensures { Emits (item_line size) out.old at out.new result }
{
    let Some(n) = size else {
        return put_bytes(out, at, b"item none\n");
    };
    put_between(out, at, b"item ", n.0, b"\n")
}

// Puts a line for each entry of the table.
fn put_entries(out: &mut [u8], at: usize, table: &[u64], names: &[u8]) -> usize
    ensures { Emits (entry_lines (length table.now / entry_width) 0 table.now names.now) out.old at out.new result }
{
    let mut p = at;
    let mut start: usize = 0;
    for e in 0..table.len() / dtype::ENTRY {
        let entry = table_entry::entry_at(table, e);
        let end = start.saturating_add(entry.name as usize).min(names.len());
        p = put_entry(out, p, table, e, &names[start..end]);
        start = end;
    }
    p
}

// Puts the line of entry e.
fn put_entry(out: &mut [u8], at: usize, table: &[u64], e: usize, name: &[u8]) -> usize
    ensures { Emits (entry_line table.now e name.now) out.old at out.new result }
{
    let entry = table_entry::entry_at(table, e);
    let after_number = put_count(out, at, e as u64);
    let at_parent = put(out, after_number, b' ');
    let after_parent = list_text::put_parent(out, at_parent, e, entry.parent);
    let at_kind = put(out, after_parent, b' ');
    let after_kind = put_kind(out, at_kind, entry);
    let after_name = put_name(out, after_kind, is_field(table, e, entry.parent), name);
    put(out, after_name, b'\n')
}

// Puts an entry's kind and its type, its length or how many fields it has.
fn put_kind(out: &mut [u8], at: usize, entry: Entry) -> usize
    ensures { Emits (kind_text entry.kind entry) out.old at out.new result }
{
    if entry.kind == PLAIN {
        let at_type = put_bytes(out, at, b"plain ");
        return put_type(out, at_type, entry);
    }
    if entry.kind == ARRAY {
        let at_length = put_bytes(out, at, b"array ");
        return put_count(out, at_length, entry.number);
    }
    let at_fields = put_bytes(out, at, b"record ");
    put_count(out, at_fields, entry.number)
}

// Puts an entry's type string; nothing for an entry that has no type. (A type is a type_str::TypeStr of a type_letters::TypeChar and type_units::TimeUnits.)
fn put_type(out: &mut [u8], at: usize, entry: Entry) -> usize
    ensures { Emits (type_text_in (type_of entry)) out.old at out.new result }
{
    let Some(t) = table_entry::type_of(entry) else {
        // not reached by `list`: in a checked table every plain entry has a type
        return at;
    };
    type_print::put(t, out, at)
}

// Whether entry e is a field: its parent is a record.
fn is_field(table: &[u64], e: usize, parent: u64) -> bool
    ensures { parent ≡ (entry_at table.now e).parent → result ≡ is_field table.now e }
{
    e != 0 && table_entry::entry_at(table, parent as usize).kind == RECORD
}

// Puts a space and a field's name in its quotes; nothing for an entry that is no field.
fn put_name(out: &mut [u8], at: usize, field: bool, name: &[u8]) -> usize
    ensures { Emits (name_text field name.now) out.old at out.new result }
{
    if !field {
        return at;
    }
    let at_name = put(out, at, b' ');
    write_pieces::put_quoted(out, at_name, name)
}
