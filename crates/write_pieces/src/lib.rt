// Puts the pieces of a header's text that need no walk over a whole table (document 01, "Header bytes out"): names, types, shapes, what comes before and after a field's
// type, and what comes after the descr. Each is put at `at`, as emit puts, and the place after it is returned. write_text calls it, and the listing for names and numbers.
#![tactic(auto)]

ghost use Rattle.std.specs.Prelude.{◌≡◌, ◌<◌, ◌∷◌, ◌++◌, IfSome, unwrap_or};
ghost use Rattle.decimal.specs.Decimal.{printed};
ghost use Rattle.emit.specs.Emits.{Emits};
ghost use Rattle.literal_grammar.specs.Print.{escape_of, spelled_byte, escapes, quote, print, print_row, word_text};
ghost use Rattle.record.specs.Layout.{dimension_row, shape_layout, is_fortran};
ghost use Rattle.table_entry.specs.EntryType.{type_of};
ghost use Rattle.write_pieces.specs.Pieces.{numbers_between, type_piece, levels_at, open_text, close_text, rest_text};

use dtype::{ARRAY, Entry, Order};

// The letter after the backslash of a byte that is escaped.
fn escape_of(b: u8) -> Option<u8>
    ensures is { unwrap_or result 0 ≡ escape_of b }
    ensures some { IfSome result (λ letter. 0 < letter) }
{
    match b {
        b'\\' => Some(b'\\'),
        b'\'' => Some(b'\''),
        b'\r' => Some(b'r'),
        b'\n' => Some(b'n'),
        _ => None,
    }
}

// Puts one byte of a name.
fn put_spelled(out: &mut [u8], at: usize, b: u8) -> usize
    ensures { Emits (spelled_byte (escape_of b) b) out.old at out.new result }
{
    let Some(letter) = escape_of(b) else {
        return emit::put(out, at, b);
    };
    let after_backslash = emit::put(out, at, b'\\');
    emit::put(out, after_backslash, letter)
}

// Puts a name as it is between its quotes.
fn put_escaped(out: &mut [u8], at: usize, name: &[u8]) -> usize
    ensures { Emits (escapes name.now) out.old at out.new result }
{
    let mut p = at;
    for b in name {
        p = put_spelled(out, p, *b);
    }
    p
}

// Puts a name in its quotes.
pub fn put_quoted(out: &mut [u8], at: usize, name: &[u8]) -> usize
    ensures { Emits (print (quote name.now)) out.old at out.new result }
{
    let inside = emit::put(out, at, b'\'');
    let after_name = put_escaped(out, inside, name);
    emit::put(out, after_name, b'\'')
}

// Puts a number between two texts.
pub fn put_between(out: &mut [u8], at: usize, before: &[u8], n: u64, after: &[u8]) -> usize
    ensures { Emits (λ x. before.now ++ printed n (after.now ++ x)) out.old at out.new result }
{
    let inside = emit::put_bytes(out, at, before);
    let after_number = emit::put_count(out, inside, n);
    emit::put_bytes(out, after_number, after)
}

// Puts numbers, each with `before` before it and `after` after it.
pub fn put_numbers(out: &mut [u8], at: usize, before: &[u8], numbers: &[u64], after: &[u8]) -> usize
    ensures { Emits (numbers_between before.now after.now numbers.now) out.old at out.new result }
{
    let mut p = at;
    for n in numbers {
        p = put_between(out, p, before, *n, after);
    }
    p
}

// Puts a shape in its brackets, each dimension followed by a comma and a space.
fn put_shape(out: &mut [u8], at: usize, shape: &[u64]) -> usize
    ensures { Emits (print (shape_layout 1 shape.now)) out.old at out.new result }
{
    let inside = emit::put(out, at, b'(');
    let after_last = put_numbers(out, inside, b"", shape, b", ");
    emit::put(out, after_last, b')')
}

// Puts an entry's type string in its quotes; nothing for an entry that has no type.
pub fn put_type(out: &mut [u8], at: usize, entry: Entry) -> usize
    ensures { Emits (type_piece (type_of entry)) out.old at out.new result }
{
    let Some(t) = table_entry::type_of(entry) else {
        return at;
    };
    let inside = emit::put(out, at, b'\'');
    let after_type = type_print::put(t, out, inside);
    emit::put(out, after_type, b'\'')
}

// Puts what comes before a field's type: its bracket, its name, comma and space.
pub fn open_field(out: &mut [u8], at: usize, name: &[u8]) -> usize
    ensures { Emits (open_text name.now) out.old at out.new result }
{
    let inside = emit::put(out, at, b'(');
    let after_name = put_quoted(out, inside, name);
    emit::put_bytes(out, after_name, b", ")
}

// Puts a dimension and its comma (44).
fn put_dimension(out: &mut [u8], at: usize, n: u64) -> usize
    ensures { Emits (λ x. printed n (44 ∷ x)) out.old at out.new result }
{
    let after_number = emit::put_count(out, at, n);
    emit::put(out, after_number, b',')
}

// Puts the dimensions of the array levels from entry e on, outermost first, each followed by a comma.
fn put_levels(out: &mut [u8], at: usize, table: &[u64], e: usize) -> usize
    ensures { Emits (print_row (dimension_row 0 (levels_at table.now e))) out.old at out.new result }
{
    let mut p = at;
    let mut c = e;
    let mut level = table_entry::entry_at(table, e);
    while level.kind == ARRAY {
        p = put_dimension(out, p, level.number);
        c += 1;
        level = table_entry::entry_at(table, c);
    }
    p
}

// Puts what comes after a field's type: its sub-shape where it has one, its bracket, comma and space.
pub fn close_field(out: &mut [u8], at: usize, table: &[u64], e: usize) -> usize
    ensures { Emits (close_text (levels_at table.now e)) out.old at out.new result }
{
    let entry = table_entry::entry_at(table, e);
    if entry.kind == ARRAY {
        let inside = emit::put_bytes(out, at, b", (");
        let after_levels = put_levels(out, inside, table, e);
        return emit::put_bytes(out, after_levels, b")), ");
    }
    emit::put_bytes(out, at, b"), ")
}

// Puts `True` for Fortran order, `False` for C.
fn put_order(out: &mut [u8], at: usize, order: Order) -> usize
    ensures { Emits (word_text (is_fortran order)) out.old at out.new result }
{
    match order {
        Order::C => emit::put_bytes(out, at, b"False"),
        Order::Fortran => emit::put_bytes(out, at, b"True"),
    }
}

// Puts what comes after the descr: the order, the shape and the dict's bracket.
pub fn put_rest(out: &mut [u8], at: usize, order: Order, shape: &[u64]) -> usize
    ensures { Emits (rest_text order shape.now) out.old at out.new result }
{
    let after_key = emit::put_bytes(out, at, b", 'fortran_order': ");
    let after_order = put_order(out, after_key, order);
    let at_shape = emit::put_bytes(out, after_order, b", 'shape': ");
    let after_shape = put_shape(out, at_shape, shape);
    emit::put_bytes(out, after_shape, b", }")
}
