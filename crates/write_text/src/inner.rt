// The walk over a table that write_depth's check has accepted: `put_descr` and `put_fields` call each other in a cycle, once for each record; array levels are passed by
// `write_depth::innermost`. Entries and names are met in their order. What comes between the names and the types is put by write_pieces.
ghost use Rattle.std.specs.Prelude.{◌≡◌};
ghost use Rattle.emit.specs.Emits.{Emits};
ghost use Rattle.literal_grammar.specs.Print.{print, print_row};
ghost use Rattle.dtype.specs.Dtype.{Dtype, Fields};
ghost use Rattle.dtype.specs.Entries.{entries_of, entries_in, field_count};
ghost use Rattle.dtype.specs.Record.{name_bytes_of, name_bytes_in};
ghost use Rattle.record.specs.Layout.{descr_layout, field_row, header_layout};
ghost use Rattle.check_record.specs.Valid.{made};
ghost use Rattle.write_text.specs.Walk.{ListedNamed, ListedNamedIn, Walked};

use dtype::{GivenRecord, PLAIN};

// The entry and the name byte that come after a dtype's own, and the place after its text.
#[derive(Clone, Copy)]
struct WalkEnd {
    entry: usize,
    byte: usize,
    at: usize,
}

// Puts the text of the dtype at entry e, whose names begin at byte b. Array levels are put by their field.
#[cycle(put_descr_put_fields)]
fn put_descr(table: &[u64], names: &[u8], e: usize, b: usize, out: &mut [u8], at: usize) -> WalkEnd
    requires { (d : Dtype) × ListedNamed table.now names.now e b d }
    ensures { (d : Dtype) → ListedNamed table.now names.now e b d → Walked (print (descr_layout d)) (entries_of d) (name_bytes_of d) out.old e b at out.new result }
{
    let under = write_depth::innermost(table, e);
    let entry = table_entry::entry_at(table, under);
    if entry.kind == PLAIN {
        let after_type = write_pieces::put_type(out, at, entry);
        return WalkEnd {
            entry: under + 1,
            byte: b,
            at: after_type,
        };
    }
    let inside = emit::put(out, at, b'[');
    let last = put_fields(table, names, entry.number, under + 1, b, out, inside);
    let after_bracket = emit::put(out, last.at, b']');
    WalkEnd {
        entry: last.entry,
        byte: last.byte,
        at: after_bracket,
    }
}

// Puts `count` fields, the first at entry e; their names begin at byte b.
#[cycle(put_descr_put_fields)]
fn put_fields(
    table: &[u64],
    names: &[u8],
    count: u64,
    e: usize,
    b: usize,
    out: &mut [u8],
    at: usize,
) -> WalkEnd
    requires { (fs : Fields) × (count ≡ field_count fs) × ListedNamedIn table.now names.now e b fs }
    ensures { (fs : Fields) → count ≡ field_count fs → ListedNamedIn table.now names.now e b fs → Walked (print_row (field_row fs)) (entries_in fs) (name_bytes_in fs) out.old e b at out.new result }
{
    let mut c = e;
    let mut start = b;
    let mut p = at;
    for _ in 0..count {
        let field = table_entry::entry_at(table, c);
        let end = start + field.name as usize;
        let opened = write_pieces::open_field(out, p, &names[start..end]);
        let inner = put_descr(table, names, c, end, out, opened);
        p = write_pieces::close_field(out, inner.at, table, c);
        c = inner.entry;
        start = inner.byte;
    }
    WalkEnd {
        entry: c,
        byte: start,
        at: p,
    }
}

// Puts the dict's text of a dtype that is listed in the table and the names.
pub(crate) fn put_dict(given: GivenRecord<'_>, out: &mut [u8], at: usize) -> usize
    requires { (d : Dtype) × ListedNamed given.table.now given.names.now 0 0 d }
    ensures { (d : Dtype) → ListedNamed given.entry.table.now given.entry.names.now 0 0 d → Emits (print (header_layout (made d given.entry.shape.now given.entry.order))) out.old at out.new result }
{
    let after_key = emit::put_bytes(out, at, b"{'descr': ");
    let descr = put_descr(given.table, given.names, 0, 0, out, after_key);
    write_pieces::put_rest(out, descr.at, given.order, given.shape)
}
