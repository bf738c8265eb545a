// The record of a judged text, written to three lent rooms, or 23. No other refusal is left, so the walk that writes cannot fail: `fill`, `fill_record` and
// `fields` call each other in a cycle, and each bracket that opens leaves one fewer. A type string and a field's name are written by functions outside the
// cycle, which can be inlined. A record's entry is written after its fields', and the array levels of a sub-shape after their type's: their sizes are known
// then.
ghost use Rattle.std.specs.Prelude.{◌≡◌, true, false, ◌+◌, ◌/◌, ◌≤◌, ◌<◌, length};
ghost use Rattle.std.proofs.lemmas.List.Edits.{sets};
ghost use Rattle.descr_field.specs.Begins.{is_string};
ghost use Rattle.literal.specs.Answer.{end_of};
ghost use Rattle.literal_escapes.specs.Strings.{spelled, scanned};
ghost use Rattle.dtype.specs.Record.{entry_width, Record};
ghost use Rattle.record.specs.Rooms.{rooms, too_small};
ghost use Rattle.literal_bytes.specs.Text.{byte_at, kind_of, skip};
ghost use Rattle.judge.specs.Judged.{PlanOf};
ghost use Rattle.header.specs.Reads.{lent, Stores};
ghost use Rattle.header.specs.Filled.{DueHead, Headed, DueShapeAt, Shapes, DueAt, Fills, DuePlainAt, FillsPlain, DueFieldsFrom, FillsFields};

use crate::RecordInfo;
use counts::Bytes;
use descr_field::{closing_at, place_of, string_at, typed_at};
use dtype::MOST_DIMENSIONS;
use judge::FoundRecord;
use literal_bytes::{Gap, Parsed, gap_at, then_at};
use literal_decode::decode;
use literal_escapes::Scan;
use literal_grammar::MOST_OPEN;
use refusal::Refusal;
use saturating::held_sum;
use table_fill::{put_plain, put_record, put_sub_shape, type_in};

// Where a descr ends, the entry and the name byte that come after its own, and its size as an entry holds it.
#[derive(Clone, Copy)]
struct DescrFilled {
    end: usize,
    entry: usize,
    byte: usize,
    size: Bytes,
}

// The same for fields, and how many they are.
#[derive(Clone, Copy)]
struct FieldsFilled {
    end: usize,
    entry: usize,
    byte: usize,
    size: Bytes,
    count: u64,
}

// How many bytes the name of a field has, the name byte that comes after it, and where the inner descr begins.
#[derive(Clone, Copy)]
struct NameFilled {
    len: u64,
    byte: usize,
    inner: usize,
}

// Writes the table, the names and the shape of an accepted record to the lent rooms, and returns its order and how much of each room it takes; or 23, and nothing is
// written.
pub(crate) fn store_record(
    text: &[u8],
    plan: FoundRecord,
    table: &mut [u64],
    names: &mut [u8],
    shape: &mut [u64],
) -> Result<RecordInfo, Refusal>
    requires { (r : Record) × PlanOf text.now (skip text.now 0) plan r }
    ensures { (r : Record) → PlanOf text.now (skip text.now 0) plan r → Stores r (lent table.old names.old shape.old) result (lent table.new names.new shape.new) }
{
    let order = plan.order;
    let shaped = plan.shape;
    let outline = shaped.outline;
    let rank = outline.rank;
    let descr = plan.descr;
    let totals = descr.totals;
    let entries = totals.entries as usize;
    let bytes = totals.names as usize;
    if too_small(table.len(), names.len(), shape.len(), entries, bytes, rank) {
        return Err(Refusal::Room);
    }
    fill(text, descr.at, MOST_OPEN - 1, table, 0, 0, 0, names, 0);
    shape_text::fill(text, shaped.at, MOST_OPEN - 1, shape);
    Ok(RecordInfo {
        order: order,
        rank: rank,
        entries: entries,
        names: bytes,
    })
}

// Whether rooms of `table` numbers, `names` bytes and `shape` numbers are too small for `entries` entries, `bytes` name bytes and `rank` dimensions.
fn too_small(
    table: usize,
    names: usize,
    shape: usize,
    entries: usize,
    bytes: usize,
    rank: usize,
) -> bool
    ensures { result ≡ too_small (rooms (table / entry_width) names shape) (rooms entries bytes rank) }
{
    (table / dtype::ENTRY < entries) | (names < bytes) | (shape < rank)
}

// Writes the table and the names of the descr at `at`, from entry `entry` and from byte `byte` on. Its parent is the entry `up`, and its name has `name`
// bytes.
#[cycle(fields_fill_fill_record)]
fn fill(
    text: &[u8],
    at: usize,
    room: usize,
    table: &mut [u64],
    entry: usize,
    up: u64,
    name: u64,
    names: &mut [u8],
    byte: usize,
) -> DescrFilled
    requires { DueAt room text.now at entry table.old byte names.old }
    ensures { Fills room text.now at entry up name byte table.old names.old table.new names.new result }
{
    if string_at(text, at) {
        return fill_plain(text, at, table, entry, up, name, byte);
    }
    fill_record(text, at, room, table, entry, up, name, names, byte)
}

// The same for a string, which is a type string: its entry, and no names.
fn fill_plain(
    text: &[u8],
    at: usize,
    table: &mut [u64],
    entry: usize,
    up: u64,
    name: u64,
    byte: usize,
) -> DescrFilled
    requires at_value { is_string (kind_of (byte_at text.now at)) ≡ true }
    requires due_plain_at { DuePlainAt text.now at entry table.old byte }
    ensures { FillsPlain text.now at entry up name byte table.old table.new result }
{
    let t = typed_at(text, at + 1, text[at]);
    let ended = t.ended;
    let read = t.read;
    let size = put_plain(table, entry, type_in(read), up, name);
    DescrFilled {
        end: end_place(ended),
        entry: entry + 1,
        byte: byte,
        size: size,
    }
}

// The same for anything else, which is a list of fields.
#[cycle(fields_fill_fill_record)]
fn fill_record(
    text: &[u8],
    at: usize,
    room: usize,
    table: &mut [u64],
    entry: usize,
    up: u64,
    name: u64,
    names: &mut [u8],
    byte: usize,
) -> DescrFilled
    requires at_value { is_string (kind_of (byte_at text.now at)) ≡ false }
    requires due_at { DueAt room text.now at entry table.old byte names.old }
    ensures { Fills room text.now at entry up name byte table.old names.old table.new names.new result }
{
    let own = entry as u64;
    let r = fields(text, at + 1, room - 1, table, entry + 1, own, names, byte);
    let size = r.size;
    put_record(table, entry, up, name, r.count, r.entry, size);
    DescrFilled {
        end: r.end,
        entry: r.entry,
        byte: r.byte,
        size: size,
    }
}

// The fields of a record, up to its closing bracket: of each its name, its type, and then the levels of its sub-shape above the type. Where the inner descr
// ends is known once it is written, so that no text is read once for each bracket around it.
#[cycle(fields_fill_fill_record)]
fn fields(
    text: &[u8],
    from: usize,
    room: usize,
    table: &mut [u64],
    entry: usize,
    up: u64,
    names: &mut [u8],
    byte: usize,
) -> FieldsFilled
    requires { DueFieldsFrom room text.now from entry table.old byte names.old }
    ensures { FillsFields room text.now from entry up byte table.old names.old table.new names.new result }
{
    let mut g = gap_at(text, from, b']');
    let mut at = entry;
    let mut b = byte;
    let mut size = Bytes(0);
    let mut count: u64 = 0;
    loop {
        let Gap::Item(p) = g else {
            return FieldsFilled {
                end: place_of(g),
                entry: at,
                byte: b,
                size: size,
                count: count,
            };
        };
        let close = closing_at(text, p);
        let h = head_at(text, p, close, names, b);
        let q = fill(text, h.inner, room - 1, table, at, up, h.len, names, h.byte);
        let r = shaped(text, close, room - 1, q, table, at, up, h.len);
        at = r.entry;
        b = r.byte;
        size = held_sum(size, r.size);
        count += 1;
        g = then_at(text, r.end, b']');
    }
}

// Writes the name of the field at `at`, whose closing bracket is `close`, from byte `byte` on; returns its length, the byte after it, and where the inner
// descr begins.
fn head_at(text: &[u8], at: usize, close: u8, names: &mut [u8], byte: usize) -> NameFilled
    requires { DueHead text.now at close byte names.old }
    ensures { Headed text.now at close byte names.old names.new result }
{
    let p = place_of(gap_at(text, at + 1, close));
    let m = name_at(text, p, names, byte);
    let ended = m.ended;
    let len = m.len;
    NameFilled {
        len: len as u64,
        byte: byte + len,
        inner: place_of(then_at(text, end_place(ended), close)),
    }
}

// Writes the array levels of the sub-shape, if there is one after the inner descr that was filled as `r`, before the entries of that descr, which are moved
// to make room; returns the same as `r` for the whole field.
fn shaped(
    text: &[u8],
    close: u8,
    room: usize,
    r: DescrFilled,
    table: &mut [u64],
    entry: usize,
    up: u64,
    name: u64,
) -> DescrFilled
    requires { DueShapeAt room text.now close table.old r }
    ensures { Shapes room text.now close entry up name table.old table.new r result }
{
    let g = then_at(text, r.end, close);
    let of = r.size;
    let Gap::Item(p) = g else {
        return DescrFilled {
            end: place_of(g),
            entry: r.entry,
            byte: r.byte,
            size: of,
        };
    };
    let mut shape: [u64; MOST_DIMENSIONS] = [0; MOST_DIMENSIONS];
    let s = shape_text::fill(text, p, room, &mut shape);
    let rank = s.rank;
    let stop = s.stop;
    let size = put_sub_shape(table, entry, up, name, &shape[..rank], r.entry, of);
    DescrFilled {
        end: place_of(then_at(text, place_of(stop), close)),
        entry: r.entry + rank,
        byte: r.byte,
        size: size,
    }
}

// The scan of the string at `at`; the name that it spells is written from byte `byte` on.
fn name_at(text: &[u8], at: usize, names: &mut [u8], byte: usize) -> Scan
    requires at_in_bounds { at < length text.now }
    requires at_in_bounds_2 { byte + length (spelled (byte_at text.now at) text.now (at + 1)).bytes ≤ length names.old }
    ensures value { result ≡ scanned (spelled (byte_at text.now at) text.now (at + 1)) }
    ensures names_after { names.new ≡ sets names.old byte (spelled (byte_at text.now at) text.now (at + 1)).bytes }
{
    decode(text, at + 1, text[at], &mut names[byte..])
}

// Where a reading ended.
fn end_place(p: Parsed) -> usize
    ensures { result ≡ end_of p }
{
    match p {
        Parsed::Value(e) => e,
        // not reached by its callers, nor is `Deep`: the text was judged, so its strings end
        Parsed::Fault(e) => e,
        Parsed::Deep(e) => e,
    }
}
