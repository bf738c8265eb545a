// The functions of include/npy.h for C: each is the function of the same name in crate npy, which is a library. Called from C.
#![tactic(auto)]

ghost use Rattle.counts.specs.Outcome.{then, each};
ghost use Rattle.type_str.specs.TypeString.{type_string};
ghost use Rattle.shape.specs.Count.{item_count};
ghost use Rattle.check_record.specs.Answer.{summary};
ghost use Rattle.check_record.specs.Checked.{checked_record};
ghost use Rattle.place_item.specs.Item.{item_of};
ghost use Rattle.place.specs.Place.{place_of};
ghost use Rattle.string_value.specs.Rooms.{read_bytes, read_points, write_bytes, write_points};
ghost use Rattle.value.specs.Values.{read_value};
ghost use Rattle.element.specs.Element.{element_bytes, element_points, element_value};
ghost use Rattle.header.specs.Reads.{lent};
ghost use Rattle.npy_codes.specs.Codes.{Returns, one_number, order_for, type_for, type_values, summary_values, run_values};
ghost use Rattle.npy_codes.specs.Values.{value_values};
ghost use Rattle.npy.specs.Feeding.{FeedsInC, EndsInC};
ghost use Rattle.npy.specs.Calls.{ReadsInC, ReadsHeldInC, ReadsTextInC, WritesInC, ListsInC, StridesInC, PrintsInC, Puts};

use npy_codes::FEEDER;

// The header of a file. Its record goes to the three lent rooms; `said` is its version, order, rank, entries, name bytes and where the data starts.
#[unsafe(no_mangle)]
pub extern "C" fn npy_read(
    file: &[u8],
    table: &mut [u64],
    names: &mut [u8],
    shape: &mut [u64],
    said: &mut [u64; 6],
) -> u8
    ensures { ReadsInC file.now (lent table.old names.old shape.old) said.old result (lent table.new names.new shape.new) said.new }
{
    npy::npy_read(file, table, names, shape, said)
}

// The same for a file of which only the first bytes are held: `longer` if it has more.
#[unsafe(no_mangle)]
pub extern "C" fn npy_read_held(
    file: &[u8],
    longer: bool,
    table: &mut [u64],
    names: &mut [u8],
    shape: &mut [u64],
    said: &mut [u64; 6],
) -> u8
    ensures { ReadsHeldInC longer file.now (lent table.old names.old shape.old) said.old result (lent table.new names.new shape.new) said.new }
{
    npy::npy_read_held(file, longer, table, names, shape, said)
}

// A part of a header, to a feeder, whose numbers become those of the feeder after it. The text goes to the front of `text`, a record to the three lent rooms; `said` is as of npy_read, and `used` is how
// many bytes of the part were used.
#[unsafe(no_mangle)]
pub extern "C" fn npy_feed(
    feeder: &mut [u64; FEEDER],
    part: &[u8],
    text: &mut [u8],
    table: &mut [u64],
    names: &mut [u8],
    shape: &mut [u64],
    said: &mut [u64; 6],
    used: &mut [u64; 1],
) -> u8
    ensures { FeedsInC feeder.old part.now text.old (lent table.old names.old shape.old) said.old used.old result feeder.new text.new (lent table.new names.new shape.new) said.new used.new }
{
    npy::npy_feed(feeder, part, text, table, names, shape, said, used)
}

// The end of the input, to a feeder: 1 or 3 if it needs more, which its numbers then say; else the outcome that it has said.
#[unsafe(no_mangle)]
pub extern "C" fn npy_feed_end(feeder: &mut [u64; FEEDER], said: &mut [u64; 6]) -> u8
    ensures { EndsInC feeder.old said.old result feeder.new said.new }
{
    npy::npy_feed_end(feeder, said)
}

// The record of a header's text, of any length; `said` is its order, rank, entries and name bytes.
#[unsafe(no_mangle)]
pub extern "C" fn npy_read_text(
    text: &[u8],
    table: &mut [u64],
    names: &mut [u8],
    shape: &mut [u64],
    said: &mut [u64; 4],
) -> u8
    ensures { ReadsTextInC text.now (lent table.old names.old shape.old) said.old result (lent table.new names.new shape.new) said.new }
{
    npy::npy_read_text(text, table, names, shape, said)
}

// Whether a record is one that some reading gives, 7 and 4 aside; `said` is its rank, entries, 1 and its item size or 0 and 0, and its item count.
#[unsafe(no_mangle)]
pub extern "C" fn npy_check(
    table: &[u64],
    names: &[u8],
    shape: &[u64],
    order: u64,
    said: &mut [u64; 5],
) -> u8
    ensures { Returns summary_values (then (order_for order) (λ o. each summary (checked_record table.now names.now shape.now o))) said.old result said.new }
{
    npy::npy_check(table, names, shape, order, said)
}

// The header of a record, at the front of `out`; `count` is its length.
#[unsafe(no_mangle)]
pub extern "C" fn npy_write_header(
    table: &[u64],
    names: &[u8],
    shape: &[u64],
    order: u64,
    out: &mut [u8],
    count: &mut [u64; 1],
) -> u8
    ensures { WritesInC table.now names.now shape.now order out.old count.old result out.new count.new }
{
    npy::npy_write_header(table, names, shape, order, out, count)
}

// The listing of a record, as document 01 prints it, at the front of `out`; `count` is its length.
#[unsafe(no_mangle)]
pub extern "C" fn npy_list(
    version: u64,
    start: u64,
    table: &[u64],
    names: &[u8],
    shape: &[u64],
    order: u64,
    out: &mut [u8],
    count: &mut [u64; 1],
) -> u8
    ensures { ListsInC version start table.now names.now shape.now order out.old count.old result out.new count.new }
{
    npy::npy_list(version, start, table, names, shape, order, out, count)
}

// The item count of a shape.
#[unsafe(no_mangle)]
pub extern "C" fn npy_count(shape: &[u64], order: u64, count: &mut [u64; 1]) -> u8
    ensures { Returns one_number (then (order_for order) (λ o. item_count o shape.now)) count.old result count.new }
{
    npy::npy_count(shape, order, count)
}

// The strides of a shape, in items, at the front of `out`; `count` is the item count.
#[unsafe(no_mangle)]
pub extern "C" fn npy_strides(
    shape: &[u64],
    order: u64,
    out: &mut [u64],
    count: &mut [u64; 1],
) -> u8
    ensures { StridesInC shape.now order out.old count.old result out.new count.new }
{
    npy::npy_strides(shape, order, out, count)
}

// The number of the item that an index names.
#[unsafe(no_mangle)]
pub extern "C" fn npy_item_number(
    shape: &[u64],
    order: u64,
    index: &[u64],
    item: &mut [u64; 1],
) -> u8
    ensures { Returns one_number (then (order_for order) (λ o. item_of o shape.now index.now)) item.old result item.new }
{
    npy::npy_item_number(shape, order, index, item)
}

// The place of an index and a path in a file of `file` bytes; `run` is its first byte, how many, and the type's four numbers.
#[unsafe(no_mangle)]
pub extern "C" fn npy_place(
    file: u64,
    start: u64,
    table: &[u64],
    names: &[u8],
    shape: &[u64],
    order: u64,
    index: &[u64],
    path: &[u64],
    run: &mut [u64; 6],
) -> u8
    ensures { Returns run_values (then (order_for order) (λ o. place_of file start table.now names.now shape.now o index.now path.now)) run.old result run.new }
{
    npy::npy_place(file, start, table, names, shape, order, index, path, run)
}

// The element S or V at its place in a file, at the front of `out`; `count` is how many bytes were written.
#[unsafe(no_mangle)]
pub extern "C" fn npy_element_bytes(
    file: &[u8],
    start: u64,
    table: &[u64],
    names: &[u8],
    shape: &[u64],
    order: u64,
    index: &[u64],
    path: &[u64],
    out: &mut [u8],
    count: &mut [u64; 1],
) -> u8
    ensures { Puts (then (order_for order) (λ o. element_bytes file.now start table.now names.now shape.now o index.now path.now out.old)) out.old count.old result out.new count.new }
{
    npy::npy_element_bytes(
        file, start, table, names, shape, order, index, path, out, count,
    )
}

// The element U at its place in a file, at the front of `out`; `count` is how many code points were written.
#[unsafe(no_mangle)]
pub extern "C" fn npy_element_points(
    file: &[u8],
    start: u64,
    table: &[u64],
    names: &[u8],
    shape: &[u64],
    order: u64,
    index: &[u64],
    path: &[u64],
    out: &mut [u32],
    count: &mut [u64; 1],
) -> u8
    ensures { Puts (then (order_for order) (λ o. element_points file.now start table.now names.now shape.now o index.now path.now out.old)) out.old count.old result out.new count.new }
{
    npy::npy_element_points(
        file, start, table, names, shape, order, index, path, out, count,
    )
}

// The value of the element at its place in a file; `said` is its kind, its bits as two numbers, and its units.
#[unsafe(no_mangle)]
pub extern "C" fn npy_element_value(
    file: &[u8],
    start: u64,
    table: &[u64],
    names: &[u8],
    shape: &[u64],
    order: u64,
    index: &[u64],
    path: &[u64],
    said: &mut [u64; 4],
) -> u8
    ensures { Returns value_values (then (order_for order) (λ o. element_value file.now start table.now names.now shape.now o index.now path.now)) said.old result said.new }
{
    npy::npy_element_value(file, start, table, names, shape, order, index, path, said)
}

// The element S or V in a run of bytes, at the front of `out`; `count` is how many bytes were written.
#[unsafe(no_mangle)]
pub extern "C" fn npy_read_bytes(
    run: &[u8],
    order: u64,
    letter: u64,
    size: u64,
    units: u64,
    out: &mut [u8],
    count: &mut [u64; 1],
) -> u8
    ensures { Puts (then (type_for order letter size units) (λ t. read_bytes t run.now out.old)) out.old count.old result out.new count.new }
{
    npy::npy_read_bytes(run, order, letter, size, units, out, count)
}

// The element U in a run of bytes, at the front of `out`; `count` is how many code points were written.
#[unsafe(no_mangle)]
pub extern "C" fn npy_read_points(
    run: &[u8],
    order: u64,
    letter: u64,
    size: u64,
    units: u64,
    out: &mut [u32],
    count: &mut [u64; 1],
) -> u8
    ensures { Puts (then (type_for order letter size units) (λ t. read_points t run.now out.old)) out.old count.old result out.new count.new }
{
    npy::npy_read_points(run, order, letter, size, units, out, count)
}

// The value in a run of bytes; `said` is its kind, its bits as two numbers, and its units.
#[unsafe(no_mangle)]
pub extern "C" fn npy_read_value(
    run: &[u8],
    order: u64,
    letter: u64,
    size: u64,
    units: u64,
    said: &mut [u64; 4],
) -> u8
    ensures { Returns value_values (then (type_for order letter size units) (λ t. read_value t run.now)) said.old result said.new }
{
    npy::npy_read_value(run, order, letter, size, units, said)
}

// The run of an element S or V, at the front of `out`; `count` is its length in bytes.
#[unsafe(no_mangle)]
pub extern "C" fn npy_write_bytes(
    order: u64,
    letter: u64,
    size: u64,
    units: u64,
    value: &[u8],
    out: &mut [u8],
    count: &mut [u64; 1],
) -> u8
    ensures { Puts (then (type_for order letter size units) (λ t. write_bytes t value.now out.old)) out.old count.old result out.new count.new }
{
    npy::npy_write_bytes(order, letter, size, units, value, out, count)
}

// The run of an element U, at the front of `out`; `count` is its length in bytes.
#[unsafe(no_mangle)]
pub extern "C" fn npy_write_points(
    order: u64,
    letter: u64,
    size: u64,
    units: u64,
    value: &[u32],
    out: &mut [u8],
    count: &mut [u64; 1],
) -> u8
    ensures { Puts (then (type_for order letter size units) (λ t. write_points t value.now out.old)) out.old count.old result out.new count.new }
{
    npy::npy_write_points(order, letter, size, units, value, out, count)
}

// The type that a type string gives, as its four numbers.
#[unsafe(no_mangle)]
pub extern "C" fn npy_type_read(text: &[u8], said: &mut [u64; 4]) -> u8
    ensures { Returns type_values (type_string text.now) said.old result said.new }
{
    npy::npy_type_read(text, said)
}

// The type string of a type, at the front of `out`; `count` is its length.
#[unsafe(no_mangle)]
pub extern "C" fn npy_type_print(
    order: u64,
    letter: u64,
    size: u64,
    units: u64,
    out: &mut [u8],
    count: &mut [u64; 1],
) -> u8
    ensures { PrintsInC order letter size units out.old count.old result out.new count.new }
{
    npy::npy_type_print(order, letter, size, units, out, count)
}
