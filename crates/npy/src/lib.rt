// The C interface (include/npy.h): each function calls one function of the crates below and returns its answer as numbers. Called by npy_c, which exports them to C, and by run_npy, run_header, run_feed and claims.
// It returns 0 and writes its values, or returns the refusal's number and leaves all that it was lent as it was; `npy_feed` also returns 255. For a feeder's numbers `npy_feed` writes the feeder, the text buffer
// and `used` also where it does not return 0, and `npy_feed_end` the feeder. Orders, versions, types and feeders are given by their numbers, and any number is an input. (A refusal::Refusal is returned as its number; a type has a type_letters::Endianness, a type_letters::TypeChar and a type_units::TimeUnits, a value a value_float::Single or a
// value_float::Double.)
// A function that only reads chains its steps with `and_then`. One that writes to a lent room has a `match`: of a room that a closure of `and_then` wrote to, a proof knows its length alone.
#![tactic(auto)]

ghost use Rattle.counts.specs.Outcome.{then, each};
ghost use Rattle.type_str.specs.TypeString.{type_string};
ghost use Rattle.shape.specs.Count.{item_count};
ghost use Rattle.check_record.specs.Answer.{summary};
ghost use Rattle.check_record.specs.Checked.{checked_record};
ghost use Rattle.place_item.specs.Item.{item_of};
ghost use Rattle.place.specs.Place.{place_of};
ghost use Rattle.string_value.specs.Rooms.{read_bytes, read_points, write_bytes, write_points};
ghost use Rattle.value.specs.Values.{read_value};
ghost use Rattle.element.specs.Element.{element_bytes, element_points, element_value};
ghost use Rattle.header_prefix.specs.Answer.{version_is};
ghost use Rattle.header.specs.Reads.{lent};
ghost use Rattle.npy_codes.specs.Codes.{Returns, one_number, order_for, type_for, type_values, summary_values, run_values};
ghost use Rattle.npy_codes.specs.Values.{value_values};
ghost use Rattle.judge.specs.Judged.{reading};
ghost use Rattle.header_feed.specs.Feeds.{need_more};
ghost use Rattle.npy.specs.Feeding.{TakesInC, FeedsInC, EndsSayingInC, EndsInC};
ghost use Rattle.npy.specs.Calls.{ReadsInC, ReadsHeldInC, ReadsTextInC, WritesInC, ListsInC, ListsAsInC, StridesInC, PrintsInC, Puts};

use counts::Bytes;
use dtype::GivenRecord;
use header_feed::Fed;
use header_prefix::Version;
use npy_codes::{FEEDER, FeederSays};
use refusal::Refusal;

// The header of a file. Its record goes to the three lent rooms; `said` is its version, order, rank, entries, name bytes and where the data starts.
pub fn npy_read(
    file: &[u8],
    table: &mut [u64],
    names: &mut [u8],
    shape: &mut [u64],
    said: &mut [u64; 6],
) -> u8
    ensures { ReadsInC file.now (lent table.old names.old shape.old) said.old result (lent table.new names.new shape.new) said.new }
{
    npy_codes::returned(header::read(file, table, names, shape), said)
}

// The same for a file of which only the first bytes are held: `longer` if it has more.
pub fn npy_read_held(
    file: &[u8],
    longer: bool,
    table: &mut [u64],
    names: &mut [u8],
    shape: &mut [u64],
    said: &mut [u64; 6],
) -> u8
    ensures { ReadsHeldInC longer file.now (lent table.old names.old shape.old) said.old result (lent table.new names.new shape.new) said.new }
{
    npy_codes::returned(header::read_held(file, longer, table, names, shape), said)
}

// A part of a header, to a feeder, whose numbers become those of the feeder after it. The text goes to the front of `text`, a record to the three lent rooms; `said` is as of npy_read, and `used` is how
// many bytes of the part were used.
pub fn npy_feed(
    feeder: &mut [u64; FEEDER],
    part: &[u8],
    text: &mut [u8],
    table: &mut [u64],
    names: &mut [u8],
    shape: &mut [u64],
    said: &mut [u64; 6],
    used: &mut [u64; 1],
) -> u8
    ensures { FeedsInC feeder.old part.now text.old (lent table.old names.old shape.old) said.old used.old result feeder.new text.new (lent table.new names.new shape.new) said.new used.new }
{
    match npy_codes::feeder_says(*feeder) {
        FeederSays::More => feed_more(feeder, part, text, table, names, shape, said, used),
        FeederSays::Header(h) => {
            *used = [0];
            npy_codes::return_fed(Fed::Read(h), said)
        }
        FeederSays::Refused(n) => {
            *used = [0];
            n
        }
        FeederSays::NoFeeder => Refusal::NoReading.number(),
    }
}

// The same to a feeder that needs more.
fn feed_more(
    feeder: &mut [u64; FEEDER],
    part: &[u8],
    text: &mut [u8],
    table: &mut [u64],
    names: &mut [u8],
    shape: &mut [u64],
    said: &mut [u64; 6],
    used: &mut [u64; 1],
) -> u8
    ensures { TakesInC reading feeder.old part.now text.old (lent table.old names.old shape.old) said.old used.old result feeder.new text.new (lent table.new names.new shape.new) said.new used.new }
{
    let fed = header_feed::feed(
        npy_codes::feeder_at(*feeder),
        part,
        text,
        table,
        names,
        shape,
    );
    *feeder = npy_codes::feeder_numbers(fed.feeder);
    *used = [fed.used as u64];
    npy_codes::return_fed(fed.feeder.said, said)
}

// The end of the input, to a feeder: 1 or 3 if it needs more, which its numbers then say; else the outcome that it has said.
pub fn npy_feed_end(feeder: &mut [u64; FEEDER], said: &mut [u64; 6]) -> u8
    ensures { EndsInC feeder.old said.old result feeder.new said.new }
{
    match npy_codes::feeder_says(*feeder) {
        FeederSays::More => end_more(feeder, said),
        FeederSays::Header(h) => npy_codes::return_fed(Fed::Read(h), said),
        FeederSays::Refused(n) => n,
        FeederSays::NoFeeder => Refusal::NoReading.number(),
    }
}

// The same to a feeder that needs more.
fn end_more(feeder: &mut [u64; FEEDER], said: &mut [u64; 6]) -> u8
    ensures { EndsSayingInC need_more feeder.old said.old result feeder.new said.new }
{
    let after = header_feed::end(npy_codes::feeder_at(*feeder));
    *feeder = npy_codes::with_saying(*feeder, after.said);
    npy_codes::return_fed(after.said, said)
}

// The record of a header's text, of any length; `said` is its order, rank, entries and name bytes.
pub fn npy_read_text(
    text: &[u8],
    table: &mut [u64],
    names: &mut [u8],
    shape: &mut [u64],
    said: &mut [u64; 4],
) -> u8
    ensures { ReadsTextInC text.now (lent table.old names.old shape.old) said.old result (lent table.new names.new shape.new) said.new }
{
    npy_codes::returned(header::read_text(text, table, names, shape), said)
}

// Whether a record is one that some reading gives, 7 and 4 aside; `said` is its rank, entries, 1 and its item size or 0 and 0, and its item count.
pub fn npy_check(table: &[u64], names: &[u8], shape: &[u64], order: u64, said: &mut [u64; 5]) -> u8
    ensures { Returns summary_values (then (order_for order) (λ o. each summary (checked_record table.now names.now shape.now o))) said.old result said.new }
{
    let checked = npy_codes::order_for(order).and_then(|order| {
        check_record::check(GivenRecord {
            table,
            names,
            shape,
            order,
        })
    });
    npy_codes::returned(checked, said)
}

// The header of a record, at the front of `out`; `count` is its length.
pub fn npy_write_header(
    table: &[u64],
    names: &[u8],
    shape: &[u64],
    order: u64,
    out: &mut [u8],
    count: &mut [u64; 1],
) -> u8
    ensures { WritesInC table.now names.now shape.now order out.old count.old result out.new count.new }
{
    match npy_codes::order_for(order) {
        Ok(o) => npy_codes::returned(
            write::write_header(
                GivenRecord {
                    table,
                    names,
                    shape,
                    order: o,
                },
                out,
            ),
            count,
        ),
        Err(why) => why.number(),
    }
}

// The listing of a record, as document 01 prints it, at the front of `out`; `count` is its length.
pub fn npy_list(
    version: u64,
    start: u64,
    table: &[u64],
    names: &[u8],
    shape: &[u64],
    order: u64,
    out: &mut [u8],
    count: &mut [u64; 1],
) -> u8
    ensures { ListsInC version start table.now names.now shape.now order out.old count.old result out.new count.new }
{
    match npy_codes::version_for(version) {
        Ok(v) => list_as(v, start, table, names, shape, order, out, count),
        Err(why) => why.number(),
    }
}

// The same as a version that was named.
fn list_as(
    version: Version,
    start: u64,
    table: &[u64],
    names: &[u8],
    shape: &[u64],
    order: u64,
    out: &mut [u8],
    count: &mut [u64; 1],
) -> u8
    ensures { ListsAsInC (version_is version) start table.now names.now shape.now order out.old count.old result out.new count.new }
{
    match npy_codes::order_for(order) {
        Ok(o) => npy_codes::returned(
            list_record::list(
                version,
                Bytes(start),
                GivenRecord {
                    table,
                    names,
                    shape,
                    order: o,
                },
                out,
            ),
            count,
        ),
        Err(why) => why.number(),
    }
}

// The item count of a shape.
pub fn npy_count(shape: &[u64], order: u64, count: &mut [u64; 1]) -> u8
    ensures { Returns one_number (then (order_for order) (λ o. item_count o shape.now)) count.old result count.new }
{
    let items = npy_codes::order_for(order).and_then(|o| shape::count(shape, o));
    npy_codes::returned(items, count)
}

// The strides of a shape, in items, at the front of `out`; `count` is the item count.
pub fn npy_strides(shape: &[u64], order: u64, out: &mut [u64], count: &mut [u64; 1]) -> u8
    ensures { StridesInC shape.now order out.old count.old result out.new count.new }
{
    match npy_codes::order_for(order) {
        Ok(o) => npy_codes::returned(shape::strides(shape, o, out), count),
        Err(why) => why.number(),
    }
}

// The number of the item that an index names.
pub fn npy_item_number(shape: &[u64], order: u64, index: &[u64], item: &mut [u64; 1]) -> u8
    ensures { Returns one_number (then (order_for order) (λ o. item_of o shape.now index.now)) item.old result item.new }
{
    let number = npy_codes::order_for(order).and_then(|o| place_item::item_number(shape, o, index));
    npy_codes::returned(number, item)
}

// The place of an index and a path in a file of `file` bytes; `run` is its first byte, how many, and the type's four numbers.
pub fn npy_place(
    file: u64,
    start: u64,
    table: &[u64],
    names: &[u8],
    shape: &[u64],
    order: u64,
    index: &[u64],
    path: &[u64],
    run: &mut [u64; 6],
) -> u8
    ensures { Returns run_values (then (order_for order) (λ o. place_of file start table.now names.now shape.now o index.now path.now)) run.old result run.new }
{
    let place = npy_codes::order_for(order).and_then(|order| {
        let given = GivenRecord {
            table,
            names,
            shape,
            order,
        };
        place::place(Bytes(file), Bytes(start), given, index, path)
    });
    npy_codes::returned(place, run)
}

// The element S or V at its place in a file, at the front of `out`; `count` is how many bytes were written.
pub fn npy_element_bytes(
    file: &[u8],
    start: u64,
    table: &[u64],
    names: &[u8],
    shape: &[u64],
    order: u64,
    index: &[u64],
    path: &[u64],
    out: &mut [u8],
    count: &mut [u64; 1],
) -> u8
    ensures { Puts (then (order_for order) (λ o. element_bytes file.now start table.now names.now shape.now o index.now path.now out.old)) out.old count.old result out.new count.new }
{
    match npy_codes::order_for(order) {
        Ok(o) => npy_codes::returned(
            element::read_bytes(
                file,
                Bytes(start),
                GivenRecord {
                    table,
                    names,
                    shape,
                    order: o,
                },
                index,
                path,
                out,
            ),
            count,
        ),
        Err(why) => why.number(),
    }
}

// The element U at its place in a file, at the front of `out`; `count` is how many code points were written.
pub fn npy_element_points(
    file: &[u8],
    start: u64,
    table: &[u64],
    names: &[u8],
    shape: &[u64],
    order: u64,
    index: &[u64],
    path: &[u64],
    out: &mut [u32],
    count: &mut [u64; 1],
) -> u8
    ensures { Puts (then (order_for order) (λ o. element_points file.now start table.now names.now shape.now o index.now path.now out.old)) out.old count.old result out.new count.new }
{
    match npy_codes::order_for(order) {
        Ok(o) => npy_codes::returned(
            element::read_points(
                file,
                Bytes(start),
                GivenRecord {
                    table,
                    names,
                    shape,
                    order: o,
                },
                index,
                path,
                out,
            ),
            count,
        ),
        Err(why) => why.number(),
    }
}

// The value of the element at its place in a file; `said` is its kind, its bits as two numbers, and its units.
pub fn npy_element_value(
    file: &[u8],
    start: u64,
    table: &[u64],
    names: &[u8],
    shape: &[u64],
    order: u64,
    index: &[u64],
    path: &[u64],
    said: &mut [u64; 4],
) -> u8
    ensures { Returns value_values (then (order_for order) (λ o. element_value file.now start table.now names.now shape.now o index.now path.now)) said.old result said.new }
{
    let value = npy_codes::order_for(order).and_then(|order| {
        let given = GivenRecord {
            table,
            names,
            shape,
            order,
        };
        element::read_value(file, Bytes(start), given, index, path)
    });
    npy_codes::returned(value, said)
}

// The element S or V in a run of bytes, at the front of `out`; `count` is how many bytes were written.
pub fn npy_read_bytes(
    run: &[u8],
    order: u64,
    letter: u64,
    size: u64,
    units: u64,
    out: &mut [u8],
    count: &mut [u64; 1],
) -> u8
    ensures { Puts (then (type_for order letter size units) (λ t. read_bytes t run.now out.old)) out.old count.old result out.new count.new }
{
    match npy_codes::type_for(order, letter, size, units) {
        Ok(t) => npy_codes::returned(string_element::read_bytes(run, t, out), count),
        Err(why) => why.number(),
    }
}

// The element U in a run of bytes, at the front of `out`; `count` is how many code points were written.
pub fn npy_read_points(
    run: &[u8],
    order: u64,
    letter: u64,
    size: u64,
    units: u64,
    out: &mut [u32],
    count: &mut [u64; 1],
) -> u8
    ensures { Puts (then (type_for order letter size units) (λ t. read_points t run.now out.old)) out.old count.old result out.new count.new }
{
    match npy_codes::type_for(order, letter, size, units) {
        Ok(t) => npy_codes::returned(string_element::read_points(run, t, out), count),
        Err(why) => why.number(),
    }
}

// The value in a run of bytes; `said` is its kind, its bits as two numbers, and its units.
pub fn npy_read_value(
    run: &[u8],
    order: u64,
    letter: u64,
    size: u64,
    units: u64,
    said: &mut [u64; 4],
) -> u8
    ensures { Returns value_values (then (type_for order letter size units) (λ t. read_value t run.now)) said.old result said.new }
{
    let value = npy_codes::type_for(order, letter, size, units).and_then(|t| value::read(run, t));
    npy_codes::returned(value, said)
}

// The run of an element S or V, at the front of `out`; `count` is its length in bytes.
pub fn npy_write_bytes(
    order: u64,
    letter: u64,
    size: u64,
    units: u64,
    value: &[u8],
    out: &mut [u8],
    count: &mut [u64; 1],
) -> u8
    ensures { Puts (then (type_for order letter size units) (λ t. write_bytes t value.now out.old)) out.old count.old result out.new count.new }
{
    match npy_codes::type_for(order, letter, size, units) {
        Ok(t) => npy_codes::returned(string_element::write_bytes(t, value, out), count),
        Err(why) => why.number(),
    }
}

// The run of an element U, at the front of `out`; `count` is its length in bytes.
pub fn npy_write_points(
    order: u64,
    letter: u64,
    size: u64,
    units: u64,
    value: &[u32],
    out: &mut [u8],
    count: &mut [u64; 1],
) -> u8
    ensures { Puts (then (type_for order letter size units) (λ t. write_points t value.now out.old)) out.old count.old result out.new count.new }
{
    match npy_codes::type_for(order, letter, size, units) {
        Ok(t) => npy_codes::returned(string_element::write_points(t, value, out), count),
        Err(why) => why.number(),
    }
}

// The type that a type string gives, as its four numbers.
pub fn npy_type_read(text: &[u8], said: &mut [u64; 4]) -> u8
    ensures { Returns type_values (type_string text.now) said.old result said.new }
{
    npy_codes::returned(type_read::parse(text), said)
}

// The type string of a type, at the front of `out`; `count` is its length.
pub fn npy_type_print(
    order: u64,
    letter: u64,
    size: u64,
    units: u64,
    out: &mut [u8],
    count: &mut [u64; 1],
) -> u8
    ensures { PrintsInC order letter size units out.old count.old result out.new count.new }
{
    match npy_codes::type_for(order, letter, size, units) {
        Ok(t) => npy_codes::returned(type_print::print(t, out), count),
        Err(why) => why.number(),
    }
}
