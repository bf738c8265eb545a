// The customer's demands, stated in specs/ about predicates of the functions that a customer calls, and proved in proofs/. Here each predicate is tied to its function: each
// function below calls the customer's function with its own arguments, in the same order, and promises the predicate that the claims use. Nobody calls these; the checker
// proves them, so a function whose contract drifts from what the claims say of it fails here. (A type has a type_letters::Endianness, a type_letters::TypeChar and a
// type_units::TimeUnits; an answer a refusal::Refusal, counts::Items, counts::Points, check_record::Summary, place_area::Run or header::Header; a value a value_float::Single or a value_float::Double.)
#![tactic(auto)]

ghost use Rattle.header_prefix.specs.Answer.{version_is};
ghost use Rattle.header.specs.Reads.{lent};
ghost use Rattle.claims.specs.Functions.{Read, ReadHeld, ReadText, FeedStart, Feed, FeedEnd, Report, ReportWhole, PutRead, Find, NumbersListed, PutElement, Check, WriteHeader, ListRecord, Count, Strides, ItemNumber, Place, ElementBytes, ElementPoints, ElementValue, ReadBytes, ReadPoints, ReadValue, WriteBytes, WritePoints, TypeIsRead, TypeIsPrinted, Encode};
ghost use Rattle.claims.specs.InC.{NpyRead, NpyReadHeld, NpyReadText, NpyFeed, NpyFeedEnd, NpyCheck, NpyWriteHeader, NpyList, NpyCount, NpyStrides, NpyItemNumber, NpyPlace, NpyElementBytes, NpyElementPoints, NpyElementValue, NpyReadBytes, NpyReadPoints, NpyReadValue, NpyWriteBytes, NpyWritePoints, NpyTypeRead, NpyTypePrint};

use check_record::Summary;
use counts::{Bytes, Items, Points};
use dtype::{GivenRecord, Order};
use header::{Header, RecordInfo};
use header_feed::{Feeder, Feeding};
use header_prefix::Version;
use list_file::ROOM;
use npy_codes::FEEDER;
use place_area::Run;
use refusal::Refusal;
use type_str::TypeStr;
use value::Value;

// ---- the Rattle functions

fn header_read(
    file: &[u8],
    table: &mut [u64],
    names: &mut [u8],
    shape: &mut [u64],
) -> Result<Header, Refusal>
    ensures { Read file.now (lent table.old names.old shape.old) result (lent table.new names.new shape.new) }
{
    header::read(file, table, names, shape)
}

fn header_read_held(
    file: &[u8],
    longer: bool,
    table: &mut [u64],
    names: &mut [u8],
    shape: &mut [u64],
) -> Result<Header, Refusal>
    ensures { ReadHeld longer file.now (lent table.old names.old shape.old) result (lent table.new names.new shape.new) }
{
    header::read_held(file, longer, table, names, shape)
}

fn header_read_text(
    text: &[u8],
    table: &mut [u64],
    names: &mut [u8],
    shape: &mut [u64],
) -> Result<RecordInfo, Refusal>
    ensures { ReadText text.now (lent table.old names.old shape.old) result (lent table.new names.new shape.new) }
{
    header::read_text(text, table, names, shape)
}

fn header_feed_start() -> Feeder
    ensures { FeedStart result }
{
    header_feed::start()
}

fn header_feed_feed(
    f: Feeder,
    part: &[u8],
    text: &mut [u8],
    table: &mut [u64],
    names: &mut [u8],
    shape: &mut [u64],
) -> Feeding
    ensures { Feed f part.now text.old (lent table.old names.old shape.old) result text.new (lent table.new names.new shape.new) }
{
    header_feed::feed(f, part, text, table, names, shape)
}

fn header_feed_end(f: Feeder) -> Feeder
    ensures { FeedEnd f result }
{
    header_feed::end(f)
}

fn list_file_report(file: &[u8], out: &mut [u8]) -> Result<Bytes, Refusal>
    ensures { Report file.now out.old result out.new }
{
    list_file::report(file, out)
}

fn list_file_report_whole(file: &[u8], out: &mut [u8; ROOM]) -> Bytes
    ensures { ReportWhole file.now out.old result out.new }
{
    list_file::report_whole(file, out)
}

fn list_file_put_read(
    said: Result<Header, Refusal>,
    table: &[u64],
    names: &[u8],
    shape: &[u64],
    out: &mut [u8],
) -> Result<Bytes, Refusal>
    ensures { PutRead said (lent table.now names.now shape.now) out.old result out.new }
{
    list_file::put_read(said, table, names, shape, out)
}

fn get_file_find(
    held: &[u8],
    longer: bool,
    length: Bytes,
    index: &[u64],
    path: &[u64],
) -> Result<Run, Refusal>
    ensures { Find longer held.now length.0 index.now path.now result }
{
    get_file::find(held, longer, length, index, path)
}

fn get_file_numbers(text: &[u8], out: &mut [u64]) -> Option<usize>
    ensures { NumbersListed text.now out.old result out.new }
{
    get_file::numbers(text, out)
}

fn element_text_put(run: &[u8], t: TypeStr, out: &mut [u8]) -> Result<Bytes, Refusal>
    ensures { PutElement run.now t out.old result out.new }
{
    element_text::put(run, t, out)
}

fn check_record_check(
    table: &[u64],
    names: &[u8],
    shape: &[u64],
    order: Order,
) -> Result<Summary, Refusal>
    ensures { Check table.now names.now shape.now order result }
{
    let given = GivenRecord {
        table,
        names,
        shape,
        order,
    };
    check_record::check(given)
}

fn write_write_header(
    table: &[u64],
    names: &[u8],
    shape: &[u64],
    order: Order,
    out: &mut [u8],
) -> Result<Bytes, Refusal>
    ensures { WriteHeader table.now names.now shape.now order out.old result out.new }
{
    let given = GivenRecord {
        table,
        names,
        shape,
        order,
    };
    write::write_header(given, out)
}

fn list_record_list(
    version: Version,
    start: Bytes,
    table: &[u64],
    names: &[u8],
    shape: &[u64],
    order: Order,
    out: &mut [u8],
) -> Result<Bytes, Refusal>
    ensures { ListRecord (version_is version) start.0 table.now names.now shape.now order out.old result out.new }
{
    let given = GivenRecord {
        table,
        names,
        shape,
        order,
    };
    list_record::list(version, start, given, out)
}

fn shape_count(shape: &[u64], order: Order) -> Result<Items, Refusal>
    ensures { Count shape.now order result }
{
    shape::count(shape, order)
}

fn shape_strides(shape: &[u64], order: Order, out: &mut [u64]) -> Result<Items, Refusal>
    ensures { Strides shape.now order out.old result out.new }
{
    shape::strides(shape, order, out)
}

fn place_item_item_number(shape: &[u64], order: Order, index: &[u64]) -> Result<Items, Refusal>
    ensures { ItemNumber shape.now order index.now result }
{
    place_item::item_number(shape, order, index)
}

fn place_place(
    file: Bytes,
    start: Bytes,
    table: &[u64],
    names: &[u8],
    shape: &[u64],
    order: Order,
    index: &[u64],
    path: &[u64],
) -> Result<Run, Refusal>
    ensures { Place file.0 start.0 table.now names.now shape.now order index.now path.now result }
{
    let given = GivenRecord {
        table,
        names,
        shape,
        order,
    };
    place::place(file, start, given, index, path)
}

fn element_read_bytes(
    file: &[u8],
    start: Bytes,
    table: &[u64],
    names: &[u8],
    shape: &[u64],
    order: Order,
    index: &[u64],
    path: &[u64],
    out: &mut [u8],
) -> Result<Bytes, Refusal>
    ensures { ElementBytes file.now start.0 table.now names.now shape.now order index.now path.now out.old result out.new }
{
    let given = GivenRecord {
        table,
        names,
        shape,
        order,
    };
    element::read_bytes(file, start, given, index, path, out)
}

fn element_read_points(
    file: &[u8],
    start: Bytes,
    table: &[u64],
    names: &[u8],
    shape: &[u64],
    order: Order,
    index: &[u64],
    path: &[u64],
    out: &mut [u32],
) -> Result<Points, Refusal>
    ensures { ElementPoints file.now start.0 table.now names.now shape.now order index.now path.now out.old result out.new }
{
    let given = GivenRecord {
        table,
        names,
        shape,
        order,
    };
    element::read_points(file, start, given, index, path, out)
}

fn element_read_value(
    file: &[u8],
    start: Bytes,
    table: &[u64],
    names: &[u8],
    shape: &[u64],
    order: Order,
    index: &[u64],
    path: &[u64],
) -> Result<Value, Refusal>
    ensures { ElementValue file.now start.0 table.now names.now shape.now order index.now path.now result }
{
    let given = GivenRecord {
        table,
        names,
        shape,
        order,
    };
    element::read_value(file, start, given, index, path)
}

fn value_read(run: &[u8], t: TypeStr) -> Result<Value, Refusal>
    ensures { ReadValue run.now t result }
{
    value::read(run, t)
}

fn string_element_read_bytes(run: &[u8], t: TypeStr, out: &mut [u8]) -> Result<Bytes, Refusal>
    ensures { ReadBytes run.now t out.old result out.new }
{
    string_element::read_bytes(run, t, out)
}

fn string_element_read_points(run: &[u8], t: TypeStr, out: &mut [u32]) -> Result<Points, Refusal>
    ensures { ReadPoints run.now t out.old result out.new }
{
    string_element::read_points(run, t, out)
}

fn string_element_write_bytes(t: TypeStr, value: &[u8], out: &mut [u8]) -> Result<Bytes, Refusal>
    ensures { WriteBytes t value.now out.old result out.new }
{
    string_element::write_bytes(t, value, out)
}

fn string_element_write_points(t: TypeStr, value: &[u32], out: &mut [u8]) -> Result<Bytes, Refusal>
    ensures { WritePoints t value.now out.old result out.new }
{
    string_element::write_points(t, value, out)
}

fn type_read_parse(text: &[u8]) -> Result<TypeStr, Refusal>
    ensures { TypeIsRead text.now result }
{
    type_read::parse(text)
}

fn type_print_print(t: TypeStr, out: &mut [u8]) -> Result<Bytes, Refusal>
    ensures { TypeIsPrinted t out.old result out.new }
{
    type_print::print(t, out)
}

fn utf8_scalar_encode(value: u32, room: &mut [u8]) -> Result<Bytes, Refusal>
    ensures { Encode value room.old result room.new }
{
    utf8_scalar::encode(value, room)
}

// ---- the C interface

fn npy_read(
    file: &[u8],
    table: &mut [u64],
    names: &mut [u8],
    shape: &mut [u64],
    said: &mut [u64; 6],
) -> u8
    ensures { NpyRead file.now (lent table.old names.old shape.old) said.old result (lent table.new names.new shape.new) said.new }
{
    npy::npy_read(file, table, names, shape, said)
}

fn npy_read_held(
    file: &[u8],
    longer: bool,
    table: &mut [u64],
    names: &mut [u8],
    shape: &mut [u64],
    said: &mut [u64; 6],
) -> u8
    ensures { NpyReadHeld longer file.now (lent table.old names.old shape.old) said.old result (lent table.new names.new shape.new) said.new }
{
    npy::npy_read_held(file, longer, table, names, shape, said)
}

fn npy_read_text(
    text: &[u8],
    table: &mut [u64],
    names: &mut [u8],
    shape: &mut [u64],
    said: &mut [u64; 4],
) -> u8
    ensures { NpyReadText text.now (lent table.old names.old shape.old) said.old result (lent table.new names.new shape.new) said.new }
{
    npy::npy_read_text(text, table, names, shape, said)
}

fn npy_feed(
    feeder: &mut [u64; FEEDER],
    part: &[u8],
    text: &mut [u8],
    table: &mut [u64],
    names: &mut [u8],
    shape: &mut [u64],
    said: &mut [u64; 6],
    used: &mut [u64; 1],
) -> u8
    ensures { NpyFeed feeder.old part.now text.old (lent table.old names.old shape.old) said.old used.old result feeder.new text.new (lent table.new names.new shape.new) said.new used.new }
{
    npy::npy_feed(feeder, part, text, table, names, shape, said, used)
}

fn npy_feed_end(feeder: &mut [u64; FEEDER], said: &mut [u64; 6]) -> u8
    ensures { NpyFeedEnd feeder.old said.old result feeder.new said.new }
{
    npy::npy_feed_end(feeder, said)
}

fn npy_check(table: &[u64], names: &[u8], shape: &[u64], order: u64, said: &mut [u64; 5]) -> u8
    ensures { NpyCheck table.now names.now shape.now order said.old result said.new }
{
    npy::npy_check(table, names, shape, order, said)
}

fn npy_write_header(
    table: &[u64],
    names: &[u8],
    shape: &[u64],
    order: u64,
    out: &mut [u8],
    count: &mut [u64; 1],
) -> u8
    ensures { NpyWriteHeader table.now names.now shape.now order out.old count.old result out.new count.new }
{
    npy::npy_write_header(table, names, shape, order, out, count)
}

fn npy_list(
    version: u64,
    start: u64,
    table: &[u64],
    names: &[u8],
    shape: &[u64],
    order: u64,
    out: &mut [u8],
    count: &mut [u64; 1],
) -> u8
    ensures { NpyList version start table.now names.now shape.now order out.old count.old result out.new count.new }
{
    npy::npy_list(version, start, table, names, shape, order, out, count)
}

fn npy_count(shape: &[u64], order: u64, count: &mut [u64; 1]) -> u8
    ensures { NpyCount shape.now order count.old result count.new }
{
    npy::npy_count(shape, order, count)
}

fn npy_strides(shape: &[u64], order: u64, out: &mut [u64], count: &mut [u64; 1]) -> u8
    ensures { NpyStrides shape.now order out.old count.old result out.new count.new }
{
    npy::npy_strides(shape, order, out, count)
}

fn npy_item_number(shape: &[u64], order: u64, index: &[u64], item: &mut [u64; 1]) -> u8
    ensures { NpyItemNumber shape.now order index.now item.old result item.new }
{
    npy::npy_item_number(shape, order, index, item)
}

fn npy_place(
    file: u64,
    start: u64,
    table: &[u64],
    names: &[u8],
    shape: &[u64],
    order: u64,
    index: &[u64],
    path: &[u64],
    run: &mut [u64; 6],
) -> u8
    ensures { NpyPlace file start table.now names.now shape.now order index.now path.now run.old result run.new }
{
    npy::npy_place(file, start, table, names, shape, order, index, path, run)
}

fn npy_element_bytes(
    file: &[u8],
    start: u64,
    table: &[u64],
    names: &[u8],
    shape: &[u64],
    order: u64,
    index: &[u64],
    path: &[u64],
    out: &mut [u8],
    count: &mut [u64; 1],
) -> u8
    ensures { NpyElementBytes file.now start table.now names.now shape.now order index.now path.now out.old count.old result out.new count.new }
{
    npy::npy_element_bytes(
        file, start, table, names, shape, order, index, path, out, count,
    )
}

fn npy_element_points(
    file: &[u8],
    start: u64,
    table: &[u64],
    names: &[u8],
    shape: &[u64],
    order: u64,
    index: &[u64],
    path: &[u64],
    out: &mut [u32],
    count: &mut [u64; 1],
) -> u8
    ensures { NpyElementPoints file.now start table.now names.now shape.now order index.now path.now out.old count.old result out.new count.new }
{
    npy::npy_element_points(
        file, start, table, names, shape, order, index, path, out, count,
    )
}

fn npy_element_value(
    file: &[u8],
    start: u64,
    table: &[u64],
    names: &[u8],
    shape: &[u64],
    order: u64,
    index: &[u64],
    path: &[u64],
    said: &mut [u64; 4],
) -> u8
    ensures { NpyElementValue file.now start table.now names.now shape.now order index.now path.now said.old result said.new }
{
    npy::npy_element_value(file, start, table, names, shape, order, index, path, said)
}

fn npy_read_value(
    run: &[u8],
    order: u64,
    letter: u64,
    size: u64,
    units: u64,
    said: &mut [u64; 4],
) -> u8
    ensures { NpyReadValue run.now order letter size units said.old result said.new }
{
    npy::npy_read_value(run, order, letter, size, units, said)
}

fn npy_read_bytes(
    run: &[u8],
    order: u64,
    letter: u64,
    size: u64,
    units: u64,
    out: &mut [u8],
    count: &mut [u64; 1],
) -> u8
    ensures { NpyReadBytes run.now order letter size units out.old count.old result out.new count.new }
{
    npy::npy_read_bytes(run, order, letter, size, units, out, count)
}

fn npy_read_points(
    run: &[u8],
    order: u64,
    letter: u64,
    size: u64,
    units: u64,
    out: &mut [u32],
    count: &mut [u64; 1],
) -> u8
    ensures { NpyReadPoints run.now order letter size units out.old count.old result out.new count.new }
{
    npy::npy_read_points(run, order, letter, size, units, out, count)
}

fn npy_write_bytes(
    order: u64,
    letter: u64,
    size: u64,
    units: u64,
    value: &[u8],
    out: &mut [u8],
    count: &mut [u64; 1],
) -> u8
    ensures { NpyWriteBytes order letter size units value.now out.old count.old result out.new count.new }
{
    npy::npy_write_bytes(order, letter, size, units, value, out, count)
}

fn npy_write_points(
    order: u64,
    letter: u64,
    size: u64,
    units: u64,
    value: &[u32],
    out: &mut [u8],
    count: &mut [u64; 1],
) -> u8
    ensures { NpyWritePoints order letter size units value.now out.old count.old result out.new count.new }
{
    npy::npy_write_points(order, letter, size, units, value, out, count)
}

fn npy_type_read(text: &[u8], said: &mut [u64; 4]) -> u8
    ensures { NpyTypeRead text.now said.old result said.new }
{
    npy::npy_type_read(text, said)
}

fn npy_type_print(
    order: u64,
    letter: u64,
    size: u64,
    units: u64,
    out: &mut [u8],
    count: &mut [u64; 1],
) -> u8
    ensures { NpyTypePrint order letter size units out.old count.old result out.new count.new }
{
    npy::npy_type_print(order, letter, size, units, out, count)
}
