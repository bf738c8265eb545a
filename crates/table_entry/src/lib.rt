// One entry of the dtype table: its nine numbers read from a table, and the type of a plain entry, to and from those numbers.
// Called by every crate that walks a table: check_*, place, list_record, write_*; by table_fill, which writes one; and by npy_codes.
#![tactic(auto)]

ghost use Rattle.std.specs.Prelude.{◌≡◌, ◌*◌, ◌<◌, get_or, drop};
ghost use Rattle.type_letters.specs.Letters.{order_of, letter_of};
ghost use Rattle.type_letters.specs.Answer.{order_answer, letter_answer};
ghost use Rattle.type_units.specs.Answer.{units_answer};
ghost use Rattle.dtype.specs.Record.{entry_width};
ghost use Rattle.dtype.specs.EntryOf.{entry_of};
ghost use Rattle.dtype.specs.Agrees.{entry_at};
ghost use Rattle.table_entry.specs.EntryType.{units_for, type_of};
ghost use Rattle.table_entry.specs.Answer.{type_answer};
ghost use Rattle.dtype.specs.Dtype.{plain};
ghost use Rattle.dtype.specs.TypeNumbers.{units_number};

use dtype::{Entry, PLAIN};
use saturating::held_bytes;
use type_letters::{Endianness, TypeChar};
use type_str::TypeStr;
use type_units::TimeUnits;

// Entry e of a table; a number that the table does not reach is 0.
pub fn entry_at(table: &[u64], e: usize) -> Entry
    ensures { result ≡ entry_at table.now e }
{
    Entry {
        parent: number_at(table, e, 0),
        kind: number_at(table, e, 1),
        order: number_at(table, e, 2),
        letter: number_at(table, e, 3),
        number: number_at(table, e, 4),
        units: number_at(table, e, 5),
        extent: number_at(table, e, 6),
        bytes: number_at(table, e, 7),
        name: number_at(table, e, 8),
    }
}

// Number k of entry e, or 0 past the table's end.
fn number_at(table: &[u64], e: usize, k: usize) -> u64
    requires { k < entry_width }
    ensures { result ≡ get_or (drop (entry_width * e) table.now) k 0 }
{
    if table.len() / dtype::ENTRY < e {
        return 0;
    }
    table.get(dtype::ENTRY * e + k).copied().unwrap_or(0)
}

// The type of a plain entry, from its numbers for order, letter, size and units.
pub fn type_of(entry: Entry) -> Option<TypeStr>
    ensures { type_answer result ≡ type_of entry }
{
    let order = order_of(entry.order)?;
    let letter = letter_of(entry.letter)?;
    let units = units_of(entry.units)?;
    let found = TypeStr {
        order,
        letter,
        size: entry.number,
        units,
    };
    if found.is_type() { Some(found) } else { None }
}

fn order_of(n: u64) -> Option<Endianness>
    ensures { order_answer result ≡ order_of n }
{
    Endianness::from_byte(u8::try_from(n).ok()?)
}

fn letter_of(n: u64) -> Option<TypeChar>
    ensures { letter_answer result ≡ letter_of n }
{
    TypeChar::from_byte(u8::try_from(n).ok()?)
}

// The inverse of `units_number`.
#[tactic(auto, unfolding(crate::specs::EntryType::units_for))]
fn units_of(n: u64) -> Option<TimeUnits>
    ensures { units_answer result ≡ units_for n }
{
    match n {
        0 => Some(TimeUnits::Absent),
        1 => Some(TimeUnits::Year),
        2 => Some(TimeUnits::Month),
        3 => Some(TimeUnits::Week),
        4 => Some(TimeUnits::Day),
        5 => Some(TimeUnits::Hour),
        6 => Some(TimeUnits::Minute),
        7 => Some(TimeUnits::Second),
        8 => Some(TimeUnits::Millisecond),
        9 => Some(TimeUnits::Microsecond),
        10 => Some(TimeUnits::Nanosecond),
        11 => Some(TimeUnits::Picosecond),
        12 => Some(TimeUnits::Femtosecond),
        13 => Some(TimeUnits::Attosecond),
        _ => None,
    }
}

// The entry of a plain type with this parent, and a name of `name` bytes.
pub fn plain_entry(t: TypeStr, parent: u64, name: u64) -> Entry
    ensures { result ≡ entry_of (plain t) parent name }
{
    Entry {
        parent,
        kind: PLAIN,
        order: t.order.to_byte() as u64,
        letter: t.letter.to_byte() as u64,
        number: t.size,
        units: units_number(t.units),
        extent: 1,
        bytes: held_bytes(t).0,
        name,
    }
}

// 0 for no units, then from 1 on in document 01's order.
pub fn units_number(u: TimeUnits) -> u64
    ensures { result ≡ units_number u }
{
    u as u64
}
