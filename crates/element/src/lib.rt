// Reads the element that an index and a path name in a file: a string element (document 01, "String elements") into lent room, or a value (document 02, wish 1); or the place's refusal,
// then of a string element 26 for another type, 29, 23, and of a value 31, 32. A refusal leaves the room as it was. Called by the C interface.
#![tactic(auto)]

ghost use Rattle.std.specs.Prelude.{◌≡◌, length};
ghost use Rattle.refusal.specs.Answers.{bytes_answer, points_answer, answer};
ghost use Rattle.counts.specs.Owes.{Owes};
ghost use Rattle.place.specs.Place.{place_of};
ghost use Rattle.element.specs.Element.{element_bytes, element_points, element_value};

use counts::{Bytes, Points};
use dtype::GivenRecord;
use place_area::Run;
use refusal::Refusal;
use value::Value;

// The place of the element in its file, or its refusal.
fn place_in(
    file: &[u8],
    start: Bytes,
    given: GivenRecord<'_>,
    index: &[u64],
    path: &[u64],
) -> Result<Run, Refusal>
    ensures { answer result ≡ place_of (length file.now) start.0 given.entry.table.now given.entry.names.now given.entry.shape.now given.entry.order index.now path.now }
{
    place::place(Bytes(file.len() as u64), start, given, index, path)
}

// Reads the element of S or V that an index and a path name, and returns how many bytes were written.
pub fn read_bytes(
    file: &[u8],
    start: Bytes,
    given: GivenRecord<'_>,
    index: &[u64],
    path: &[u64],
    out: &mut [u8],
) -> Result<Bytes, Refusal>
    ensures { Owes (element_bytes file.now start.0 given.entry.table.now given.entry.names.now given.entry.shape.now given.entry.order index.now path.now out.old) out.old (bytes_answer result) out.new }
{
    let run = place_in(file, start, given, index, path)?;
    string_element::read_bytes(place_area::part(file, run), run.kind, out)
}

// Reads the element of U that an index and a path name, and returns how many code points were written. (Bytes and code points are kept apart, document 01.)
pub fn read_points(
    file: &[u8],
    start: Bytes,
    given: GivenRecord<'_>,
    index: &[u64],
    path: &[u64],
    out: &mut [u32],
) -> Result<Points, Refusal>
    ensures { Owes (element_points file.now start.0 given.entry.table.now given.entry.names.now given.entry.shape.now given.entry.order index.now path.now out.old) out.old (points_answer result) out.new }
{
    let run = place_in(file, start, given, index, path)?;
    string_element::read_points(place_area::part(file, run), run.kind, out)
}

// The value of the element that an index and a path name. (Its floats are a value_float::Single or a value_float::Double, the unit of a time a type_units::TimeUnits.)
pub fn read_value(
    file: &[u8],
    start: Bytes,
    given: GivenRecord<'_>,
    index: &[u64],
    path: &[u64],
) -> Result<Value, Refusal>
    ensures { answer result ≡ element_value file.now start.0 given.entry.table.now given.entry.names.now given.entry.shape.now given.entry.order index.now path.now }
{
    let run = place_in(file, start, given, index, path)?;
    value::read(place_area::part(file, run), run.kind)
}
