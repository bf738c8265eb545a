// The data area of a file (document 01, "The record"): the item that an index names there, or 24, 25, then 13, 22, 26 of its number; where a part of an item starts; and the bytes
// of a place. Called by place, which gives it a checked record's size, count and shape, so that only 26 is left of the three; and by element.
#![tactic(auto)]

ghost use Rattle.refusal.specs.Answers.{answer};
ghost use Rattle.std.specs.Prelude.{◌≡◌, ◌+◌, ◌*◌, min, ltb, take, drop};
ghost use Rattle.counts.specs.Number.{number};
ghost use Rattle.counts.specs.Counts.{bytes};
ghost use Rattle.place_area.specs.Indexed.{indexed};

use counts::{Bytes, Items};
use dtype::Order;
use refusal::Refusal;
use type_str::TypeStr;

// The bytes of a plain type in a file.
#[derive(Clone, Copy)]
pub struct Run {
    pub first: Bytes,
    pub len: Bytes,
    pub kind: TypeStr,
}

// An item by its number, and its size.
#[derive(Clone, Copy)]
pub struct Numbered {
    pub which: Items,
    pub size: Bytes,
}

// The item that an index names in a file of this length, whose data starts at `start`.
pub fn item(
    file: Bytes,
    start: Bytes,
    size: Option<Bytes>,
    count: Items,
    shape: &[u64],
    order: Order,
    index: &[u64],
) -> Result<Numbered, Refusal>
    ensures { answer result ≡ indexed file.0 start.0 size count.0 order shape.now index.now }
{
    let Some(size) = size else {
        return Err(Refusal::HasObject);
    };
    if is_short(file, start, count, size) {
        return Err(Refusal::ShortFile);
    }
    let which = place_item::item_number(shape, order, index)?;
    Ok(Numbered { which, size })
}

// Whether a file is shorter than data start + count times item size.
pub fn is_short(file: Bytes, start: Bytes, count: Items, size: Bytes) -> bool
    ensures { result ≡ ltb file.0 (start.0 + count.0 * size.0) }
{
    let Some(area) = count.of_size(size) else {
        return true;
    };
    let Some(end) = start.plus(area) else {
        return true;
    };
    file.0 < end.0
}

// Data start + item size times item number + offset inside the item.
pub fn first_byte(start: Bytes, which: Items, size: Bytes, offset: Bytes) -> Option<Bytes>
    ensures { result ≡ bytes (number (start.0 + which.0 * size.0 + offset.0)) }
{
    let before = which.of_size(size)?;
    let item = start.plus(before)?;
    item.plus(offset)
}

// The bytes of a run in a file, as far as the file reaches.
pub fn part(file: &[u8], run: Run) -> &[u8]
    ensures { result.now ≡ take run.len.0 (drop run.first.0 file.now) }
{
    let start = least(run.first, file.len());
    let end = start + least(run.len, file.len() - start);
    &file[start..end]
}

// So many bytes as an index of a slice, at most `limit`.
fn least(n: Bytes, limit: usize) -> usize
    ensures { result ≡ min n.0 limit }
{
    n.0.min(limit as u64) as usize
}
