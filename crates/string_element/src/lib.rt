// Reads the value of a string element from its bytes into lent room, and writes one (document 01, "String elements"). The run is all the bytes of the element, as its place in a
// file gives them. Called by the crate element and by the C interface.
#![tactic(auto)]

ghost use Rattle.std.specs.Prelude.{◌≡◌, [], ◌++◌, ◌≤◌, length, drop, take};
ghost use Rattle.counts.specs.Lists.{at_front};
ghost use Rattle.counts.specs.Outcome.{each, gives};
ghost use Rattle.refusal.specs.Answers.{bytes_answer, points_answer};
ghost use Rattle.emit.specs.Emits.{Emits};
ghost use Rattle.utf8_scalar.specs.Scalar.{all_scalars};
ghost use Rattle.string_value.specs.Elements.{trimmed, point, points, found};
ghost use Rattle.string_value.specs.Runs.{zero_filled, point_bytes};
ghost use Rattle.counts.specs.Owes.{roomed, Owes};
ghost use Rattle.string_value.specs.Rooms.{read_bytes, read_points, write_bytes, write_points};
ghost use Rattle.string_element.specs.Answer.{point_answer};

use counts::{Bytes, Points};
use refusal::Refusal;
use type_letters::{Endianness, TypeChar};
use type_str::TypeStr;

// Reads an element of S or V, and returns how many bytes were written; or the first of 27, 26, 23 that applies.
pub fn read_bytes(run: &[u8], t: TypeStr, out: &mut [u8]) -> Result<Bytes, Refusal>
    ensures { Owes (read_bytes t run.now out.old) out.old (bytes_answer result) out.new }
{
    if !t.is_type() {
        return Err(Refusal::NoReading);
    }
    match t.letter {
        TypeChar::ByteStr => copy(&run[..string_value::kept(run)], out),
        TypeChar::RawData => copy(run, out),
        _ => Err(Refusal::Nowhere),
    }
}

// Writes a value that has room, and returns its length; or 23.
fn copy(value: &[u8], out: &mut [u8]) -> Result<Bytes, Refusal>
    ensures { Owes (roomed 23 out.old value.now) out.old (bytes_answer result) out.new }
{
    if out.len() < value.len() {
        return Err(Refusal::Room);
    }
    store(value, out);
    Ok(Bytes(value.len() as u64))
}

// Stores a value at the front of room that is long enough. (A loop: a copy of a slice would be a call of `memmove`, which the archive for C would then need from outside.)
fn store(value: &[u8], out: &mut [u8])
    requires { length value.now ≤ length out.old }
    ensures { out.new ≡ at_front value.now out.old }
{
    for i in 0..value.len() {
        out[i] = value[i];
    }
}

// Reads an element of U, and returns how many code points were written; or the first of 27, 26, 29, 23 that applies. Every four bytes are judged before any is written.
pub fn read_points(run: &[u8], t: TypeStr, out: &mut [u32]) -> Result<Points, Refusal>
    ensures { Owes (read_points t run.now out.old) out.old (points_answer result) out.new }
{
    if !t.is_type() {
        return Err(Refusal::NoReading);
    }
    if !t.letter.is_unicode() {
        return Err(Refusal::Nowhere);
    }
    let n = judge(run, t.order)?;
    if (out.len() as u64) < n.0 {
        return Err(Refusal::Room);
    }
    copy_points(run, t.order, n, out)
}

// How many code points of a run are left without its trailing zeros; or 29 where four bytes are no scalar value.
pub fn judge(run: &[u8], order: Endianness) -> Result<Points, Refusal>
    ensures { points_answer result ≡ each (λ ps. length (trimmed ps)) (points order run.now) }
{
    let mut count = 0;
    let mut kept = 0;
    for at in (0..run.len()).step_by(4) {
        let Some(p) = point_at(run, order, at) else {
            return Err(Refusal::Scalar);
        };
        count += 1;
        if p != 0 {
            kept = count;
        }
    }
    Ok(Points(kept))
}

// The code point in the four bytes from `at` on.
pub fn point_at(run: &[u8], order: Endianness, at: usize) -> Option<u32>
    ensures { point_answer result ≡ point order (drop at run.now) }
{
    if run.len() < 4 || run.len() - 4 < at {
        return None;
    }
    // never None: the number in four bytes is below 2^32
    let n = number_bytes::read(&run[at..at + 4], order)?;
    if n > 0x10FFFF || !utf8_scalar::is_scalar(n as u32) {
        return None;
    }
    Some(n as u32)
}

// Writes the first n code points of a run that was judged, and returns n; none of them is refused.
fn copy_points(run: &[u8], order: Endianness, n: Points, out: &mut [u32]) -> Result<Points, Refusal>
    requires { (n.0 ≤ length (found (points order run.now))) × (n.0 ≤ length out.old) }
    ensures { (points_answer result ≡ gives n.0) × (out.new ≡ take n.0 (found (points order run.now)) ++ drop n.0 out.old) }
{
    for i in 0..n.0 as usize {
        let Some(p) = point_at(run, order, 4 * i) else {
            // not reached: the run was judged
            return Err(Refusal::Scalar);
        };
        out[i] = p;
    }
    Ok(n)
}

// Writes an element of S or V, and returns how many bytes were written; or the first of 27, 26, 30, 28 that applies.
pub fn write_bytes(t: TypeStr, value: &[u8], out: &mut [u8]) -> Result<Bytes, Refusal>
    ensures { Owes (write_bytes t value.now out.old) out.old (bytes_answer result) out.new }
{
    if !t.is_type() {
        return Err(Refusal::NoReading);
    }
    let fits = match t.letter {
        TypeChar::ByteStr => value.len() as u64 <= t.size,
        TypeChar::RawData => value.len() as u64 == t.size,
        _ => return Err(Refusal::Nowhere),
    };
    if !fits {
        return Err(Refusal::Misfit);
    }
    place_bytes(Bytes(t.size), value, out)
}

// Writes a value that fits, filled up with zeros, and returns its size; or 28. Nothing is written unless all of it has room, so the loop runs over no more bytes than the room has.
fn place_bytes(size: Bytes, value: &[u8], out: &mut [u8]) -> Result<Bytes, Refusal>
    requires { length value.now ≤ size.0 }
    ensures { Owes (roomed 28 out.old (zero_filled size.0 value.now)) out.old (bytes_answer result) out.new }
{
    if (out.len() as u64) < size.0 {
        return Err(Refusal::OutputRoom);
    }
    put_filled(out, size, value);
    Ok(size)
}

// Writes a value filled up with zeros to the front of `out`.
fn put_filled(out: &mut [u8], size: Bytes, value: &[u8])
    requires { (length value.now ≤ size.0) × (size.0 ≤ length out.old) }
    ensures { out.new ≡ at_front (zero_filled size.0 value.now) out.old }
{
    store(value, out);
    // not `fill`, which would be a call of `memset`
    let mut p = value.len();
    for _ in value.len()..size.0 as usize {
        p = emit::put(out, p, 0);
    }
}

// Writes an element of U, and returns how many bytes were written; or the first of 27, 26, 29, 30, 28 that applies.
pub fn write_points(t: TypeStr, value: &[u32], out: &mut [u8]) -> Result<Bytes, Refusal>
    ensures { Owes (write_points t value.now out.old) out.old (bytes_answer result) out.new }
{
    if !t.is_type() {
        return Err(Refusal::NoReading);
    }
    if !t.letter.is_unicode() {
        return Err(Refusal::Nowhere);
    }
    if !all_scalars(value) {
        return Err(Refusal::Scalar);
    }
    if t.size < value.len() as u64 {
        return Err(Refusal::Misfit);
    }
    place_points(t.order, Points(t.size), value, out)
}

// Whether each number is a scalar value.
pub fn all_scalars(value: &[u32]) -> bool
    ensures { result ≡ all_scalars value.now }
{
    value.iter().all(|c| utf8_scalar::is_scalar(*c))
}

// Writes a value that fits, filled up with zeros, and returns how many bytes that are; or 28. More than 2^64-1 bytes have no room anywhere.
fn place_points(
    order: Endianness,
    size: Points,
    value: &[u32],
    out: &mut [u8],
) -> Result<Bytes, Refusal>
    requires { length value.now ≤ size.0 }
    ensures { Owes (roomed 28 out.old (point_bytes order (zero_filled size.0 value.now) [])) out.old (bytes_answer result) out.new }
{
    let Some(bytes) = size.in_bytes() else {
        return Err(Refusal::OutputRoom);
    };
    if (out.len() as u64) < bytes.0 {
        return Err(Refusal::OutputRoom);
    }
    put_points(out, order, size, value);
    Ok(bytes)
}

// Writes code points filled up with zeros to the front of `out`, and returns where they end.
fn put_points(out: &mut [u8], order: Endianness, size: Points, value: &[u32]) -> usize
    requires { length value.now ≤ size.0 }
    ensures { Emits (point_bytes order (zero_filled size.0 value.now)) out.old 0 out.new result }
{
    let mut p = 0;
    for i in 0..size.0 as usize {
        let c = value.get(i).copied().unwrap_or(0);
        p = number_bytes::put(out, p, order, 4, c as u64);
    }
    p
}
