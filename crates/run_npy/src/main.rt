// Replays framed cases through every function of the C interface but `npy_feed` and `npy_feed_end` (run_feed), one line an answer: the returned number, the values, and the final content of each lent room. The
// parts of a case and of a line are described in docs/FRAMES.md. Every lent number and byte is 5 before a call.
#![tactic(auto)]

ghost use Rattle.std.specs.Prelude.{◌≤◌, length, ◌<◌};

use dtype::{MOST_NAMES, TABLE};
use type_letters::Endianness;

// The room for a case.
const CASE: usize = 147456;

// The room for the numbers of a case's table.
const TABLE_NUMBERS: usize = 8192;

// The room for the dimensions of a case's shape, and of the shape that is read.
const DIMENSIONS: usize = 64;

// The room for the numbers of a case's index, of its path, and of a string that is written.
const ROW: usize = 256;

// The most numbers and code points that a case lends, and the bytes of a small room.
const FEW: usize = 1024;

// The most bytes that a case lends.
const MANY: usize = 131088;

// The number of a function, and what it is called with.
#[derive(Clone, Copy)]
struct Call<'a> {
    op: u8,
    given: [u64; 7],
    bytes: &'a [u8],
    table: &'a [u64],
    names: &'a [u8],
    shape: &'a [u64],
    index: &'a [u64],
    path: &'a [u64],
}

fn main(rt: HostRuntime) {
    let mut room = [0u8; CASE];
    let mut table = [0; TABLE_NUMBERS];
    let mut input = rt.stdin();
    // A proved loop has to end, and nothing says that the input does; no run has this many cases.
    for _ in 0..u64::MAX {
        let Some(n) = run_frames::next(&mut input, &mut room) else {
            return;
        };
        replay(&rt, &room[..n], &mut table);
        if rt.write_all(b"\n").is_err() {
            return;
        }
    }
}

// Runs a case. The numbers of its table are stored at the front of `table`, and only these are lent.
fn replay(rt: &impl Print, case: &[u8], table: &mut [u64]) {
    let Some((op, parts)) = case.split_first() else {
        return;
    };
    let mut given = [0u64; 7];
    let mut shape = [0u64; DIMENSIONS];
    let mut index = [0u64; ROW];
    let mut path = [0u64; ROW];
    store(part(parts, 1), &mut given);
    let rank = store(part(parts, 2), &mut shape);
    let places = store(part(parts, 3), &mut index);
    let numbers = store(part(parts, 4), table);
    let steps = store(part(parts, 6), &mut path);
    let call = Call {
        op: *op,
        given,
        bytes: part(parts, 0),
        table: &table[..numbers],
        names: part(parts, 5),
        shape: &shape[..rank],
        index: &index[..places],
        path: &path[..steps],
    };
    ask(rt, call);
}

// ---- the parts of a case

fn part(parts: &[u8], k: usize) -> &[u8] {
    let mut rest = parts;
    for _ in 0..k {
        rest = &rest[part_end(rest)..];
    }
    content(rest)
}

fn content(parts: &[u8]) -> &[u8] {
    let end = part_end(parts);
    let start = at_most(4, end);
    &parts[start..end]
}

// Stores the numbers of a part, as many as have room, and returns how many. The first byte of the part is the number of bytes of each.
fn store(bytes: &[u8], room: &mut [u64]) -> usize
    ensures { result ≤ length room.new }
{
    let Some((width, numbers)) = bytes.split_first() else {
        return 0;
    };
    let width = at_most(*width as u64, 8);
    let mut rest = numbers;
    for i in 0..room.len() {
        if rest.len() < width {
            return i;
        }
        room[i] = number(&rest[..width], Endianness::Little);
        rest = &rest[width..];
    }
    room.len()
}

// ---- the calls, by what is lent: three rooms for a record; only the values; a room of numbers, bytes or code points

fn ask(rt: &impl Print, call: Call) {
    match call.op {
        0..=2 => lend_record(rt, call),
        3..=5 | 18.. => lend_values(rt, call),
        // filling a large room for each case takes long
        _ if call.given[4] <= FEW as u64 => lend_few(rt, call),
        _ => lend_many(rt, call),
    }
}

fn lend_values(rt: &impl Print, call: Call) {
    let [a, b, c, d, ..] = call.given;
    let mut four = [5u64; 4];
    let mut five = [5u64; 5];
    let mut six = [5u64; 6];
    match call.op {
        3 => {
            let r = npy::npy_type_read(call.bytes, &mut four);
            tell(rt, r, &four);
        }
        4 => {
            let r = npy::npy_check(call.table, call.names, call.shape, a, &mut five);
            tell(rt, r, &five);
        }
        5 => {
            let r = npy::npy_place(
                c, b, call.table, call.names, call.shape, a, call.index, call.path, &mut six,
            );
            tell(rt, r, &six);
        }
        18 => {
            let r = npy::npy_element_value(
                call.bytes, b, call.table, call.names, call.shape, a, call.index, call.path,
                &mut four,
            );
            tell(rt, r, &four);
        }
        _ => {
            let r = npy::npy_read_value(call.bytes, a, b, c, d, &mut four);
            tell(rt, r, &four);
        }
    }
}

fn lend_record(rt: &impl Print, call: Call) {
    let mut table = [5u64; TABLE];
    let mut names = [5u8; MOST_NAMES];
    let mut shape = [5u64; DIMENSIONS];
    let numbers = at_most(call.given[4], TABLE);
    let named = at_most(call.given[5], MOST_NAMES);
    let rank = at_most(call.given[6], DIMENSIONS);
    read_record(
        rt,
        call,
        &mut table[..numbers],
        &mut names[..named],
        &mut shape[..rank],
    );
}

fn read_record(
    rt: &impl Print,
    call: Call,
    table: &mut [u64],
    names: &mut [u8],
    shape: &mut [u64],
) {
    let mut six = [5u64; 6];
    let mut four = [5u64; 4];
    match call.op {
        0 => {
            let r = npy::npy_read(call.bytes, table, names, shape, &mut six);
            tell(rt, r, &six);
        }
        1 => {
            let longer = call.given[0] != 0;
            let r = npy::npy_read_held(call.bytes, longer, table, names, shape, &mut six);
            tell(rt, r, &six);
        }
        _ => {
            let r = npy::npy_read_text(call.bytes, table, names, shape, &mut four);
            tell(rt, r, &four);
        }
    }
    show(rt, table);
    show_bytes(rt, names);
    show(rt, shape);
}

// A function fills the rooms that it has, whether or not it comes to them: so each of the two has one of its own.
fn lend_few(rt: &impl Print, call: Call) {
    lend_room(rt, call, &mut [5; FEW]);
}

fn lend_many(rt: &impl Print, call: Call) {
    lend_room(rt, call, &mut [5; MANY]);
}

fn lend_room(rt: &impl Print, call: Call, out: &mut [u8]) {
    let mut numbers = [5u64; FEW];
    let mut points = [5u32; FEW];
    let few = at_most(call.given[4], FEW);
    let many = at_most(call.given[4], out.len());
    ask_room(
        rt,
        call,
        &mut numbers[..few],
        &mut out[..many],
        &mut points[..few],
    );
}

fn ask_room(rt: &impl Print, call: Call, numbers: &mut [u64], out: &mut [u8], points: &mut [u32]) {
    let mut count = [5u64; 1];
    let r = fill_room(call, numbers, out, points, &mut count);
    tell(rt, r, &count);
    show(rt, numbers);
    show_bytes(rt, out);
    show(rt, points);
}

fn fill_room(
    call: Call,
    numbers: &mut [u64],
    out: &mut [u8],
    points: &mut [u32],
    count: &mut [u64; 1],
) -> u8 {
    let [a, b, c, d, ..] = call.given;
    match call.op {
        6 => npy::npy_count(call.shape, a, count),
        7 => npy::npy_item_number(call.shape, a, call.index, count),
        8 => npy::npy_strides(call.shape, a, numbers, count),
        9 => npy::npy_element_bytes(
            call.bytes, b, call.table, call.names, call.shape, a, call.index, call.path, out, count,
        ),
        10 => npy::npy_element_points(
            call.bytes, b, call.table, call.names, call.shape, a, call.index, call.path, points,
            count,
        ),
        11 => npy::npy_read_bytes(call.bytes, a, b, c, d, out, count),
        12 => npy::npy_read_points(call.bytes, a, b, c, d, points, count),
        13 => npy::npy_write_bytes(a, b, c, d, call.bytes, out, count),
        14 => write_points(a, b, c, d, call.index, out, count),
        15 => npy::npy_type_print(a, b, c, d, out, count),
        16 => npy::npy_write_header(call.table, call.names, call.shape, a, out, count),
        _ => npy::npy_list(c, b, call.table, call.names, call.shape, a, out, count),
    }
}

fn write_points(
    a: u64,
    b: u64,
    c: u64,
    d: u64,
    value: &[u64],
    out: &mut [u8],
    count: &mut [u64; 1],
) -> u8 {
    let mut points = [0u32; ROW];
    let n = value.len().min(ROW);
    for (point, number) in points.iter_mut().zip(value) {
        *point = (*number & 0xffff_ffff) as u32;
    }
    npy::npy_write_points(a, b, c, d, &points[..n], out, count)
}

// ---- the line

// ---- what other replay programs have too: a public function of a library would have to state its whole result, and no contract can say what is printed

// Prints what was returned, and the values if that is 0 or if they were changed.
fn tell(rt: &impl Print, r: u8, values: &[u64]) {
    say_number(rt, r as u64);
    if r == 0 || changed(values) > 0 {
        say_numbers(rt, values);
    }
}

fn at_most(n: u64, most: usize) -> usize
    ensures { result ≤ most }
{
    n.min(most as u64) as usize
}

// The number in these bytes, or 2^64-1 where it is larger.
fn number(bytes: &[u8], order: Endianness) -> u64 {
    number_bytes::read(bytes, order).unwrap_or(u64::MAX)
}

// Where the first part ends: four bytes for its length, then its content; at most the end of the case.
fn part_end(parts: &[u8]) -> usize
    ensures inside { result ≤ length parts.now }
    ensures some { 0 < length parts.now → 0 < result }
{
    if parts.len() < 4 {
        return parts.len();
    }
    4 + at_most(number(&parts[..4], Endianness::Little), parts.len() - 4)
}

// Writes text. A write that fails is passed over: the line's end then fails too, and ends the run.
fn say(rt: &impl Print, text: &[u8]) {
    let _ = rt.write_all(text);
}

fn say_number(rt: &impl Print, n: u64) {
    let _ = rt.print(n);
}

fn say_numbers<T: Copy + Into<u64>>(rt: &impl Print, numbers: &[T]) {
    for n in numbers {
        say(rt, b" ");
        say_number(rt, (*n).into());
    }
}

// Prints a room of numbers without the 5s at its end.
fn show<T: Copy + Into<u64>>(rt: &impl Print, room: &[T]) {
    say(rt, b";");
    say_numbers(rt, &room[..changed(room)]);
}

// Prints a room of bytes in hexadecimal, eight at a time, without the 5s at its end.
fn show_bytes(rt: &impl Print, room: &[u8]) {
    say(rt, b";");
    for run in room[..changed(room)].chunks(8) {
        say_hex(rt, run);
    }
}

fn say_hex(rt: &impl Print, run: &[u8]) {
    let n = number(run, Endianness::Big);
    let width = 2 * at_most(run.len() as u64, 8);
    let _ = print!(rt; "{n:0width$x}");
}

// How many numbers of a room there are before the 5s at its end: every lent number is 5 before a call.
fn changed<T: Copy + Into<u64>>(room: &[T]) -> usize
    ensures { result ≤ length room.now }
{
    for i in (0..room.len()).rev() {
        if room[i].into() != 5 {
            return i + 1;
        }
    }
    0
}
