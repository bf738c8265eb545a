// Replays framed cases of headers that arrive part by part, one line an answer. A case is a list of calls of `npy_feed` and `npy_feed_end`, and its line has what each returned; or a file that is fed in
// many cuttings, each of which is compared here with `npy_read` of the whole, and its line has how many differ. The bytes of a case and of a line are described in docs/FRAMES.md.
#![tactic(auto)]

ghost use Rattle.std.specs.Prelude.{◌<◌, ◌≤◌, length};

use dtype::{MOST_NAMES, TABLE};
use type_letters::Endianness;

// The room for a case.
const CASE: usize = 147456;

// The most bytes of a text buffer, and the most dimensions, that a case lends.
const TEXT: usize = 131088;

const DIMENSIONS: usize = 64;

// Where the feeder's numbers and the calls of a case begin; and the file of one that is cut.
const NUMBERS: usize = 33;

const CALLS: usize = 193;

const FILE: usize = 49;

// How many numbers a feeder has.
const FEEDER: usize = 20;

// What npy_feed returns if it needs more, and if the buffer is too short.
const MORE: u8 = 255;

const BUFFER: u8 = 36;

// More parts than a case has bytes, with as many empty ones.
const PARTS: u64 = 300000;

// The most that a case lends.
#[derive(Drop)]
struct Cases {
    text: [u8; TEXT],
    table: [u64; TABLE],
    names: [u8; MOST_NAMES],
    shape: [u64; DIMENSIONS],
}

// What a case lends: the front of each room.
#[derive(Drop)]
struct Rooms<'a> {
    text: &'a mut [u8],
    table: &'a mut [u64],
    names: &'a mut [u8],
    shape: &'a mut [u64],
}

// The cuttings of a kind that a case asks for, from one number up to another.
#[derive(Clone, Copy)]
struct Plan {
    kind: u8,
    from: u64,
    upto: u64,
}

// What document 02 says of a file: the number that is returned, the total of bytes used when it comes, if it comes, and from where to where the text bytes are that the buffer then holds.
#[derive(Clone, Copy)]
struct Want {
    number: u8,
    total: Option<usize>,
    from: usize,
    to: usize,
}

// What feeding a file has to return, and to leave in the rooms.
#[derive(Clone, Copy)]
struct Expected<'a> {
    number: u8,
    total: Option<usize>,
    said: [u64; 6],
    text: &'a [u8],
    table: &'a [u64],
    names: &'a [u8],
    shape: &'a [u64],
}

impl Cases {
    // Prints the line of a case, but for its end.
    fn replay(&mut self, rt: &impl Print, case: &[u8]) {
        let mut given = [0u64; 6];
        store(tail(case, 1), &mut given);
        let [bytes, numbers, named, rank, from, upto] = given;
        let Cases {
            text,
            table,
            names,
            shape,
        } = self;
        let mut rooms = Rooms {
            text: &mut text[..at_most(bytes, TEXT)],
            table: &mut table[..at_most(numbers, TABLE)],
            names: &mut names[..at_most(named, MOST_NAMES)],
            shape: &mut shape[..at_most(rank, DIMENSIONS)],
        };
        refill(&mut rooms);
        match case.first() {
            None | Some(0) => replay_calls(rt, case, &mut rooms),
            Some(kind) => {
                let plan = Plan {
                    kind: *kind,
                    from,
                    upto,
                };
                replay_cuts(rt, plan, tail(case, FILE), &mut rooms);
            }
        }
    }
}

fn main(rt: HostRuntime) {
    let mut room = [0u8; CASE];
    let mut cases = Cases {
        text: [5; TEXT],
        table: [5; TABLE],
        names: [5; MOST_NAMES],
        shape: [5; DIMENSIONS],
    };
    let mut input = rt.stdin();
    // A proved loop has to end, and nothing says that the input does; no run has this many cases.
    for _ in 0..u64::MAX {
        let Some(n) = run_frames::next(&mut input, &mut room) else {
            return;
        };
        cases.replay(&rt, &room[..n]);
        if rt.write_all(b"\n").is_err() {
            return;
        }
    }
}

// Makes every number and byte of the rooms 5.
fn refill(rooms: &mut Rooms) {
    rooms.text.fill(5);
    rooms.table.fill(5);
    rooms.names.fill(5);
    rooms.shape.fill(5);
}

// ---- the bytes of a case

// What comes after so many bytes; none if there are fewer.
fn tail(bytes: &[u8], from: usize) -> &[u8] {
    &bytes[from.min(bytes.len())..]
}

// The bytes between two places; none if there are no such places.
fn between(bytes: &[u8], from: usize, to: usize) -> &[u8] {
    let end = to.min(bytes.len());
    &bytes[from.min(end)..end]
}

// Stores numbers of eight bytes, as many as there are and have room.
fn store(bytes: &[u8], room: &mut [u64]) {
    for (stored, eight) in room.iter_mut().zip(bytes.chunks_exact(8)) {
        *stored = number(eight, Endianness::Little);
    }
}

// ---- calls

fn replay_calls(rt: &impl Print, case: &[u8], rooms: &mut Rooms) {
    let mut feeder = [0u64; FEEDER];
    store(tail(case, NUMBERS), &mut feeder);
    run_calls(rt, tail(case, CALLS), &mut feeder, rooms);
    say(rt, b";");
    say_numbers(rt, &feeder);
    show_bytes(rt, rooms.text);
    show(rt, rooms.table);
    show_bytes(rt, rooms.names);
    show(rt, rooms.shape);
}

fn run_calls(rt: &impl Print, calls: &[u8], feeder: &mut [u64; FEEDER], rooms: &mut Rooms) {
    let mut rest = calls;
    while !rest.is_empty() {
        let (call, after) = rest.split_at(part_end(rest));
        run_call(rt, tail(call, 4), feeder, rooms);
        if !after.is_empty() {
            say(rt, b",");
        }
        rest = after;
    }
}

// A call of under 4 bytes is the end; another has how many bytes of the text buffer are lent, and the part. Prints a header's values if they were returned or changed.
fn run_call(rt: &impl Print, call: &[u8], feeder: &mut [u64; FEEDER], rooms: &mut Rooms) {
    let mut said = [5u64; 6];
    let r = if call.len() < 4 {
        let r = npy::npy_feed_end(feeder, &mut said);
        say_number(rt, r as u64);
        r
    } else {
        let n = at_most(number(&call[..4], Endianness::Little), rooms.text.len());
        let mut used = [5u64; 1];
        let r = npy::npy_feed(
            feeder,
            &call[4..],
            &mut rooms.text[..n],
            rooms.table,
            rooms.names,
            rooms.shape,
            &mut said,
            &mut used,
        );
        say_number(rt, r as u64);
        say_numbers(rt, &used);
        r
    };
    if r == 0 || changed(&said) > 0 {
        say_numbers(rt, &said);
    }
}

// ---- cuttings

// The file, and after it the file that is fed if that is another one.
fn replay_cuts(rt: &impl Print, plan: Plan, parts: &[u8], rooms: &mut Rooms) {
    if parts.len() < 4 {
        say(rt, b"short");
        return;
    }
    let (part, other) = parts.split_at(part_end(parts));
    let file = tail(part, 4);
    let fed = if other.is_empty() { file } else { other };
    compare(rt, plan, file, fed, rooms);
}

// Reads the whole file in rooms of the same lengths, and then feeds the other in its cuttings. With 36 the rooms are as they were.
fn compare(rt: &impl Print, plan: Plan, file: &[u8], fed: &[u8], rooms: &mut Rooms) {
    let mut table = [5u64; TABLE];
    let mut names = [5u8; MOST_NAMES];
    let mut shape = [5u64; DIMENSIONS];
    let mut said = [5u64; 6];
    let table = &mut table[..rooms.table.len().min(TABLE)];
    let names = &mut names[..rooms.names.len().min(MOST_NAMES)];
    let shape = &mut shape[..rooms.shape.len().min(DIMENSIONS)];
    let r = npy::npy_read(file, table, names, shape, &mut said);
    let want = expect(r, file, rooms.text.len());
    if want.number == BUFFER {
        table.fill(5);
        names.fill(5);
        shape.fill(5);
        said.fill(5);
    }
    let expected = Expected {
        number: want.number,
        total: want.total,
        said,
        text: between(file, want.from, want.to),
        table,
        names,
        shape,
    };
    cut_all(rt, plan, expected, fed, rooms);
}

// What document 02 says of a file for which npy_read returned r: 1 and 2 at byte 8, 4 and 36 at the end of the length field, the others at the header's last byte; and of a file that ends before that,
// what npy_feed_end returns.
fn expect(r: u8, file: &[u8], buffer: usize) -> Want {
    if file.len() < 8 {
        return wanted(r, None, 0, 0);
    }
    if r == 1 || r == 2 {
        return wanted(r, Some(8), 0, 0);
    }
    let start = if file[6] == 1 { 10 } else { 12 };
    if file.len() < start {
        return wanted(r, None, 0, 0);
    }
    if r == 4 {
        return wanted(r, Some(start), 0, 0);
    }
    let length = number(&file[8..start], Endianness::Little);
    if (buffer as u64) < length {
        return wanted(BUFFER, Some(start), 0, 0);
    }
    if r == 3 {
        return wanted(r, None, start, file.len());
    }
    let end = start + at_most(length, file.len() - start);
    wanted(r, Some(end), start, end)
}

fn wanted(number: u8, total: Option<usize>, from: usize, to: usize) -> Want {
    Want {
        number,
        total,
        from,
        to,
    }
}

// Feeds every cutting from one number up to another, and prints what was expected, how many were fed and how many differ.
fn cut_all(rt: &impl Print, plan: Plan, expected: Expected, fed: &[u8], rooms: &mut Rooms) {
    let mut compared: u64 = 0;
    let mut differ: u64 = 0;
    for cutting in plan.from..plan.upto {
        if is_cutting(plan.kind, cutting, fed.len()) {
            compared = compared.saturating_add(1);
            if !agrees(plan.kind, cutting, expected, fed, rooms) {
                differ = differ.saturating_add(1);
            }
        }
    }
    say_number(rt, expected.number as u64);
    match expected.total {
        Some(total) => say_numbers(rt, &[total as u64]),
        None => say(rt, b" -"),
    }
    say_numbers(rt, &[compared, differ]);
}

// Feeds one cutting in rooms of 5s, and compares what was returned and what the rooms then hold.
fn agrees(kind: u8, cutting: u64, expected: Expected, fed: &[u8], rooms: &mut Rooms) -> bool {
    refill(rooms);
    cut_once(kind, cutting, expected, fed, rooms)
        && holds(rooms.text, expected.text)
        && rooms.table[..] == expected.table[..]
        && rooms.names[..] == expected.names[..]
        && rooms.shape[..] == expected.shape[..]
}

// Whether a text buffer holds these bytes at its front, and 5s after them.
fn holds(text: &[u8], want: &[u8]) -> bool {
    text.starts_with(want) && changed(tail(text, want.len())) == 0
}

// Feeds one cutting, and what comes after it: the outcome again if there was one, the end, the outcome again, and the end again.
fn cut_once(kind: u8, cutting: u64, expected: Expected, fed: &[u8], rooms: &mut Rooms) -> bool {
    let mut feeder = [0u64; FEEDER];
    feed_parts(kind, cutting, expected, fed, &mut feeder, rooms)
        && (expected.total.is_none() || repeats(expected, fed, &mut feeder, rooms))
        && ends(expected, &mut feeder)
        && repeats(expected, fed, &mut feeder, rooms)
        && ends(expected, &mut feeder)
}

// Feeds the parts of a cutting, three at least; whether each call returned what it should.
fn feed_parts(
    kind: u8,
    cutting: u64,
    expected: Expected,
    fed: &[u8],
    feeder: &mut [u64; FEEDER],
    rooms: &mut Rooms,
) -> bool {
    let mut at: usize = 0;
    for part in 0..PARTS {
        if part >= 3 && at >= fed.len() {
            break;
        }
        let to = end_of(kind, cutting, part, at, fed.len());
        if !feed_part(expected, fed, at, to, feeder, rooms) {
            return false;
        }
        at = to;
    }
    at == fed.len()
}

// Feeds the bytes of a part: need more with all of them used before the outcome's byte; the outcome with those up to it; the outcome again with none.
fn feed_part(
    expected: Expected,
    fed: &[u8],
    at: usize,
    to: usize,
    feeder: &mut [u64; FEEDER],
    rooms: &mut Rooms,
) -> bool {
    let part = between(fed, at, to);
    match expected.total {
        Some(total) if total <= to => {
            returns(
                expected.number,
                total.saturating_sub(at),
                expected.said,
                part,
                feeder,
                rooms,
            )
        }
        _ => returns(MORE, to.saturating_sub(at), [5; 6], part, feeder, rooms),
    }
}

// Feeds the file once more, which returns the outcome again and uses nothing.
fn repeats(expected: Expected, fed: &[u8], feeder: &mut [u64; FEEDER], rooms: &mut Rooms) -> bool {
    returns(expected.number, 0, expected.said, fed, feeder, rooms)
}

// Whether feeding a part returns this number, uses so many bytes, and says these values; all are 5 before.
fn returns(
    number: u8,
    bytes: usize,
    values: [u64; 6],
    part: &[u8],
    feeder: &mut [u64; FEEDER],
    rooms: &mut Rooms,
) -> bool {
    let mut said = [5u64; 6];
    let mut used = [5u64; 1];
    let r = npy::npy_feed(
        feeder,
        part,
        rooms.text,
        rooms.table,
        rooms.names,
        rooms.shape,
        &mut said,
        &mut used,
    );
    r == number && used[0] == bytes as u64 && said == values
}

fn ends(expected: Expected, feeder: &mut [u64; FEEDER]) -> bool {
    let mut said = [5u64; 6];
    let r = npy::npy_feed_end(feeder, &mut said);
    r == expected.number && said == expected.said
}

// ---- where a cutting cuts

// Whether a number is a cutting's: of those in three, the second place is not before the first.
fn is_cutting(kind: u8, cutting: u64, n: usize) -> bool {
    kind != 2 || second_cut(cutting, n) >= first_cut(cutting, n)
}

// Where a part ends that begins at `at`: 1 cuts in two and has an empty part between, 2 cuts in three, 3 takes byte by byte and has an empty part before each, 4 takes so many bytes at a time, and
// others cut after each byte whose bit is set.
fn end_of(kind: u8, cutting: u64, part: u64, at: usize, n: usize) -> usize {
    let end = match (kind, part) {
        (1, 0..=1) => cutting,
        (2, 0) => first_cut(cutting, n),
        (2, 1) => second_cut(cutting, n),
        (1 | 2, _) => n as u64,
        (3, _) => part / 2 + part % 2,
        (4, _) => (at as u64).saturating_add(cutting),
        _ => next_bit(cutting, at, n) as u64,
    };
    at_most(end, n).max(at)
}

// The two places of a cut in three are the cutting's number in the base that is one more than the length.
fn first_cut(cutting: u64, n: usize) -> u64 {
    cutting / places(n)
}

fn second_cut(cutting: u64, n: usize) -> u64 {
    cutting % places(n)
}

fn places(n: usize) -> u64
    ensures { 0 < result }
{
    (n as u64).saturating_add(1)
}

// ---- what other replay programs have too: a public function of a library would have to state its whole result, and no contract can say what is printed

// The next place after `at` whose bit is set in the cutting's number, or the end.
fn next_bit(cutting: u64, at: usize, n: usize) -> usize {
    for k in at..n {
        if k < 64 && cutting >> k & 1 == 1 {
            return k + 1;
        }
    }
    n
}

fn at_most(n: u64, most: usize) -> usize
    ensures { result ≤ most }
{
    n.min(most as u64) as usize
}

// The number in these bytes, or 2^64-1 where it is larger.
fn number(bytes: &[u8], order: Endianness) -> u64 {
    number_bytes::read(bytes, order).unwrap_or(u64::MAX)
}

// Where the first part ends: four bytes for its length, then its content; at most the end of the case.
fn part_end(parts: &[u8]) -> usize
    ensures inside { result ≤ length parts.now }
    ensures some { 0 < length parts.now → 0 < result }
{
    if parts.len() < 4 {
        return parts.len();
    }
    4 + at_most(number(&parts[..4], Endianness::Little), parts.len() - 4)
}

// Writes text. A write that fails is passed over: the line's end then fails too, and ends the run.
fn say(rt: &impl Print, text: &[u8]) {
    let _ = rt.write_all(text);
}

fn say_number(rt: &impl Print, n: u64) {
    let _ = rt.print(n);
}

fn say_numbers<T: Copy + Into<u64>>(rt: &impl Print, numbers: &[T]) {
    for n in numbers {
        say(rt, b" ");
        say_number(rt, (*n).into());
    }
}

// Prints a room of numbers without the 5s at its end.
fn show<T: Copy + Into<u64>>(rt: &impl Print, room: &[T]) {
    say(rt, b";");
    say_numbers(rt, &room[..changed(room)]);
}

// Prints a room of bytes in hexadecimal, eight at a time, without the 5s at its end.
fn show_bytes(rt: &impl Print, room: &[u8]) {
    say(rt, b";");
    for run in room[..changed(room)].chunks(8) {
        say_hex(rt, run);
    }
}

fn say_hex(rt: &impl Print, run: &[u8]) {
    let n = number(run, Endianness::Big);
    let width = 2 * at_most(run.len() as u64, 8);
    let _ = print!(rt; "{n:0width$x}");
}

// How many numbers of a room there are before the 5s at its end: every lent number is 5 before a call.
fn changed<T: Copy + Into<u64>>(room: &[T]) -> usize
    ensures { result ≤ length room.now }
{
    for i in (0..room.len()).rev() {
        if room[i].into() != 5 {
            return i + 1;
        }
    }
    0
}
