// Replays recorded files, framed as run_frames reads them, one line an answer: the listing with `; ` between its lines, or `refused` and the number. A case is the room
// lent for the table (in entries), for the names and for the shape, four bytes each, the least significant first; a byte that is 0 for a whole file and not 0 for the first
// bytes of a longer one; and the file. The rooms hold 5s before the call: a line ends in ` changed` if a refusal changed a room, or a success the room beyond what was needed.
#![tactic(auto)]

ghost use Rattle.std.specs.Prelude.{◌≤◌, length};

use type_letters::Endianness;

// The room for a case.
const CASE: usize = 147456;

// The most dimensions that a case lends.
const DIMENSIONS: usize = 64;

// The room for a listing.
const LISTING: usize = 262144;

// The bytes of a case before its file.
const FRONT: usize = 13;

// The last of them says whether the file is longer.
const LONGER: usize = FRONT - 1;

// Prints the line of a case, but for its end.
fn replay(rt: &impl Print, case: &[u8]) {
    let mut table = [5u64; dtype::TABLE];
    let mut names = [5u8; dtype::MOST_NAMES];
    let mut shape = [5u64; DIMENSIONS];
    lend(rt, case, &mut table, &mut names, &mut shape);
}

fn main(rt: HostRuntime) {
    let mut room = [0u8; CASE];
    let mut input = rt.stdin();
    // A proved loop has to end, and nothing says that the input does; no run has this many cases.
    for _ in 0..u64::MAX {
        let Some(n) = run_frames::next(&mut input, &mut room) else {
            return;
        };
        replay(&rt, &room[..n]);
        if rt.write_all(b"\n").is_err() {
            return;
        }
    }
}

fn lend(rt: &impl Print, case: &[u8], table: &mut [u64], names: &mut [u8], shape: &mut [u64]) {
    if case.len() < FRONT {
        say(rt, b"short");
        return;
    }
    let entries = lent(&case[..4], table.len() / dtype::ENTRY);
    let bytes = lent(&case[4..8], names.len());
    let rank = lent(&case[8..LONGER], shape.len());
    read_case(
        rt,
        &case[FRONT..],
        case[LONGER] != 0,
        &mut table[..dtype::ENTRY * entries],
        &mut names[..bytes],
        &mut shape[..rank],
    );
}

// The number in four bytes, at most `most`.
fn lent(run: &[u8], most: usize) -> usize
    ensures { result ≤ most }
{
    at_most(number(run, Endianness::Little), most)
}

fn read_case(
    rt: &impl Print,
    file: &[u8],
    longer: bool,
    table: &mut [u64],
    names: &mut [u8],
    shape: &mut [u64],
) {
    let mut said = [0u64; 6];
    let r = npy::npy_read_held(file, longer, table, names, shape, &mut said);
    if r == 0 {
        list_record(rt, &said, table, names, shape);
    } else {
        refuse(rt, r);
        look(rt, table, names, shape);
    }
}

fn refuse(rt: &impl Print, r: u8) {
    say(rt, b"refused ");
    say_number(rt, r as u64);
}

// Lists the record at the front of the rooms, and checks the room beyond it.
fn list_record(rt: &impl Print, said: &[u64; 6], table: &[u64], names: &[u8], shape: &[u64]) {
    let numbers = dtype::ENTRY * at_most(said[3], table.len() / dtype::ENTRY);
    let bytes = at_most(said[4], names.len());
    let rank = at_most(said[2], shape.len());
    list(rt, said, &table[..numbers], &names[..bytes], &shape[..rank]);
    look(rt, &table[numbers..], &names[bytes..], &shape[rank..]);
}

fn list(rt: &impl Print, said: &[u64; 6], table: &[u64], names: &[u8], shape: &[u64]) {
    let mut out = [0u8; LISTING];
    let mut length = [0u64; 1];
    let r = npy::npy_list(
        said[0],
        said[5],
        table,
        names,
        shape,
        said[1],
        &mut out,
        &mut length,
    );
    if r == 0 {
        show(rt, &out, length[0]);
    } else {
        refuse(rt, r);
    }
}

// Prints the listing in one line.
fn show(rt: &impl Print, room: &[u8], length: u64) {
    let text = &room[..at_most(length, room.len())];
    let mut from = 0;
    for i in 0..text.len() {
        if text[i] == b'\n' {
            say(rt, &text[from..i]);
            from = i + 1;
            if from < text.len() {
                say(rt, b"; ");
            }
        }
    }
}

// ---- what other replay programs have too: a public function of a library would have to state its whole result, and no contract can say what is printed

// Prints ` changed` unless all of these rooms still hold 5s.
fn look(rt: &impl Print, table: &[u64], names: &[u8], shape: &[u64]) {
    if changed(table) > 0 || changed(names) > 0 || changed(shape) > 0 {
        say(rt, b" changed");
    }
}

fn at_most(n: u64, most: usize) -> usize
    ensures { result ≤ most }
{
    n.min(most as u64) as usize
}

// The number in these bytes, or 2^64-1 where it is larger.
fn number(bytes: &[u8], order: Endianness) -> u64 {
    number_bytes::read(bytes, order).unwrap_or(u64::MAX)
}

// Writes text. A write that fails is passed over: the line's end then fails too, and ends the run.
fn say(rt: &impl Print, text: &[u8]) {
    let _ = rt.write_all(text);
}

fn say_number(rt: &impl Print, n: u64) {
    let _ = rt.print(n);
}

// How many numbers of a room there are before the 5s at its end: every lent number is 5 before a call.
fn changed<T: Copy + Into<u64>>(room: &[T]) -> usize
    ensures { result ≤ length room.now }
{
    for i in (0..room.len()).rev() {
        if room[i].into() != 5 {
            return i + 1;
        }
    }
    0
}
