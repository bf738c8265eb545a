// Lists the header that arrives on standard input, judged as its bytes come (document 02, "Wish 10. Headers arrive packet by packet."): `npy_feed [N]`, read in parts of at most N bytes. The
// program reads, calls and writes; what the bytes so far give is header_feed's, and what is printed of it list_file's. It prints as soon as the outcome comes, and reads nothing after that.
// Where it prints nothing to standard output, standard error says why.
#![tactic(auto)]

ghost use Rattle.std.specs.Prelude.{◌≤◌, IfSome};

use dtype::{MOST_DIMENSIONS, MOST_NAMES, TABLE};
use header::Header;
use header_feed::{Fed, Feeder};
use refusal::Refusal;
use std::env::FillError;
use std::io::{self, Read};
use std::rt::Env;

// How many bytes a part has at most.
const PART: usize = 65536;

// How many bytes of text are held: the longest text, so that there is no 36.
const TEXT: usize = 131072;

// How many bytes are room enough for every text (`largest_fits` in list_file/proofs/Enough.antt), so that 28 is never printed.
const ROOM: usize = 172484;

// How many reads there are at most, and one more: a header has 131,084 bytes at most, each read but the last takes one byte or more of them, and the last byte gives the outcome.
const READS: usize = 131085;

fn main(rt: HostRuntime) -> io::Result<()> {
    let mut part = [0u8; PART];
    match part_length(&rt) {
        Some(most) => list_input(&rt, &mut rt.stdin(), &mut part[..most]),
        None => say(
            &rt,
            "npy-feed: at most one argument, N: a decimal number from 1 up\n",
        ),
    }
}

// How many bytes of a part are read at most: N, or `PART` where there is no argument. `None` where N is no number from 1 up, or has another argument beside it.
fn part_length(rt: &impl Env) -> Option<usize>
    ensures { IfSome result (λ n. n ≤ 65536) }
{
    if !has_argument(rt, 1) {
        return Some(PART);
    }
    if has_argument(rt, 2) {
        return None;
    }
    let mut text = [0u8; 65536];
    let n = rt.arg(1, &mut text).ok()?;
    length_in(&text[..n])
}

fn has_argument(rt: &impl Env, i: usize) -> bool {
    let mut text = [0u8; 1];
    !matches!(rt.arg(i, &mut text), Err(FillError::NotPresent))
}

// The one number of a text, from 1 up, or `PART` where that is larger.
fn length_in(text: &[u8]) -> Option<usize>
    ensures { IfSome result (λ n. n ≤ 65536) }
{
    let mut numbers = [0u64; 2];
    match get_file::numbers(text, &mut numbers) {
        Some(1) if numbers[0] > 0 => Some(numbers[0].min(PART as u64) as usize),
        _ => None,
    }
}

// Prints the header on standard input, which is read to `part`, or why it is refused.
fn list_input(
    rt: &(impl Print + Eprint),
    input: &mut impl Read,
    part: &mut [u8],
) -> io::Result<()> {
    let mut text = [0u8; TEXT];
    let mut table = [0u64; TABLE];
    let mut names = [0u8; MOST_NAMES];
    let mut shape = [0u64; MOST_DIMENSIONS];
    let feeder = take_header(input, part, &mut text, &mut table, &mut names, &mut shape);
    match feeder.said {
        Fed::Read(h) => print(rt, Ok(h), &table, &names, &shape),
        Fed::Refused(why) => print(rt, Err(why), &table, &names, &shape),
        Fed::More => say(rt, "npy-feed: the input could not be read\n"),
    }
}

// Reads until the outcome comes, or a read fails, which is none. The end of the input is an outcome too.
fn take_header(
    input: &mut impl Read,
    part: &mut [u8],
    text: &mut [u8],
    table: &mut [u64],
    names: &mut [u8],
    shape: &mut [u64],
) -> Feeder {
    let mut feeder = header_feed::start();
    for _ in 0..READS {
        let Ok(n) = input.read(part) else {
            return feeder;
        };
        if n == 0 {
            return header_feed::end(feeder);
        }
        feeder = header_feed::feed(feeder, &part[..n], text, table, names, shape).feeder;
        if !matches!(feeder.said, Fed::More) {
            return feeder;
        }
    }
    feeder
}

// Prints what a reading says of a header, which it left in the rooms.
fn print(
    rt: &(impl Print + Eprint),
    r: Result<Header, Refusal>,
    table: &[u64],
    names: &[u8],
    shape: &[u64],
) -> io::Result<()> {
    let mut out = [0u8; ROOM];
    match list_file::put_read(r, table, names, shape, &mut out) {
        Ok(n) => rt.write_all(&out[..n.0 as usize]),
        // not reached: the rooms are as the reading left them, and there is room for every text
        Err(_) => say(rt, "npy-feed: no room for the text\n"),
    }
}

// Writes to standard error.
fn say(rt: &impl Eprint, text: &str) -> io::Result<()> {
    rt.eprint(text)
}
