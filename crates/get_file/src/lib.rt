// What the program that prints an element asks of a file and of its arguments: the place of an element, from the bytes that are held of the file's header, and the numbers of an
// index or a path, from their text. npy_get calls it.
#![tactic(auto)]

ghost use Rattle.refusal.specs.Answers.{answer};
ghost use Rattle.std.specs.Prelude.{◌-◌, ◌+◌, ◌*◌, ◌≡◌, false, cond, ◌&&◌, ◌||◌, [], ◌∷◌, eqb};
ghost use Rattle.counts.specs.Number.{capped};
ghost use Rattle.counts.specs.Lists.{same};
ghost use Rattle.counts.specs.Owes.{Owes};
ghost use Rattle.emit.specs.Emits.{Emits};
ghost use Rattle.decimal.specs.Decimal.{is_digit};
ghost use Rattle.dtype.specs.Record.{Record};
ghost use Rattle.place.specs.Place.{placed};
ghost use Rattle.header.specs.Reads.{lent};
ghost use Rattle.read_back.specs.Rooms.{Holds};
ghost use Rattle.get_file.specs.Found.{found_in};
ghost use Rattle.get_file.specs.Numbers.{is_list, numbers_in, listed_answer};
ghost use Rattle.get_file.specs.Puts.{PutsListed};

use counts::Bytes;
use dtype::{GivenRecord, MOST_DIMENSIONS, MOST_NAMES, TABLE};
use header::Header;
use place_area::Run;
use refusal::Refusal;

// How many numbers of an index are kept: one more than any shape has dimensions. A longer index is cut to that, which is of wrong length for every shape, as the whole is.
pub const INDEX: usize = 33;

// How many numbers of a path are kept: as many as a table has entries, of which the first is the item's. A longer path is cut to that, which leads nowhere, as the whole does.
pub const PATH: usize = 512;

// The bytes that an index and a path name in a file of this length, of which these first bytes are held: `longer` if it has more. Or the first refusal of the header, then 24, 25, 26.
pub fn find(
    held: &[u8],
    longer: bool,
    length: Bytes,
    index: &[u64],
    path: &[u64],
) -> Result<Run, Refusal>
    ensures { answer result ≡ found_in longer held.now length.0 index.now path.now }
{
    let mut table = [0u64; TABLE];
    let mut names = [0u8; MOST_NAMES];
    let mut shape = [0u64; MOST_DIMENSIONS];
    let h = header::read_held(held, longer, &mut table, &mut names, &mut shape)?;
    find_in(h, length, &table, &names, &shape, index, path)
}

// The same by a header that was read to the rooms.
fn find_in(
    h: Header,
    length: Bytes,
    table: &[u64],
    names: &[u8],
    shape: &[u64],
    index: &[u64],
    path: &[u64],
) -> Result<Run, Refusal>
    ensures { (r : Record) → Holds r h.info (lent table.now names.now shape.now) → answer result ≡ placed length.0 h.start.0 r index.now path.now }
{
    let given = GivenRecord {
        table: read_back::table_of(table, h.info.entries),
        names: read_back::names_of(names, h.info.names),
        shape: read_back::shape_of(shape, h.info.rank),
        order: h.info.order,
    };
    place::place(length, h.start, given, index, path)
}

// Writes the numbers of a text, separated by commas, to the front of `out`: as many as it has room for, and returns how many these are. `-` is a list of none. A number over
// 2^64-1 counts as 2^64-1, which is in range of nothing.
pub fn numbers(text: &[u8], out: &mut [u64]) -> Option<usize>
    ensures { Owes (numbers_in text.now out.old) out.old (listed_answer result) out.new }
{
    if is_dash(text) {
        return Some(0);
    }
    if !is_list(text) {
        return None;
    }
    let count = put_listed(text, out);
    Some(count.min(out.len()))
}

fn is_dash(text: &[u8]) -> bool
    ensures { result ≡ same text.now (45 ∷ []) }
{
    text == b"-".as_slice()
}

// Whether a text is numbers, separated by commas.
fn is_list(text: &[u8]) -> bool
    ensures { result ≡ is_list false text.now }
{
    let mut digit = false;
    for b in text {
        if !may_follow(digit, *b) {
            return false;
        }
        digit = b.is_ascii_digit();
    }
    digit
}

// Whether a byte of a list may follow: a digit, or a comma after a digit.
fn may_follow(digit: bool, b: u8) -> bool
    ensures { result ≡ (is_digit b || digit && eqb b 44) }
{
    b.is_ascii_digit() || digit && b == b','
}

// Puts the numbers of a text as far as there is room, and returns how many there are.
fn put_listed(text: &[u8], out: &mut [u64]) -> usize
    ensures { PutsListed text.now out.old out.new result }
{
    let mut count = 0;
    let mut n = 0;
    for b in text {
        count = put_at_comma(out, count, n, *b);
        n = number_after(n, *b);
    }
    put_number(out, count, n)
}

// Puts a number that ends before a comma, and returns the place after it.
fn put_at_comma(out: &mut [u64], at: usize, n: u64, b: u8) -> usize
    ensures { Emits (λ x. cond (eqb b 44) (n ∷ x) x) out.old at out.new result }
{
    if b == b',' {
        return put_number(out, at, n);
    }
    at
}

// The number after one more byte of a list: 0 after a comma, else one more digit, or 2^64-1 where that is larger. A byte before `0` counts as `0`: a list has none.
fn number_after(n: u64, b: u8) -> u64
    ensures { result ≡ cond (eqb b 44) 0 (capped (10 * n + (b - 48))) }
{
    if b == b',' {
        return 0;
    }
    n.saturating_mul(10)
        .saturating_add(b.saturating_sub(b'0') as u64)
}

// Puts a number where there is room, and returns the place after it.
fn put_number(out: &mut [u64], at: usize, n: u64) -> usize
    ensures { Emits (λ x. n ∷ x) out.old at out.new result }
{
    if at < out.len() {
        out[at] = n;
        return at + 1;
    }
    at.saturating_add(1)
}
