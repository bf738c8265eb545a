// Finds the end of a run of plain bytes in a string: those that are copied as they are, so not the quote, a backslash, LF or CR.
// Called by literal_tokens and literal_decode. `quote` is the string's quote.
#![tactic(auto)]

ghost use Rattle.std.specs.Prelude.{◌≡◌, ◌&&◌, eqb, ltb, length, cond};
ghost use Rattle.std.proofs.Common.{rules};
ghost use Rattle.literal_bytes.specs.Text.{byte_at, run, past};
ghost use Rattle.literal_bytes.specs.Plain.{is_plain};
ghost use Rattle.literal_runs.specs.Low.{is_low, is_high};

use literal_bytes::{Test, is_break, past, past_far};

// The test of plain bytes, in a string with this quote.
#[derive(Clone, Copy)]
struct Plain {
    quote: u8,
}

impl Test for Plain {
    ghost passes = { λ p b. is_plain p.quote b };

    ghost BLOCK = { 32 };

    const BLOCK: usize = 32;

    // Nearly every byte is above CR, where two tests are enough.
    fn passes(self, b: u8) -> bool {
        if b'\r' < b {
            return b != self.quote && b != b'\\';
        }
        !((b == self.quote) | is_break(b))
    }

    fn passes_in_block(self, b: u8) -> bool {
        (b != self.quote) & (b != b'\\') & (b != b'\n') & (b != b'\r')
    }

    ghost some = { Prim.search rules };
}

// Whether a byte is below `(` or a backslash; any other byte is plain in a string in `'` or `"`.
fn is_low(b: u8) -> bool
    ensures { result ≡ is_low b }
{
    (b < b'(') | (b == b'\\')
}

// A string's first bytes are looked at together: this many.
const FIRST: usize = 16;

// The place i if the byte there is low, else 16.
fn low_place(b: u8, i: u8) -> u8
    ensures { result ≡ cond (is_low b) i 16 }
{
    if is_low(b) { i } else { FIRST as u8 }
}

// A comparison of its own: with `min` of the library, or with an `if` around a store, the compiler takes no whole block at a time, and the reader needs a third more time.
fn lesser(a: u8, b: u8) -> u8
    ensures { result ≡ cond (ltb a b) a b }
{
    if a < b { a } else { b }
}

// The place of the first low byte of a block of 16, or 16 if none is, in one pass without an early end, so that the compiler can take the whole block at a time.
fn first_low(block: &[u8]) -> u8
    requires { length block.now ≡ 16 }
    ensures { result ≡ run is_high block.now }
{
    let mut first: u8 = FIRST as u8;
    for i in 0..FIRST as u8 {
        first = lesser(first, low_place(block[i as usize], i));
    }
    first
}

// Whether the byte at `at` is b.
pub fn byte_is(text: &[u8], at: usize, b: u8) -> bool
    ensures { result ≡ (ltb at (length text.now) && eqb (byte_at text.now at) b) }
{
    at < text.len() && text[at] == b
}

// The first position from `from` on that is not plain, or the end. Most runs end at the quote within 16 bytes.
pub fn plain_any(text: &[u8], from: usize, quote: u8) -> usize
    ensures { result ≡ past (is_plain quote) text.now from }
{
    let plain = Plain { quote };
    if b'\'' < quote || text.len() < FIRST || text.len() - FIRST < from {
        return past(text, from, plain);
    }
    let at = from + first_low(&text[from..from + FIRST]) as usize;
    if byte_is(text, at, quote) {
        return at;
    }
    past_far(text, at, plain)
}

// The same, for a string in which an escape was met if `escape` is set: then runs are mostly short.
pub fn plain_to(text: &[u8], from: usize, quote: u8, escape: bool) -> usize
    ensures { result ≡ past (is_plain quote) text.now from }
{
    if escape {
        past(text, from, Plain { quote })
    } else {
        plain_any(text, from, quote)
    }
}
