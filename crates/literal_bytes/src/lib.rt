// The bytes of a literal by position (document 01, "The literal"): their classes, runs of blanks, and what is between the items of a bracket.
// Called by every crate that walks header text: literal, descr, shape_text, judge and their parts. Positions are indices of the text; `close` is the closing bracket.
#![tactic(auto)]

ghost use Rattle.std.specs.Prelude.{◌≡◌, ℕ, Bool, ◌<◌};
ghost use Rattle.std.proofs.Common.{rules};
ghost use Rattle.literal_grammar.specs.Bytes.{is_blank, is_quote, is_open, is_break};
ghost use Rattle.decimal.specs.Decimal.{is_digit};
ghost use Rattle.literal_bytes.specs.Text.{byte_at, kind_of, skip, past, all_pass, block_at};
ghost use Rattle.literal_bytes.specs.ByClass.{word_kind, bracket_kind};
ghost use Rattle.literal_bytes.specs.Gaps.{gap_at, comma_space_item_at, shut_at, then_at, need_at, colon_at, ended_at};

use literal_classes::{BRACKET, DIGIT, QUOTE, SIGN, WORD_LETTER, class_of};

// What `peek` returns past the end of a text: a number above all bytes and no `Option`, so that one comparison decides.
pub const PAST: u16 = 256;

// Bytes as `peek` returns them.
pub const SQUARE: u16 = b'[' as u16;

pub const ROUND: u16 = b'(' as u16;

pub const CURLY: u16 = b'{' as u16;

pub const MINUS: u16 = b'-' as u16;

pub const COMMA: u16 = b',' as u16;

pub const ZERO: u16 = b'0' as u16;

const NINE: u16 = b'9' as u16;

const SINGLE_QUOTE: u16 = b'\'' as u16;

const DOUBLE_QUOTE: u16 = b'"' as u16;

// A value that ends before the position; or refusal 6 or 7 at the position. (Three cases, each with a position: as a `Result` the two refusals would need an enum of their own inside it.)
#[derive(Clone, Copy)]
pub enum Parsed {
    Value(usize),
    Fault(usize),
    Deep(usize),
}

// What a value is, by its first byte.
#[derive(Clone, Copy)]
pub enum ValueKind {
    Square,
    Round,
    Curly,
    Quote,
    Minus,
    Digit,
    TrueWord,
    FalseWord,
    NoneWord,
    Other,
}

// The byte at a position, or `PAST` past the end.
pub fn peek(text: &[u8], at: usize) -> u16
    ensures { result ≡ byte_at text.now at }
{
    if at < text.len() {
        text[at] as u16
    } else {
        PAST
    }
}

// Whether a byte is a blank. Nearly every byte is above the space, where one test is enough.
pub fn is_blank(b: u8) -> bool
    ensures { result ≡ is_blank b }
{
    b <= b' ' && ((b == b' ') | (b == b'\t') | (b == b'\n') | (b == b'\r'))
}

pub fn is_digit(b: u16) -> bool
    ensures { result ≡ is_digit b }
{
    (ZERO <= b) & (b <= NINE)
}

fn is_quote(b: u16) -> bool
    ensures { result ≡ is_quote b }
{
    (b == SINGLE_QUOTE) | (b == DOUBLE_QUOTE)
}

pub fn is_open(b: u16) -> bool
    ensures { result ≡ is_open b }
{
    (b == SQUARE) | (b == ROUND) | (b == CURLY)
}

// Whether a byte is LF or CR, which a string may not hold raw.
pub fn is_break(b: u8) -> bool
    ensures { result ≡ is_break b }
{
    (b == b'\n') | (b == b'\r')
}

// Whether a quote is at a position.
pub fn quote_at(text: &[u8], at: usize) -> bool
    ensures { result ≡ is_quote (byte_at text.now at) }
{
    is_quote(peek(text, at))
}

// What a value that begins with the word letter is.
fn word_kind(b: u8) -> ValueKind
    ensures { result ≡ word_kind b }
{
    match b {
        b'T' => ValueKind::TrueWord,
        b'F' => ValueKind::FalseWord,
        b'N' => ValueKind::NoneWord,
        _ => ValueKind::Other,
    }
}

// What a value that begins with the bracket is.
fn bracket_kind(b: u8) -> ValueKind
    ensures { result ≡ bracket_kind b }
{
    match b {
        b'[' => ValueKind::Square,
        b'(' => ValueKind::Round,
        b'{' => ValueKind::Curly,
        _ => ValueKind::Other,
    }
}

// What a value that begins with the byte is.
fn kind_of(b: u16) -> ValueKind
    ensures { result ≡ kind_of b }
{
    if PAST <= b {
        return ValueKind::Other;
    }
    kind_by_class(b as u8)
}

// The same of a byte of a text, by the class of the byte.
fn kind_by_class(b: u8) -> ValueKind
    ensures { result ≡ kind_of b }
{
    match class_of(b) {
        DIGIT => ValueKind::Digit,
        WORD_LETTER => word_kind(b),
        QUOTE => ValueKind::Quote,
        BRACKET => bracket_kind(b),
        SIGN => ValueKind::Minus,
        _ => ValueKind::Other,
    }
}

// What a value that begins at a position is; past the end none begins.
pub fn kind_at(text: &[u8], at: usize) -> ValueKind
    ensures { result ≡ kind_of (byte_at text.now at) }
{
    kind_of(peek(text, at))
}

// A test of bytes. `past` and `past_far` find where a run of bytes that pass ends.
pub trait Test: Copy {
    ghost passes: { Self → ℕ → Bool };

    ghost BLOCK: { ℕ };

    // In a long run the bytes are tried this many at a time.
    const BLOCK: usize;

    fn passes(self, b: u8) -> bool
        ensures { result ≡ passes self b };

    // The same without a branch, for the bytes of a block.
    fn passes_in_block(self, b: u8) -> bool
        ensures { result ≡ passes self b };

    ghost some: { 0 < BLOCK };
}

// Whether each byte of a block passes, in one pass without an early end, so that the compiler can take the whole block at a time.
fn all_pass<T: Test>(block: &[u8], test: T) -> bool
    ensures { result ≡ all_pass (T.passes test) block.now }
{
    let mut all = true;
    for b in block {
        all &= test.passes_in_block(*b);
    }
    all
}

// Whether the text has a block from `at` on, and each byte of it passes.
fn block_at<T: Test>(text: &[u8], at: usize, test: T) -> bool
    ensures { result ≡ block_at (T.passes test) T.BLOCK text.now at }
{
    if text.len() < T::BLOCK || text.len() - T::BLOCK < at {
        return false;
    }
    all_pass(&text[at..at + T::BLOCK], test)
}

// The first position from `from` on whose byte fails, or the end, byte by byte.
pub fn past<T: Test>(text: &[u8], from: usize, test: T) -> usize
    ensures { result ≡ past (T.passes test) text.now from }
{
    for at in from..text.len() {
        if !test.passes(text[at]) {
            return at;
        }
    }
    from.max(text.len())
}

// The same in blocks, for a long run.
pub fn past_far<T: Test>(text: &[u8], from: usize, test: T) -> usize
    ensures { result ≡ past (T.passes test) text.now from }
{
    let mut at = from;
    while block_at(text, at, test) {
        at += T::BLOCK;
    }
    past(text, at, test)
}

// The test of blanks.
#[derive(Clone, Copy)]
struct Blank;

impl Test for Blank {
    ghost passes = { λ _ b. is_blank b };

    ghost BLOCK = { 16 };

    const BLOCK: usize = 16;

    fn passes(self, b: u8) -> bool {
        is_blank(b)
    }

    fn passes_in_block(self, b: u8) -> bool {
        (b == b' ') | (b == b'\t') | (b == b'\n') | (b == b'\r')
    }

    ghost some = { Prim.search rules };
}

// The first position from `from` on that is no blank. Mostly there are none or one, so blocks are tried only after two.
pub fn blanks(text: &[u8], from: usize) -> usize
    ensures { result ≡ skip text.now from }
{
    if text.len() <= from || !is_blank(text[from]) {
        return from;
    }
    let next = from + 1;
    if text.len() <= next || !is_blank(text[next]) {
        return next;
    }
    past_far(text, next + 1, Blank)
}

// What follows where an item may begin: the closing bracket, which ends before the position; an item that begins there; or a fault there.
#[derive(Clone, Copy)]
pub enum Gap {
    Shut(usize),
    Item(usize),
    Stray(usize),
}

// What follows the opening bracket or a comma.
pub fn gap_at(text: &[u8], at: usize, close: u8) -> Gap
    ensures { result ≡ gap_at text.now at close }
{
    let p = blanks(text, at);
    if peek(text, p) == close as u16 {
        Gap::Shut(p + 1)
    } else {
        Gap::Item(p)
    }
}

// Whether a comma, one space and then an item begin at `at`.
fn comma_space_item(text: &[u8], at: usize, close: u8) -> bool
    ensures { result ≡ comma_space_item_at text.now at close }
{
    if text.len() < 3 || text.len() - 3 < at {
        return false;
    }
    let b = text[at + 2];
    (text[at] == b',') & (text[at + 1] == b' ') & (b' ' < b) & (b != close) & (close != b',')
}

// What follows an item that ends before `at`, in the general case.
fn then_any(text: &[u8], at: usize, close: u8) -> Gap
    ensures { result ≡ then_at text.now at close }
{
    let p = blanks(text, at);
    let b = peek(text, p);
    if b == close as u16 {
        return Gap::Shut(p + 1);
    }
    if b == COMMA {
        return gap_at(text, p + 1, close);
    }
    Gap::Stray(p)
}

// Whether the closing bracket is at `at`.
fn shut_at(text: &[u8], at: usize, close: u8) -> bool
    ensures { result ≡ shut_at text.now at close }
{
    at < text.len() && (text[at] == close) & (b' ' < close)
}

// What follows an item that ends before `at`. Mostly the bracket closes at once, or a comma and one space come before the next item, so these are tested first.
pub fn then_at(text: &[u8], at: usize, close: u8) -> Gap
    ensures { result ≡ then_at text.now at close }
{
    if shut_at(text, at, close) {
        return Gap::Shut(at + 1);
    }
    if comma_space_item(text, at, close) {
        return Gap::Item(at + 2);
    }
    then_any(text, at, close)
}

// The byte b after blanks, or a fault.
pub fn need(text: &[u8], at: usize, b: u8) -> Parsed
    ensures { result ≡ need_at text.now at b }
{
    let p = blanks(text, at);
    if peek(text, p) == b as u16 {
        Parsed::Value(p + 1)
    } else {
        Parsed::Fault(p)
    }
}

// The colon of a key that ends before `at`, or a fault; returns the position where the value begins.
pub fn colon_at(text: &[u8], at: usize) -> Parsed
    ensures { result ≡ colon_at text.now at }
{
    let c = need(text, at, b':');
    let Parsed::Value(e) = c else {
        return c;
    };
    Parsed::Value(blanks(text, e))
}

// How a bracket ends at a gap: an item that does not belong there is a fault.
pub fn ended(g: Gap) -> Parsed
    ensures { result ≡ ended_at g }
{
    match g {
        Gap::Shut(e) => Parsed::Value(e),
        Gap::Item(p) | Gap::Stray(p) => Parsed::Fault(p),
    }
}

// The same result, made anew from its parts. Where a result is returned as it is, the unused bytes between its parts are copied too, and in brackets within brackets each such copy waits for the one before.
pub fn same(r: Parsed) -> Parsed
    ensures { result ≡ r }
{
    match r {
        Parsed::Value(e) => Parsed::Value(e),
        Parsed::Fault(p) => Parsed::Fault(p),
        Parsed::Deep(p) => Parsed::Deep(p),
    }
}
