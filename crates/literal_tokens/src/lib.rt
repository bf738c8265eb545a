// The values of a literal without brackets (document 01, "The literal"): strings, integers and the words `True`, `False`, `None`.
// Called by literal, and by the walks over a header's dict: descr_field, shape_text and judge. `from` is the position after the opening quote `quote`.
#![tactic(auto)]

ghost use Rattle.std.specs.Prelude.{◌≡◌};
ghost use Rattle.literal_bytes.specs.Got.{pos};
ghost use Rattle.literal_escapes.specs.Strings.{spelled, scanned};
ghost use Rattle.literal_tokens.specs.Tokens.{numeral_at, word_at, token_at};

use literal_bytes::{Parsed, ValueKind, ZERO, is_digit, kind_at, peek};
use literal_escapes::{Piece, Scan, escape_here, piece_at};
use literal_runs::{byte_is, plain_any, plain_to};

// Scans a string up to its end or its fault, piece by piece.
fn scan_from(text: &[u8], from: usize, quote: u8) -> Scan
    ensures { result ≡ scanned (spelled quote text.now from) }
{
    let mut at = from;
    let mut len: usize = 0;
    let mut escape = false;
    loop {
        if escape_here(text, at, quote) {
            escape = true;
            len += 1;
            at += 2;
            continue;
        }
        let to = plain_to(text, at, quote, escape);
        len += to - at;
        match piece_at(text, to, quote) {
            Piece::Close(e) => {
                return Scan {
                    ended: Parsed::Value(e),
                    len,
                    escape,
                };
            }
            Piece::Bad(e) => {
                return Scan {
                    ended: Parsed::Fault(e),
                    len,
                    escape,
                };
            }
            Piece::Byte(_, e) => {
                escape = true;
                len += 1;
                at = e;
            }
        }
    }
}

// The same; a string without an escape, as most are, is one run of plain bytes.
pub fn scan_at(text: &[u8], from: usize, quote: u8) -> Scan
    ensures { result ≡ scanned (spelled quote text.now from) }
{
    let to = plain_any(text, from, quote);
    if byte_is(text, to, quote) {
        return Scan {
            ended: Parsed::Value(to + 1),
            len: to - from,
            escape: false,
        };
    }
    scan_from(text, from, quote)
}

// Where digits end, and the number that they write; a fault and `None` where there are none.
#[derive(Clone, Copy)]
pub struct Numeral {
    pub ended: Parsed,
    pub number: Option<u64>,
}

// The end of `0`, or of a nonzero digit with more digits, and the number that they write, in one pass.
pub fn numeral_at(text: &[u8], at: usize) -> Numeral
    ensures { result ≡ numeral_at text.now at }
{
    let b = peek(text, at);
    if b == ZERO {
        return Numeral {
            ended: Parsed::Value(at + 1),
            number: Some(0),
        };
    }
    if !is_digit(b) {
        return Numeral {
            ended: Parsed::Fault(at),
            number: None,
        };
    }
    let read = decimal::read(&text[at..]);
    Numeral {
        ended: Parsed::Value(at + read.count),
        number: read.number,
    }
}

// The end of the word `expected`, or a fault at the first byte that differs.
fn word(text: &[u8], from: usize, expected: &[u8]) -> Parsed
    ensures { result ≡ word_at expected.now text.now from }
{
    let mut at = from;
    for b in expected {
        if peek(text, at) != *b as u16 {
            return Parsed::Fault(at);
        }
        at += 1;
    }
    Parsed::Value(at)
}

// The end of a string, an integer or one of the three words; a fault where none begins.
pub fn token(text: &[u8], at: usize) -> Parsed
    ensures { result ≡ pos (token_at text.now at) }
{
    match kind_at(text, at) {
        ValueKind::Quote => scan_at(text, at + 1, text[at]).ended,
        ValueKind::Minus => numeral_at(text, at + 1).ended,
        ValueKind::Digit => numeral_at(text, at).ended,
        ValueKind::TrueWord => word(text, at, b"True"),
        ValueKind::FalseWord => word(text, at, b"False"),
        ValueKind::NoneWord => word(text, at, b"None"),
        ValueKind::Square | ValueKind::Round | ValueKind::Curly | ValueKind::Other => Parsed::Fault(
            at,
        ),
    }
}
