// The pieces of a string (document 01, "The literal"): escapes are decoded here, and nowhere else.
// Called by literal_tokens and literal_decode to scan and decode strings. `quote` is the opening quote of a string.
#![tactic(auto)]

ghost use Rattle.std.specs.Prelude.{◌≡◌};
ghost use Rattle.literal_grammar.specs.Bytes.{is_escape, unescape as unescape_of};
ghost use Rattle.literal_escapes.specs.Strings.{escape_at, escape_here, piece_at};

use literal_bytes::{Parsed, is_break};
use literal_classes::{BACKSLASH, BLANK, class_of};

// The piece at a position of a string: the closing quote, which ends before the position; a byte of the decoded string, and where the next piece begins; or a fault.
#[derive(Clone, Copy)]
pub enum Piece {
    Close(usize),
    Byte(u8, usize),
    Bad(usize),
}

// What a scan of a string found: how it ended, how many bytes it has decoded up to there, and whether it has an escape.
#[derive(Clone, Copy)]
pub struct Scan {
    pub ended: Parsed,
    pub len: usize,
    pub escape: bool,
}

// Whether a byte may follow a backslash.
fn is_escape(b: u8) -> bool
    ensures { result ≡ is_escape b }
{
    matches!(b, b'\\' | b'\'' | b'"' | b'n' | b'r' | b't')
}

// The byte that an escape means, given the byte after its backslash.
pub fn unescape(b: u8) -> u8
    ensures { result ≡ unescape_of b }
{
    match b {
        b'n' => b'\n',
        b'r' => b'\r',
        b't' => b'\t',
        _ => b,
    }
}

// The rest of an escape, at the position after its backslash.
fn escape_at(text: &[u8], at: usize) -> Piece
    ensures { result ≡ escape_at text.now at }
{
    if text.len() <= at {
        return Piece::Bad(at);
    }
    let b = text[at];
    if is_escape(b) {
        Piece::Byte(unescape(b), at + 1)
    } else {
        Piece::Bad(at)
    }
}

// Whether an escape is at a position of a string. It is asked first, since after one escape mostly the next one follows. A backslash that is the quote closes the string.
pub fn escape_here(text: &[u8], at: usize, quote: u8) -> bool
    ensures { result ≡ escape_here quote text.now at }
{
    if quote == b'\\' || text.len() < 2 || text.len() - 2 < at {
        return false;
    }
    text[at] == b'\\' && is_escape(text[at + 1])
}

// The piece at a position; the end of the text is a fault. Of the blanks LF and CR are faults.
pub fn piece_at(text: &[u8], at: usize, quote: u8) -> Piece
    ensures { result ≡ piece_at quote text.now at }
{
    if text.len() <= at {
        return Piece::Bad(at);
    }
    let b = text[at];
    if b == quote {
        return Piece::Close(at + 1);
    }
    match class_of(b) {
        BACKSLASH => escape_at(text, at + 1),
        BLANK => {
            if is_break(b) {
                Piece::Bad(at)
            } else {
                Piece::Byte(b, at + 1)
            }
        }
        _ => Piece::Byte(b, at + 1),
    }
}
