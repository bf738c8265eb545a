// Decodes a string into lent room. Called by header to store the names of fields, and by judge_names for keys with an escape.
// `from` is the position after the opening quote `quote`.
#![tactic(auto)]

ghost use Rattle.std.specs.Prelude.{◌≡◌, set};
ghost use Rattle.std.proofs.lemmas.List.Edits.{sets};
ghost use Rattle.literal_escapes.specs.Strings.{end_by, spelled, scanned};

use literal_bytes::Parsed;
use literal_escapes::{Piece, Scan, escape_here, piece_at, unescape};
use literal_runs::{byte_is, plain_any, plain_to};

// Stores a byte if there is room for it.
fn put(out: &mut [u8], at: usize, b: u8)
    ensures { out.new ≡ set out.old at b }
{
    if at < out.len() {
        out[at] = b;
    }
}

// Stores a run of bytes, as many as have room.
fn put_some(out: &mut [u8], from: usize, run: &[u8])
    ensures { out.new ≡ sets out.old from run.now }
{
    if out.len() <= from {
        return;
    }
    let fit = run.len().min(out.len() - from);
    // A loop: where the compiler does not know that two rooms are apart, it makes a copy of a slice a call of `memmove`, which the archive for C would then need from outside.
    for i in 0..fit {
        out[from + i] = run[i];
    }
}

// The same, for runs that are mostly empty, as between two escapes.
fn put_run(out: &mut [u8], from: usize, run: &[u8])
    ensures { out.new ≡ sets out.old from run.now }
{
    if !run.is_empty() {
        put_some(out, from, run);
    }
}

// How a string ends at its last piece.
fn end_by(p: Piece) -> Parsed
    ensures { result ≡ end_by p }
{
    match p {
        Piece::Close(e) => Parsed::Value(e),
        // not reached by the only caller: it goes on after a byte
        Piece::Byte(_, e) => Parsed::Value(e),
        Piece::Bad(e) => Parsed::Fault(e),
    }
}

// Writes the decoded string to the front of `out`, as much as has room, and returns what a scan of it finds; piece by piece.
fn decode_from(text: &[u8], from: usize, quote: u8, out: &mut [u8]) -> Scan
    ensures value { result ≡ scanned (spelled quote text.now from) }
    ensures out_after { out.new ≡ sets out.old 0 (spelled quote text.now from).bytes }
{
    if text.len() < from {
        return Scan {
            ended: Parsed::Fault(from),
            len: 0,
            escape: false,
        };
    }
    let mut at = from;
    let mut len: usize = 0;
    let mut escape = false;
    loop {
        if escape_here(text, at, quote) {
            put(out, len, unescape(text[at + 1]));
            escape = true;
            len += 1;
            at += 2;
            continue;
        }
        let to = plain_to(text, at, quote, escape);
        put_run(out, len, &text[at..to]);
        len += to - at;
        let p = piece_at(text, to, quote);
        let Piece::Byte(b, e) = p else {
            return Scan {
                ended: end_by(p),
                len,
                escape,
            };
        };
        put(out, len, b);
        escape = true;
        len += 1;
        at = e;
    }
}

// The same; a string without an escape, as most are, is copied whole.
pub fn decode(text: &[u8], from: usize, quote: u8, out: &mut [u8]) -> Scan
    ensures value { result ≡ scanned (spelled quote text.now from) }
    ensures out_after { out.new ≡ sets out.old 0 (spelled quote text.now from).bytes }
{
    let to = plain_any(text, from, quote);
    if byte_is(text, to, quote) {
        put_run(out, 0, &text[from..to]);
        return Scan {
            ended: Parsed::Value(to + 1),
            len: to - from,
            escape: false,
        };
    }
    decode_from(text, from, quote, out)
}
