// The parts of a field in a header's text (document 01, "The record": "`descr` is a string (a type string) or a list (a record). Each record item is a list or tuple of 2 or
// 3"): its name, the type string in it, and the sub-shape after its inner descr. A refusal ends no walk; only a fault of the literal does. Called by descr, which judges a
// descr, and by header, which stores one.
#![tactic(auto)]

ghost use Rattle.refusal.specs.Answers.{answer};
ghost use Rattle.std.specs.Prelude.{◌≡◌, Err};
ghost use Rattle.type_str.specs.TypeString.{type_string};
ghost use Rattle.literal_bytes.specs.Text.{byte_at, kind_of};
ghost use Rattle.literal_escapes.specs.Strings.{spelled};
ghost use Rattle.shape_text.specs.Members.{closing_of};
ghost use Rattle.descr_field.specs.Begins.{is_string, gap_place};
ghost use Rattle.literal_bytes.specs.Got.{pos};
ghost use Rattle.descr_field.specs.After.{items_from, second_at};
ghost use Rattle.literal.specs.Literal.{value as value_of};
ghost use Rattle.descr_field.specs.Parts.{name_verdict, after_inner_at};

use descr_totals::{Totals, join, named, shaped};
use literal::value;
use literal_bytes::{Gap, Parsed, ended, gap_at, kind_at, need, quote_at, then_at};
use literal_tokens::scan_at;
use refusal::Refusal;
use shape_text::closing;
use type_read::parse;
use type_str::TypeStr;

// Whether a string begins at `at`.
pub fn string_at(text: &[u8], at: usize) -> bool
    ensures { result ≡ is_string (kind_of (byte_at text.now at)) }
{
    quote_at(text, at)
}

// The bracket that closes the list or tuple that begins at `at`; 0 where none does.
pub fn closing_at(text: &[u8], at: usize) -> u8
    ensures { result ≡ closing_of (kind_of (byte_at text.now at)) }
{
    closing(kind_at(text, at))
}

// Where the bracket ends, the next item begins, or the stray byte is.
pub fn place_of(g: Gap) -> usize
    ensures { result ≡ gap_place g }
{
    match g {
        Gap::Shut(e) => e,
        Gap::Item(p) => p,
        Gap::Stray(p) => p,
    }
}

// How the string after a quote ends, and what it is as a type string.
#[derive(Clone, Copy)]
pub struct Typed {
    pub ended: Parsed,
    pub read: Result<TypeStr, Refusal>,
}

// The string whose first piece is at `from`, read once. Without an escape, the part of the text up to its end is read as a type string. Any escape in it is a syntax fault.
pub fn typed_at(text: &[u8], from: usize, quote: u8) -> Typed
    ensures ended_value { result.ended ≡ (spelled quote text.now from).ended }
    ensures read_value { answer result.read ≡ type_string (spelled quote text.now from).bytes }
{
    let s = scan_at(text, from, quote);
    let ended = s.ended;
    if s.escape | (text.len() < from) {
        return Typed {
            ended: ended,
            read: Err(Refusal::Syntax),
        };
    }
    let to = from + s.len;
    Typed {
        ended: ended,
        read: parse(&text[from..to]),
    }
}

// The gap after the first item of a bracket, which ends before `at`. A one-element tuple needs a comma after its element; before a further item the comma has been
// checked already.
pub fn second_at(text: &[u8], at: usize, close: u8) -> Gap
    ensures { result ≡ second_at text.now at close }
{
    let g = then_at(text, at, close);
    if close != b')' {
        return g;
    }
    if let Gap::Item(_) = g {
        return g;
    }
    let c = need(text, at, b',');
    match c {
        Parsed::Value(e) => gap_at(text, e, b')'),
        Parsed::Fault(p) => Gap::Stray(p),
        // not reached: `need` reads one byte, and no bracket
        Parsed::Deep(p) => Gap::Stray(p),
    }
}

// How the bracket ends whose next item begins at `from`.
pub fn rest(text: &[u8], from: usize, close: u8, room: usize) -> Parsed
    ensures { result ≡ pos (items_from room text.now close (Gap.Item from)) }
{
    let mut g = Gap::Item(from);
    loop {
        let Gap::Item(p) = g else {
            return ended(g);
        };
        let r = value(text, p, room);
        let Parsed::Value(q) = r else {
            return r;
        };
        g = then_at(text, q, close);
    }
}

// How a value ends, and the verdict on it.
#[derive(Clone, Copy)]
pub struct DescrJudged {
    pub ended: Parsed,
    pub verdict: Result<Totals, Refusal>,
}

// The verdict 14, on a value of another form or where there is no value.
pub fn wrong_form(end: Parsed) -> DescrJudged
    ensures ended_value { result.ended ≡ end }
    ensures verdict_value { result.verdict ≡ Err Refusal.Form }
{
    DescrJudged {
        ended: end,
        verdict: Err(Refusal::Form),
    }
}

// The verdict on the name of a field at `at`: a string, read once, its bytes counted decoded.
pub fn name_at(text: &[u8], at: usize, room: usize) -> DescrJudged
    ensures ended_value { result.ended ≡ pos (value_of room text.now at) }
    ensures verdict_value { answer result.verdict ≡ name_verdict text.now at }
{
    if string_at(text, at) {
        let s = scan_at(text, at + 1, text[at]);
        let end = s.ended;
        return DescrJudged {
            ended: end,
            verdict: Ok(named(s.len)),
        };
    }
    wrong_form(value(text, at, room))
}

// The verdict on a field by what is after its inner descr, from the gap on: nothing more, or its sub-shape.
pub fn sub_shape(
    text: &[u8],
    g: Gap,
    close: u8,
    room: usize,
    name: Result<Totals, Refusal>,
    of: Result<Totals, Refusal>,
) -> DescrJudged
    ensures ended_value { result.ended ≡ pos (items_from room text.now close g) }
    ensures verdict_value { answer result.verdict ≡ after_inner_at room text.now close (answer name) (answer of) g }
{
    let Gap::Item(p) = g else {
        return DescrJudged {
            ended: ended(g),
            verdict: join(name, of),
        };
    };
    let shape = shape_text::judge(text, p, room);
    let end = shape.ended;
    let levels = shape.verdict;
    let Parsed::Value(q) = end else {
        return wrong_form(end);
    };
    let next = then_at(text, q, close);
    let Gap::Item(more) = next else {
        return DescrJudged {
            ended: ended(next),
            verdict: join(name, shaped(of, levels)),
        };
    };
    wrong_form(rest(text, more, close, room))
}
