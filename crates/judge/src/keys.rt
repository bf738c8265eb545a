// The walk over the dict of a header's text: how it ends, whether its keys are all strings (8), and the verdicts on the values of the three keys that count (document 01, "The
// record"). Called by `judge`.
ghost use Rattle.refusal.specs.Answers.{answer};
ghost use Rattle.std.specs.Prelude.{◌≡◌};
ghost use Rattle.counts.specs.Outcome.{then, each};
ghost use Rattle.literal.specs.Brackets.{list_by, pair_by};
ghost use Rattle.literal.specs.Literal.{value as value_of};
ghost use Rattle.judge.specs.Found.{ranked_at, placed_descr};
ghost use Rattle.judge.specs.Keys.{KeyIs, OrderTaken, WalkedOf, WalksKeys};

use crate::{Descr, Shape};
use descr_field::{DescrJudged, string_at};
use dtype::Order;
use judge_limits::ranked;
use judge_names::{Name, all_strings, key_of, name_at, word_at};
use literal::value;
use literal_bytes::{Gap, Parsed, ValueKind, colon_at, ended, gap_at, kind_at, then_at};
use literal_grammar::MOST_OPEN;
use literal_tokens::scan_at;
use refusal::Refusal;
use shape_text::ShapeJudged;

// How a value ended, whether it is a dict whose keys are all strings, and what was found for the three keys.
#[derive(Clone, Copy)]
pub struct Walked {
    pub ended: Parsed,
    pub strings: bool,
    pub descr: Result<Descr, Refusal>,
    pub order: Result<Order, Refusal>,
    pub shape: Result<Shape, Refusal>,
}

// What a key is, and where its value begins or the fault before that.
#[derive(Clone, Copy)]
struct Key {
    name: Name,
    begins: Parsed,
}

// How the value at `at` ends, and what it has for the three keys.
pub(crate) fn keys(text: &[u8], at: usize) -> Walked
    ensures { WalksKeys text.now at result }
{
    let k = kind_at(text, at);
    let ValueKind::Curly = k else {
        return Walked {
            ended: value(text, at, MOST_OPEN),
            strings: false,
            descr: Err(Refusal::NoKey),
            order: Err(Refusal::NoKey),
            shape: Err(Refusal::NoKey),
        };
    };
    keys_from(text, at + 1, MOST_OPEN - 1)
}

// The pairs from `from` up to the closing brace (125 is `}`). A key that is no string is 8, which comes after any fault of the text: the walk goes on. What was found is in three locals, of which a
// pair stores the one that it changes: to copy all three at each pair is slow.
fn keys_from(text: &[u8], from: usize, room: usize) -> Walked
    ensures { WalkedOf room text.now result (list_by (pair_by (value_of room text.now) text.now) text.now from 125) }
{
    let mut g = gap_at(text, from, b'}');
    let mut strings = true;
    let mut descr = Err(Refusal::NoKey);
    let mut order = Err(Refusal::NoKey);
    let mut shape = Err(Refusal::NoKey);
    loop {
        let Gap::Item(p) = g else {
            return walk_end(ended(g), strings, descr, order, shape);
        };
        let key = key_at(text, p, room);
        let name = key.name;
        let k = key.begins;
        let Parsed::Value(at) = k else {
            return walk_end(k, strings, descr, order, shape);
        };
        order = order_at(text, at, name, order);
        let v = match name {
            Name::Descr => {
                let one = descr::judge(text, at, room);
                descr = descr_found(at, one);
                one.ended
            }
            Name::Shape => {
                let one = shape_text::judge(text, at, room);
                shape = shape_found(at, one);
                one.ended
            }
            Name::Order | Name::Extra | Name::NoString => value(text, at, room),
        };
        let Parsed::Value(q) = v else {
            return walk_end(v, strings, descr, order, shape);
        };
        strings = all_strings(strings, name);
        g = then_at(text, q, b'}');
    }
}

// The result of the walk.
fn walk_end(
    ended: Parsed,
    strings: bool,
    descr: Result<Descr, Refusal>,
    order: Result<Order, Refusal>,
    shape: Result<Shape, Refusal>,
) -> Walked
    ensures { result ≡ record { ended = ended; strings = strings; descr = descr; order = order; shape = shape } }
{
    Walked {
        ended,
        strings,
        descr,
        order,
        shape,
    }
}

// The dtype of the value at `at`, by the verdict on it.
fn descr_found(at: usize, judged: DescrJudged) -> Result<Descr, Refusal>
    ensures { answer result ≡ each (placed_descr at) (answer judged.verdict) }
{
    let totals = judged.verdict?;
    Ok(Descr { at, totals })
}

// The shape of the value at `at`, by the verdict on it: 13 where it has over 32 dimensions.
fn shape_found(at: usize, judged: ShapeJudged) -> Result<Shape, Refusal>
    ensures { answer result ≡ then (answer judged.verdict) (ranked_at at) }
{
    let outline = judged.verdict?;
    ranked(outline)?;
    Ok(Shape { at, outline })
}

// The order that is declared after a pair of this name, whose value is at `at`.
fn order_at(
    text: &[u8],
    at: usize,
    name: Name,
    was: Result<Order, Refusal>,
) -> Result<Order, Refusal>
    ensures { OrderTaken text.now at name was result }
{
    match name {
        Name::Order => word_at(text, at),
        Name::Descr | Name::Shape | Name::Extra | Name::NoString => was,
    }
}

// The key at `at` with its colon. A string is read once.
fn key_at(text: &[u8], at: usize, room: usize) -> Key
    ensures { KeyIs room text.now at result }
{
    if !string_at(text, at) {
        return Key {
            name: Name::NoString,
            begins: literal::key(text, at, room),
        };
    }
    let from = at + 1;
    let quote = text[at];
    let s = scan_at(text, from, quote);
    let ended = s.ended;
    let Parsed::Value(q) = ended else {
        return Key {
            name: Name::Extra,
            begins: ended,
        };
    };
    let begins = colon_at(text, q);
    if s.escape {
        return Key {
            name: name_at(text, from, quote),
            begins,
        };
    }
    let to = from + s.len;
    Key {
        name: key_of(&text[from..to]),
        begins,
    }
}
