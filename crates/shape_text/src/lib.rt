// Shapes and sub-shapes in the text of a header (document 01, "The record"): `judge` decides 11 and 12 and outlines the dimensions for 13, 21 and 22; `fill` stores the
// dimensions. Called by descr_field and judge, which judge a header's text, and by header, which stores an accepted one.
#![tactic(auto)]

ghost use Rattle.refusal.specs.Answers.{answer};
ghost use Rattle.std.specs.Prelude.{◌≡◌, false, [], ◌≤◌, set, Ok};
ghost use Rattle.decimal.specs.Decimal.{is_digit};
ghost use Rattle.literal.specs.Literal.{value as value_of};
ghost use Rattle.literal_bytes.specs.Got.{pos};
ghost use Rattle.literal_bytes.specs.Text.{byte_at};
ghost use Rattle.shape_text.specs.Members.{closing_of, SizeAt, member_at};
ghost use Rattle.counts.specs.Outcome.{gives};
ghost use Rattle.literal.specs.Brackets.{list_by, tuple_by};
ghost use Rattle.shape_verdict.specs.Answer.{rank_of};
ghost use Rattle.shape_verdict.specs.Outline.{outline_of};
ghost use Rattle.shape_text.specs.Answer.{JudgesShape};
ghost use Rattle.shape_text.specs.Walk.{judged_shut, WalksMembers};
ghost use Rattle.shape_text.specs.Fill.{front_in, front_at, stop_in, stop_at, Stored};

use counts::Items;
use literal::value;
use literal_bytes::{
    Gap, MINUS, Parsed, ROUND, SQUARE, ValueKind, gap_at, kind_at, need, peek, then_at,
};
use literal_tokens::numeral_at;
use refusal::Refusal;
use shape_verdict::{Outline, joined, negative, positive};

// How the text of a member ends, and the dimension that it is.
#[derive(Clone, Copy)]
pub struct Item {
    pub ended: Parsed,
    pub size: Result<u64, Refusal>,
}

// The bracket that closes a list or a tuple, by the kind of the byte that opens it; 0 for any other kind. (0 and no `Option`, as `closing_of` of the specs has it: a walk compares one byte.)
pub fn closing(k: ValueKind) -> u8
    ensures { result ≡ closing_of k }
{
    match k {
        ValueKind::Square => b']',
        ValueKind::Round => b')',
        ValueKind::Curly
        | ValueKind::Quote
        | ValueKind::Minus
        | ValueKind::Digit
        | ValueKind::TrueWord
        | ValueKind::FalseWord
        | ValueKind::NoneWord
        | ValueKind::Other => 0,
    }
}

// How the value at `at` ends, and the dimension that it is. Digits are tried first, as nearly every member has no sign.
pub fn member_at(text: &[u8], at: usize, room: usize) -> Item
    ensures ended_value { result.ended ≡ pos (value_of room text.now at) }
    ensures size_at { SizeAt text.now at result.size }
    ensures size_value { result.size ≡ member_at text.now at }
{
    let d = numeral_at(text, at);
    let ended = d.ended;
    let number = d.number;
    let Parsed::Value(e) = ended else {
        return other_at(text, at, room);
    };
    Item {
        ended: Parsed::Value(e),
        size: positive(number),
    }
}

// The same where the first byte is no digit.
fn other_at(text: &[u8], at: usize, room: usize) -> Item
    requires { is_digit (byte_at text.now at) ≡ false }
    ensures ended_value { result.ended ≡ pos (value_of room text.now at) }
    ensures size_at { SizeAt text.now at result.size }
    ensures size_value { result.size ≡ member_at text.now at }
{
    if peek(text, at) != MINUS {
        return Item {
            ended: value(text, at, room),
            size: Err(Refusal::NotShape),
        };
    }
    let d = numeral_at(text, at + 1);
    let ended = d.ended;
    let number = d.number;
    Item {
        ended: ended,
        size: negative(number),
    }
}

// How the text of a value ends, and what it is as a shape or sub-shape.
#[derive(Clone, Copy)]
pub struct ShapeJudged {
    pub ended: Parsed,
    pub verdict: Result<Outline, Refusal>,
}

// How the value at `at` ends, where `room` brackets more may open at once, and what it is as a shape. Every member is read, and the first bad one decides.
pub fn judge(text: &[u8], at: usize, room: usize) -> ShapeJudged
    ensures { JudgesShape (value_of room text.now at) result }
{
    let b = peek(text, at);
    if !((b == SQUARE) | (b == ROUND)) {
        return ShapeJudged {
            ended: value(text, at, room),
            verdict: Err(Refusal::NotShape),
        };
    }
    if room == 0 {
        return ShapeJudged {
            ended: Parsed::Deep(at),
            verdict: Err(Refusal::NotShape),
        };
    }
    if b == SQUARE {
        return members(text, at + 1, b']', room - 1, nothing());
    }
    tuple(text, at + 1, room - 1)
}

// The members of a tuple: none, or one with its comma and then as in a list.
fn tuple(text: &[u8], from: usize, room: usize) -> ShapeJudged
    ensures { WalksMembers (gives (outline_of [])) (tuple_by (value_of room text.now) text.now from) result }
{
    let g = gap_at(text, from, b')');
    let Gap::Item(p) = g else {
        return shut(g, nothing());
    };
    let m = member_at(text, p, room);
    let first = m.ended;
    let size = m.size;
    let Parsed::Value(q) = first else {
        return ShapeJudged {
            ended: first,
            verdict: Err(Refusal::NotShape),
        };
    };
    let c = need(text, q, b',');
    let Parsed::Value(e) = c else {
        return ShapeJudged {
            ended: c,
            verdict: Err(Refusal::NotShape),
        };
    };
    members(text, e, b')', room, joined(nothing(), size))
}

// The members from `from` up to the closing bracket, after those that `met` is the verdict on. The walk goes on after a bad one: a fault may follow.
fn members(
    text: &[u8],
    from: usize,
    close: u8,
    room: usize,
    met: Result<Outline, Refusal>,
) -> ShapeJudged
    requires { rank_of met ≤ from }
    ensures { WalksMembers (answer met) (list_by (value_of room text.now) text.now from close) result }
{
    let mut g = gap_at(text, from, close);
    let mut verdict = met;
    loop {
        let Gap::Item(p) = g else {
            return shut(g, verdict);
        };
        let m = member_at(text, p, room);
        let ended = m.ended;
        let size = m.size;
        let Parsed::Value(q) = ended else {
            return ShapeJudged {
                ended: ended,
                verdict: Err(Refusal::NotShape),
            };
        };
        verdict = joined(verdict, size);
        g = then_at(text, q, close);
    }
}

// The verdict on no members.
fn nothing() -> Result<Outline, Refusal>
    ensures { result ≡ Ok (outline_of []) }
{
    Ok(Outline {
        rank: 0,
        empty: false,
        before: Some(Items(1)),
        after: Some(Items(1)),
    })
}

// How a bracket ends at a gap with no member: with the verdict where it is shut there, and with a fault elsewhere.
fn shut(g: Gap, verdict: Result<Outline, Refusal>) -> ShapeJudged
    ensures { result ≡ judged_shut g verdict }
{
    match g {
        Gap::Shut(e) => ShapeJudged {
            ended: Parsed::Value(e),
            verdict: verdict,
        },
        // not reached by its callers: they read the member there
        Gap::Item(p) => ShapeJudged {
            ended: Parsed::Fault(p),
            verdict: Err(Refusal::NotShape),
        },
        Gap::Stray(p) => ShapeJudged {
            ended: Parsed::Fault(p),
            verdict: Err(Refusal::NotShape),
        },
    }
}

// How many dimensions were met, and the gap after the last of them: shut where all members are dimensions.
#[derive(Clone, Copy)]
pub struct DimsStored {
    pub rank: usize,
    pub stop: Gap,
}

// Writes the dimensions of the shape at `at` to the front of `out`, as many as have room there, and returns how many there are and where the shape ends. In a list or tuple
// that is not a shape it stops at the first member that is not a dimension; for anything else there are none, and it stops at `at`.
pub fn fill(text: &[u8], at: usize, room: usize, out: &mut [u64]) -> DimsStored
    ensures { Stored (front_at room text.now at) (stop_at room text.now at) out.old result out.new }
{
    let close = closing(kind_at(text, at));
    if (close == 0) | (room == 0) {
        return DimsStored {
            rank: 0,
            stop: Gap::Stray(at),
        };
    }
    fill_members(text, at + 1, close, room - 1, out)
}

// The members from `from` up to the closing bracket.
fn fill_members(text: &[u8], from: usize, close: u8, room: usize, out: &mut [u64]) -> DimsStored
    ensures { Stored (front_in room text.now from close) (stop_in room text.now from close) out.old result out.new }
{
    let mut g = gap_at(text, from, close);
    let mut i: usize = 0;
    loop {
        let Gap::Item(p) = g else {
            return DimsStored { rank: i, stop: g };
        };
        let m = member_at(text, p, room);
        let ended = m.ended;
        let size = m.size;
        let Parsed::Value(q) = ended else {
            return DimsStored { rank: i, stop: g };
        };
        let Ok(n) = size else {
            return DimsStored { rank: i, stop: g };
        };
        put(out, i, n);
        i += 1;
        g = then_at(text, q, close);
    }
}

// A store where there is room for it.
fn put(out: &mut [u64], at: usize, n: u64)
    ensures { out.new ≡ set out.old at n }
{
    if at < out.len() {
        out[at] = n;
    }
}
