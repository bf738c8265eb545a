// The walk over a descr, which reads the text and judges it at once. `judge`, `fields`, `field` and `inner_at` call each other in a cycle; each bracket that opens leaves one
// fewer. A refusal ends no walk, so that a wrong item count can come before what is refused inside; only a fault of the literal does. The verdict on a text with such a fault
// means nothing: the caller looks at the end first.
ghost use Rattle.refusal.specs.Answers.{answer};
ghost use Rattle.std.specs.Prelude.{◌≡◌, ◌+◌, ◌<◌, length};
ghost use Rattle.counts.specs.Outcome.{each};
ghost use Rattle.record.specs.Descr.{descr_of, fields_of, field_of};
ghost use Rattle.literal_escapes.specs.Strings.{spelled};
ghost use Rattle.literal_bytes.specs.Text.{byte_at};
ghost use Rattle.literal_bytes.specs.Gaps.{gap_at};
ghost use Rattle.descr_totals.specs.Totals.{totals_of, totals_in, field_totals};
ghost use Rattle.descr.specs.Judges.{JudgesDescr, JudgesFrom, typed_at};

use counts::Bytes;
use descr_field::{
    DescrJudged, closing_at, name_at, second_at, string_at, sub_shape, typed_at, wrong_form,
};
use descr_totals::{Totals, join, typed};
use literal::value;
use literal_bytes::{Gap, Parsed, ended, gap_at, then_at};

// The verdict on a value as a descr: a type string, or a list of fields.
#[cycle(field_fields_inner_at_judge)]
pub(crate) fn judge(text: &[u8], at: usize, room: usize) -> DescrJudged
    ensures { JudgesDescr room text.now at (λ v. each totals_of (descr_of v)) result }
{
    if string_at(text, at) {
        return plain_at(text, at);
    }
    if closing_at(text, at) != b']' {
        return wrong_form(value(text, at, room));
    }
    if room == 0 {
        return wrong_form(Parsed::Deep(at));
    }
    let one = Ok(Totals {
        entries: 1,
        names: 0,
        object: false,
        over_levels: false,
        over: false,
        size: Bytes(0),
    });
    let r = fields(text, at + 1, room - 1);
    let end = r.ended;
    let v = r.verdict;
    DescrJudged {
        ended: end,
        verdict: join(one, v),
    }
}

// The verdict on the fields of a record, up to its closing bracket (93 is `]`).
#[cycle(field_fields_inner_at_judge)]
fn fields(text: &[u8], from: usize, room: usize) -> DescrJudged
    ensures { JudgesFrom room text.now 93 (gap_at text.now from 93) (λ vs. each totals_in (fields_of vs)) result }
{
    let mut g = gap_at(text, from, b']');
    let mut verdict = Ok(Totals {
        entries: 0,
        names: 0,
        object: false,
        over_levels: false,
        over: false,
        size: Bytes(0),
    });
    loop {
        let Gap::Item(p) = g else {
            return DescrJudged {
                ended: ended(g),
                verdict: verdict,
            };
        };
        let r = field(text, p, room);
        let end = r.ended;
        let v = r.verdict;
        let Parsed::Value(q) = end else {
            return wrong_form(end);
        };
        verdict = join(verdict, v);
        g = then_at(text, q, b']');
    }
}

// The verdict on a field, a list or tuple of 2 or 3 items: its name, its inner descr, perhaps its sub-shape. Fewer or more items are 14, whatever they are.
#[cycle(field_fields_inner_at_judge)]
fn field(text: &[u8], at: usize, room: usize) -> DescrJudged
    ensures { JudgesDescr room text.now at (λ v. each field_totals (field_of v)) result }
{
    let close = closing_at(text, at);
    if close == 0 {
        return wrong_form(value(text, at, room));
    }
    if room == 0 {
        return wrong_form(Parsed::Deep(at));
    }
    let left = room - 1;
    let g1 = gap_at(text, at + 1, close);
    let Gap::Item(p1) = g1 else {
        return wrong_form(ended(g1));
    };
    let name = name_at(text, p1, left);
    let e1 = name.ended;
    let Parsed::Value(q1) = e1 else {
        return wrong_form(e1);
    };
    let g2 = second_at(text, q1, close);
    let Gap::Item(p2) = g2 else {
        return wrong_form(ended(g2));
    };
    let inner = inner_at(text, p2, left);
    let e2 = inner.ended;
    let Parsed::Value(q2) = e2 else {
        return wrong_form(e2);
    };
    let g3 = then_at(text, q2, close);
    let called = name.verdict;
    let of = inner.verdict;
    sub_shape(text, g3, close, left, called, of)
}

// The verdict on the inner descr of a field: as `judge`, but nearly every one is a type string, which is read without a call in the cycle.
#[cycle(field_fields_inner_at_judge)]
fn inner_at(text: &[u8], at: usize, room: usize) -> DescrJudged
    ensures { JudgesDescr room text.now at (λ v. each totals_of (descr_of v)) result }
{
    if string_at(text, at) {
        return plain_at(text, at);
    }
    judge(text, at, room)
}

// The verdict on the string whose quote is at `at`, as a type string.
fn plain_at(text: &[u8], at: usize) -> DescrJudged
    requires { at < length text.now }
    ensures ended_value { result.ended ≡ (spelled (byte_at text.now at) text.now (at + 1)).ended }
    ensures verdict_value { answer result.verdict ≡ typed_at text.now at }
{
    let t = typed_at(text, at + 1, text[at]);
    let end = t.ended;
    let read = t.read;
    DescrJudged {
        ended: end,
        verdict: typed(read),
    }
}
