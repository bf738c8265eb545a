// Judges the text of a header (document 01, "The refusal numbers", the order of reading): the first of 5 to 22 that applies, or the record, by the places of its parts in the
// text. Called by header. The walk over the dict is in `keys`.
#![tactic(auto)]

mod keys;

ghost use Rattle.record.specs.Header.{record_in};
ghost use Rattle.literal_bytes.specs.Text.{skip};
ghost use Rattle.judge.specs.Judged.{reading, JudgedIs};
ghost use Rattle.judge.specs.Keys.{KeysOf};

use descr_totals::Totals;
use dtype::Order;
use judge_limits::within;
use keys::Walked;
use literal_bytes::{Parsed, blanks};
use refusal::Refusal;
use shape_verdict::Outline;

// Where the value of `shape` is, and what later refusals need of it.
#[derive(Clone, Copy)]
pub struct Shape {
    pub at: usize,
    pub outline: Outline,
}

// Where the value of `descr` is, and what later refusals need of it.
#[derive(Clone, Copy)]
pub struct Descr {
    pub at: usize,
    pub totals: Totals,
}

// An accepted record: its order, and where its shape and its dtype are in the text.
#[derive(Clone, Copy)]
pub struct FoundRecord {
    pub order: Order,
    pub shape: Shape,
    pub descr: Descr,
}

// The record of a text, or the first refusal that applies: 5; 6 or 7; then those of the keys.
pub fn judge(text: &[u8]) -> Result<FoundRecord, Refusal>
    ensures { JudgedIs text.now (skip text.now 0) result (record_in reading text.now) }
{
    let Ok(()) = utf8::check(text) else {
        return Err(Refusal::NotUtf8);
    };
    let walked = keys::keys(text, blanks(text, 0));
    let ended = walked.ended;
    match literal::whole(text, ended) {
        Parsed::Value(_) => judge_keys(walked),
        Parsed::Fault(_) => Err(Refusal::Fault),
        Parsed::Deep(_) => Err(Refusal::Depth),
    }
}

// The record of a value by its keys, or the first refusal that applies: 8; `fortran_order` (9, 10); `shape` (9, 11, 12, 13); `descr` (9, 11, 12, 14 to 19); 13 for sub-shapes,
// 20, 21, 22.
fn judge_keys(walked: Walked) -> Result<FoundRecord, Refusal>
    ensures { KeysOf walked result }
{
    if !walked.strings {
        return Err(Refusal::NotDict);
    }
    let order = walked.order?;
    let shape = match walked.shape {
        Ok(shape) => shape,
        Err(why) => return Err(why),
    };
    let descr = walked.descr?;
    within(order, shape.outline, descr.totals)?;
    Ok(FoundRecord {
        order,
        shape,
        descr,
    })
}
