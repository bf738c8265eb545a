// Judges the dtype in a header's text while it is read (document 01, "The record"): how the value ends that should be a descr, and what the later refusals 13, 20 and 21 need
// of it, or the first of 11, 12 and 14 to 19 that applies. Called by judge. The walk over the text is in `inner`.
#![tactic(auto)]

mod inner;

ghost use Rattle.literal.specs.Literal.{value as value_of};
ghost use Rattle.descr.specs.Judges.{JudgesAt};

use descr_field::DescrJudged;
use literal_bytes::Parsed;
use refusal::Refusal;

// How the value at `at` ends, where `room` brackets more may open at once, and the verdict on it as a descr; 14 where there is no value.
pub fn judge(text: &[u8], at: usize, room: usize) -> DescrJudged
    ensures { JudgesAt (value_of room text.now at) result }
{
    let r = inner::judge(text, at, room);
    let ended = r.ended;
    let Parsed::Value(_) = ended else {
        return DescrJudged {
            ended: ended,
            verdict: Err(Refusal::Form),
        };
    };
    r
}
