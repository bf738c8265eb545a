// The limits of a record (document 01, "The refusal numbers", the order of reading): 13 once its shape has been read; 13 for sub-shapes, 20, 21, 22 once its dtype has been
// read too. Called by judge.
#![tactic(auto)]

ghost use Rattle.refusal.specs.Answers.{answer};
ghost use Rattle.std.specs.Prelude.{◌≡◌};
ghost use Rattle.judge_limits.specs.Answer.{rank_limit, limits_of};

use descr_totals::Totals;
use dtype::{MOST_DIMENSIONS, Order};
use refusal::Refusal;
use shape_verdict::Outline;

const MOST_ENTRIES: u64 = dtype::MOST_ENTRIES as u64;

const MOST_NAMES: u64 = dtype::MOST_NAMES as u64;

// 13 where a shape of this outline has over 32 dimensions.
pub fn ranked(outline: Outline) -> Result<(), Refusal>
    ensures { answer result ≡ rank_limit outline }
{
    if MOST_DIMENSIONS < outline.rank {
        return Err(Refusal::Dimensions);
    }
    Ok(())
}

// The first limit that a record with a shape of this outline and a dtype of these totals breaks. 13 for the shape itself is `ranked`, and comes before the dtype is read.
pub fn within(order: Order, outline: Outline, totals: Totals) -> Result<(), Refusal>
    ensures { answer result ≡ limits_of order outline totals }
{
    if totals.over_levels {
        return Err(Refusal::Dimensions);
    }
    if (MOST_ENTRIES < totals.entries) | (MOST_NAMES < totals.names) {
        return Err(Refusal::Entries);
    }
    if !totals.object & totals.over {
        return Err(Refusal::Size);
    }
    if shape_verdict::over(outline, order) {
        return Err(Refusal::Shape);
    }
    Ok(())
}
