// Whether numbers are the dimensions of a shape or sub-shape (11, 12), and what 13, 21 and 22 need of them (document 01, "The record" and "The refusal numbers"). Called by
// shape_text for each member of a shape in a header's text, and by descr_totals and judge_limits for the finished outline.
#![tactic(auto)]

ghost use Rattle.refusal.specs.Answers.{answer};
ghost use Rattle.std.specs.Prelude.{◌≡◌, true, false, ℕ};
ghost use Rattle.shape_verdict.specs.Outline.{scaled_by, bytes_of_items, largest_in, over_in, extended_capped};
ghost use Rattle.counts.specs.Number.{number};
ghost use Rattle.record.specs.Dimensions.{signed};
ghost use Rattle.shape_verdict.specs.Signs.{positive_of, negative_of};
ghost use Rattle.counts.specs.Outcome.{then, each};

use counts::{Bytes, Items};
use dtype::Order;
use refusal::Refusal;

// How many dimensions there are, whether one is 0, and the products of those before the first 0 and after the last 0.
#[derive(Clone, Copy)]
pub struct Outline {
    pub rank: usize,
    pub empty: bool,
    pub before: Option<Items>,
    pub after: Option<Items>,
}

// Whether the item count or a stride of the order is over 2^64-1 (22).
pub fn over(shape: Outline, order: Order) -> bool
    ensures { result ≡ over_in order shape }
{
    match order {
        Order::C => shape.after.is_none(),
        Order::Fortran => shape.before.is_none(),
    }
}

// The largest size that an array level of a sub-shape has, over items of `size` bytes (21).
pub fn largest(levels: Outline, size: Bytes) -> Option<Bytes>
    ensures { result ≡ largest_in levels size.0 }
{
    if size.0 == 0 {
        return Some(Bytes(0));
    }
    bytes_of_items(levels.after, size)
}

// The bytes of a product of dimensions, over items of `size` bytes.
fn bytes_of_items(n: Option<Items>, size: Bytes) -> Option<Bytes>
    ensures { result ≡ bytes_of_items n size.0 }
{
    n?.of_size(size)
}

// A product times one more dimension.
fn scaled(a: Option<Items>, n: u64) -> Option<Items>
    ensures { result ≡ scaled_by a n }
{
    a?.times(n)
}

// The dimension that a number without a `-` is: 12 where it is over 2^64-1.
pub fn positive(n: Option<u64>) -> Result<u64, Refusal>
    ensures by_index { (m : ℕ) → n ≡ number m → answer result ≡ signed false m }
    ensures value { result ≡ positive_of n }
{
    n.ok_or(Refusal::LargeDimension)
}

// The dimension that a number after a `-` is: 11 unless it is 0.
pub fn negative(n: Option<u64>) -> Result<u64, Refusal>
    ensures by_index { (m : ℕ) → n ≡ number m → answer result ≡ signed true m }
    ensures value { result ≡ negative_of n }
{
    match n {
        Some(0) => Ok(0),
        Some(_) => Err(Refusal::NotShape),
        None => Err(Refusal::NotShape),
    }
}

// The verdict with one member more: the first refusal stays.
pub fn joined(
    verdict: Result<Outline, Refusal>,
    member: Result<u64, Refusal>,
) -> Result<Outline, Refusal>
    ensures { answer result ≡ then (answer verdict) (λ o. each (extended_capped o) (answer member)) }
{
    let o = verdict?;
    let n = member?;
    Ok(extended(o, n))
}

// The outline with the dimension n after the others.
fn extended(o: Outline, n: u64) -> Outline
    ensures { result ≡ extended_capped o n }
{
    let rank = o.rank.saturating_add(1);
    if n == 0 {
        return Outline {
            rank,
            empty: true,
            before: o.before,
            after: Some(Items(1)),
        };
    }
    if o.empty {
        return Outline {
            rank,
            empty: true,
            before: o.before,
            after: scaled(o.after, n),
        };
    }
    Outline {
        rank,
        empty: false,
        before: scaled(o.before, n),
        after: scaled(o.after, n),
    }
}
