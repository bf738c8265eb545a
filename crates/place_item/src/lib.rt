// Item numbers (document 01, "The record"): the item that an index names in a shape, or 13, 22, 26. Called by place_area and by the C interface.
#![tactic(auto)]

ghost use Rattle.std.specs.Prelude.{◌≡◌};
ghost use Rattle.counts.specs.Number.{number};
ghost use Rattle.counts.specs.Counts.{items};
ghost use Rattle.refusal.specs.Answers.{items_answer};
ghost use Rattle.dtype.specs.Shape.{in_range, sum_of_products};
ghost use Rattle.place_item.specs.Item.{item_of};

use counts::Items;
use dtype::{MOST_DIMENSIONS, Order};
use refusal::Refusal;

// The number of the item that an index names. A shape of up to 32 dimensions has room for its strides, and an item in range has a number below the item count.
pub fn item_number(shape: &[u64], order: Order, index: &[u64]) -> Result<Items, Refusal>
    ensures { items_answer result ≡ item_of order shape.now index.now }
{
    if MOST_DIMENSIONS < shape.len() {
        return Err(Refusal::Dimensions);
    }
    let mut strides = [0; MOST_DIMENSIONS];
    let count = shape::strides(shape, order, &mut strides)?;
    if !in_range(shape, index) {
        return Err(Refusal::Nowhere);
    }
    match sum_of_products(index, &strides) {
        Some(number) => Ok(number),
        // not reached: the number of an item in range is below the item count
        None => Err(Refusal::Nowhere),
    }
}

// The sum of index times stride, as far as both reach.
fn sum_of_products(index: &[u64], strides: &[u64]) -> Option<Items>
    ensures { result ≡ items (number (sum_of_products index.now strides.now)) }
{
    let mut sum = Items(0);
    for k in 0..index.len() {
        if strides.len() <= k {
            // not reached by the only caller: it has room for 32 strides, and an index of at most 32 numbers
            return Some(sum);
        }
        let stride = Items(strides[k]);
        let Some(more) = stride.times(index[k]) else {
            // not reached by the only caller: the index is in range
            return None;
        };
        let Some(next) = sum.plus(more) else {
            // not reached by the only caller: the index is in range
            return None;
        };
        sum = next;
    }
    Some(sum)
}

// Whether an index has one number for each dimension, below it.
fn in_range(shape: &[u64], index: &[u64]) -> bool
    ensures { result ≡ in_range shape.now index.now }
{
    if shape.len() != index.len() {
        return false;
    }
    for k in 0..shape.len() {
        if shape[k] <= index[k] {
            return false;
        }
    }
    true
}
