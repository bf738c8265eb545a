// The item count and the strides of a shape, or 22, or 23 (document 01, "The record"; `strides` of npyz's read.rs). Called by the check of a record, by item numbers, by
// the listing and by the C interface.
#![tactic(auto)]

ghost use Rattle.std.specs.Prelude.{◌≡◌, false, ◌<◌, ◌≤◌, length};
ghost use Rattle.dtype.specs.Shape.{strides};
ghost use Rattle.dtype.specs.Limits.{over_shape};
ghost use Rattle.counts.specs.Lists.{at_front};
ghost use Rattle.refusal.specs.Answers.{items_answer};
ghost use Rattle.shape.specs.Count.{item_count, WritesStrides};
ghost use Rattle.shape.specs.Visit.{visited};

use counts::Items;
use dtype::Order;
use refusal::Refusal;

// The item count of a shape; 22 where it or a stride of this order is over 2^64-1.
pub fn count(shape: &[u64], order: Order) -> Result<Items, Refusal>
    ensures { items_answer result ≡ item_count order shape.now }
{
    let mut product = Items(1);
    for k in 0..shape.len() {
        let at = visit(order, shape.len(), k);
        product = product.times(shape[at]).ok_or(Refusal::Shape)?;
    }
    Ok(product)
}

// Writes the strides of a shape, in items, to the front of `out`, and returns the item count; or 22; or 23 where `out` is shorter than the shape. A refusal leaves
// `out` as it was.
pub fn strides(shape: &[u64], order: Order, out: &mut [u64]) -> Result<Items, Refusal>
    ensures { WritesStrides order shape.now out.old result out.new }
{
    let items = count(shape, order)?;
    if out.len() < shape.len() {
        return Err(Refusal::Room);
    }
    fill(shape, order, out);
    Ok(items)
}

// Each stride is the product of the dimensions visited before.
fn fill(shape: &[u64], order: Order, out: &mut [u64])
    requires { (length shape.now ≤ length out.old) × (over_shape order shape.now ≡ false) }
    ensures { out.new ≡ at_front (strides order shape.now) out.old }
{
    let mut stride = Items(1);
    for k in 0..shape.len() {
        let at = visit(order, shape.len(), k);
        out[at] = stride.0;
        stride = stride.times(shape[at]).unwrap();
    }
}

// The dimension that is visited after k others: the last one first in C order, the first one first in Fortran order.
fn visit(order: Order, rank: usize, k: usize) -> usize
    requires { k < rank }
    ensures { (result ≡ visited order rank k) × (result < rank) }
{
    match order {
        Order::C => rank - 1 - k,
        Order::Fortran => k,
    }
}
