// The verdict on a descr, put together from those on its parts (document 01, "The record": "An array has n times its inner size; a record has the sum"): what the later
// refusals 13, 20 and 21 need of it, or the first of 11, 12 and 14 to 19 that applies. Called by descr_field and descr, which walk over a header's text.
#![tactic(auto)]

ghost use Rattle.refusal.specs.Answers.{answer};
ghost use Rattle.std.specs.Prelude.{◌≡◌, cond, ◌+◌};
ghost use Rattle.counts.specs.Outcome.{each, then};
ghost use Rattle.counts.specs.Counts.{as_bytes};
ghost use Rattle.dtype.specs.Dtype.{plain as plain_type};
ghost use Rattle.descr_totals.specs.Totals.{at_most, together, arrayed as arrayed_by, totals_of, name_totals};
ghost use Rattle.descr_totals.specs.Verdict.{both};

use counts::{Bytes, held};
use dtype::MOST_DIMENSIONS;
use refusal::Refusal;
use shape_verdict::{Outline, largest};
use type_str::{TypeBytes, TypeStr};

// Entries and name bytes are counted up to the first number that is over their limit.
const ENTRIES_OVER: u64 = dtype::MOST_ENTRIES as u64 + 1;

const NAMES_OVER: u64 = dtype::MOST_NAMES as u64 + 1;

// The totals of a dtype, of a field, of some fields or of a name.
#[derive(Clone, Copy)]
pub struct Totals {
    // entries of the table, capped at 513
    pub entries: u64,
    // bytes of names, capped at 65,537
    pub names: u64,
    // there is an object
    pub object: bool,
    // over 32 array levels are nested
    pub over_levels: bool,
    // an entry's size is over 2^64-1
    pub over: bool,
    // capped at 2^64-1
    pub size: Bytes,
}

// The sum, capped at `most`.
fn add(a: u64, b: u64, most: u64) -> u64
    ensures { result ≡ at_most most (a + b) }
{
    a.saturating_add(b).min(most)
}

// The totals of two parts together.
fn plus(a: Totals, b: Totals) -> Totals
    ensures { result ≡ together a b }
{
    let size = a.size.plus(b.size);
    Totals {
        entries: add(a.entries, b.entries, ENTRIES_OVER),
        names: add(a.names, b.names, NAMES_OVER),
        object: a.object | b.object,
        over_levels: a.over_levels | b.over_levels,
        over: a.over | b.over | size.is_none(),
        size: held(size),
    }
}

// The size, 0 where a dimension is 0.
fn unless_empty(empty: bool, size: Bytes) -> Bytes
    ensures { result ≡ cond empty (as_bytes 0) size }
{
    if empty { Bytes(0) } else { size }
}

// The totals of a type under a sub-shape.
fn arrays(shape: Outline, of: Totals) -> Totals
    ensures { result ≡ arrayed_by shape of }
{
    let size = largest(shape, of.size);
    Totals {
        entries: add(shape.rank as u64, of.entries, ENTRIES_OVER),
        names: of.names,
        object: of.object,
        over_levels: (MOST_DIMENSIONS < shape.rank) | of.over_levels,
        over: size.is_none() | of.over,
        size: unless_empty(shape.empty, held(size)),
    }
}

// The verdict on two parts, one after the other: the first refusal stays.
pub fn join(a: Result<Totals, Refusal>, b: Result<Totals, Refusal>) -> Result<Totals, Refusal>
    ensures { answer result ≡ both (answer a) (answer b) }
{
    let t = a?;
    let u = b?;
    Ok(plus(t, u))
}

// The verdict on a type under a sub-shape: the type's refusal comes first.
pub fn shaped(
    of: Result<Totals, Refusal>,
    shape: Result<Outline, Refusal>,
) -> Result<Totals, Refusal>
    ensures { answer result ≡ then (answer of) (λ t. each (λ o. arrayed_by o t) (answer shape)) }
{
    let t = of?;
    let o = shape?;
    Ok(arrays(o, t))
}

// The totals of a plain type.
fn plain(t: TypeStr) -> Totals
    ensures { result ≡ totals_of (plain_type t) }
{
    let none = Totals {
        entries: 1,
        names: 0,
        object: false,
        over_levels: false,
        over: false,
        size: Bytes(0),
    };
    match t.num_bytes() {
        TypeBytes::Sized(n) => Totals { size: n, ..none },
        TypeBytes::Unsized => Totals {
            object: true,
            ..none
        },
        TypeBytes::TooLarge => Totals {
            over: true,
            size: Bytes(u64::MAX),
            ..none
        },
    }
}

// The verdict on a type string that was read.
pub fn typed(t: Result<TypeStr, Refusal>) -> Result<Totals, Refusal>
    ensures { answer result ≡ each (λ t. totals_of (plain_type t)) (answer t) }
{
    Ok(plain(t?))
}

// The totals of a name of `len` bytes.
pub fn named(len: usize) -> Totals
    ensures { result ≡ name_totals len }
{
    Totals {
        entries: 0,
        names: add(len as u64, 0, NAMES_OVER),
        object: false,
        over_levels: false,
        over: false,
        size: Bytes(0),
    }
}
