// Sizes in bytes as an entry of the dtype table holds them: 2^64-1 where they are larger.
// Called by the crates that fill a table (table_entry, table_fill, header) and by check_table, which checks one.
#![tactic(auto)]

ghost use Rattle.std.specs.Prelude.{◌≡◌, ◌+◌, ◌*◌};
ghost use Rattle.counts.specs.Number.{capped};
ghost use Rattle.counts.specs.Counts.{as_bytes};
ghost use Rattle.dtype.specs.PlainBytes.{plain_bytes};

use counts::{Bytes, Items, held};
use type_str::{TypeBytes, TypeStr};

// The size of a plain type; an object has 0.
pub fn held_bytes(t: TypeStr) -> Bytes
    ensures { result ≡ as_bytes (capped (plain_bytes t)) }
{
    match t.num_bytes() {
        TypeBytes::Sized(n) => n,
        TypeBytes::Unsized => Bytes(0),
        TypeBytes::TooLarge => Bytes(u64::MAX),
    }
}

// The sum of two sizes.
pub fn held_sum(a: Bytes, b: Bytes) -> Bytes
    ensures { result ≡ as_bytes (capped (a.0 + b.0)) }
{
    held(a.plus(b))
}

// The size of `count` items, each of `size` bytes.
pub fn held_product(count: Items, size: Bytes) -> Bytes
    ensures { result ≡ as_bytes (capped (count.0 * size.0)) }
{
    held(count.of_size(size))
}
