// Whether any table has over 32 nested array levels, or an object; whether a plain type has over 2^64-1 bytes: parts of the checks 13 and 21 (document 01, "The refusal
// numbers"). Called by check_record.
#![tactic(auto)]

ghost use Rattle.std.specs.Prelude.{◌≡◌, cond, suc, ◌-◌, ◌≤◌, eqb, ltb};
ghost use Rattle.dtype.specs.PlainBytes.{bytes_for};
ghost use Rattle.dtype.specs.Limits.{over};
ghost use Rattle.dtype.specs.Seen.{some_from, object_at, arrays_from};

use counts::Points;

// How many array levels may be nested.
const MOST_LEVELS: u64 = dtype::MOST_DIMENSIONS as u64;

// The letters of an object and of a Unicode string, as an entry holds them.
const OBJECT: u64 = b'O' as u64;

const UNICODE: u64 = b'U' as u64;

// Whether more than 32 array levels are nested.
pub fn too_deep(table: &[u64], n: usize) -> bool
    ensures { result ≡ some_from (λ e. ltb 32 (arrays_from table.now (n - e) e)) n 0 }
{
    let mut levels: u64 = 0;
    for e in (0..n).rev() {
        let entry = table_entry::entry_at(table, e);
        levels = level(entry.kind, levels);
        if MOST_LEVELS < levels {
            return true;
        }
    }
    false
}

// How many nested array levels begin at an entry of this kind, where `inner` begin at the next entry.
fn level(kind: u64, inner: u64) -> u64
    requires { inner ≤ 32 }
    ensures { result ≡ cond (eqb kind 1) (suc inner) 0 }
{
    if kind == dtype::ARRAY { inner + 1 } else { 0 }
}

// Whether some entry is an object.
pub fn has_object(table: &[u64], n: usize) -> bool
    ensures { result ≡ some_from (object_at table.now) n 0 }
{
    (0..n).any(|e| table_entry::entry_at(table, e).letter == OBJECT)
}

// Whether a plain type has more than 2^64-1 bytes. Only `U` can, at four bytes a code point.
pub fn plain_over(letter: u64, size: u64) -> bool
    ensures { result ≡ over (bytes_for letter size) }
{
    letter == UNICODE && Points(size).in_bytes().is_none()
}
