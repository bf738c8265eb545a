// Reads and writes the number in a run of bytes, in either byte order and at any width.
// Called by header_prefix and write_padding for the length field, and by string_element for the code points of `U` elements.
#![tactic(auto)]

ghost use Rattle.std.specs.Prelude.{◌≡◌, ◌++◌};
ghost use Rattle.counts.specs.Number.{number};
ghost use Rattle.emit.specs.Emits.{Emits};
ghost use Rattle.number_bytes.specs.Numbers.{byte_of, in_order, out_order};

use type_letters::Endianness;

// The number in a run of bytes of any length, or `None` where it is over 2^64-1.
pub fn read(run: &[u8], order: Endianness) -> Option<u64>
    ensures { result ≡ number (in_order order run.now) }
{
    let mut n: u64 = 0;
    for k in (0..run.len()).rev() {
        // Another byte would make it over 2^64-1.
        if n > 0xFFFFFFFFFFFFFF {
            return None;
        }
        let place = match order {
            Endianness::Little => k,
            Endianness::Big => run.len() - 1 - k,
            Endianness::Irrelevant => k,
        };
        n = run[place] as u64 + 0x100 * n;
    }
    Some(n)
}

// Writes `n` as `width` bytes in the given order, and returns the place after them.
pub fn put(out: &mut [u8], at: usize, order: Endianness, width: u8, n: u64) -> usize
    ensures { Emits (λ x. out_order order width n ++ x) out.old at out.new result }
{
    let mut p = at;
    for i in 0..width {
        let k = match order {
            Endianness::Little => i,
            Endianness::Big => width - 1 - i,
            Endianness::Irrelevant => i,
        };
        p = emit::put(out, p, byte_of(k, n));
    }
    p
}

// Byte k of a number, where byte 0 is the least significant; 0 from byte 8 on.
fn byte_of(k: u8, n: u64) -> u8
    ensures { result ≡ byte_of k n }
{
    n.to_le_bytes().get(k as usize).copied().unwrap_or(0)
}
