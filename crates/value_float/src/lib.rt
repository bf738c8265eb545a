// Floats with their exact bits, and half floats as the f32 of the same number (document 02, wish 1). A float of the language has one NaN, without sign and payload, and
// `from_bits` takes no NaN's bits; so each float is returned together with its bits, which are exact for every pattern. Called by value.
#![tactic(auto)]

ghost use Rattle.std.specs.Prelude.{◌≡◌, ◌<◌, ◌^◌};
ghost use Rattle.std.specs.Float.Ieee.Exact.{HasValue};
ghost use Rattle.value_float.specs.Floats.{single_of, double_of};
ghost use Rattle.value_float.specs.Half.{sign_bits, digits, shift, scaled, nearest_single, half_of};

// A single float and its 32 bits. (Reading a value is quicker with the bits first, docs/BENCHMARKS.md.)
#[derive(Clone, Copy)]
pub struct Single {
    pub bits: u32,
    pub number: f32,
}

// A double float and its 64 bits.
#[derive(Clone, Copy)]
pub struct Double {
    pub bits: u64,
    pub number: f64,
}

// The sign of a single float, and its infinity. Without its sign a NaN is above the infinity.
const SIGN: u32 = 0x8000_0000;

const INFINITY: u32 = 0x7F80_0000;

// The same of a double float.
const WIDE_SIGN: u64 = 0x8000_0000_0000_0000;

const WIDE_INFINITY: u64 = 0x7FF0_0000_0000_0000;

// The sign of a half float, the number of its fractions and of its exponents, and the exponent of its infinities and NaNs.
const HALF_SIGN: u16 = 0x8000;

const HALF_FRACTIONS: u16 = 0x400;

const HALF_EXPONENTS: u16 = 0x20;

const HALF_INFINITY: u16 = 31;

// The ten bits of a half float's fraction at the top of the 23 of a single float's.
const WIDER: u32 = 0x2000;

// The single float of 32 bits.
pub fn single_of(bits: u32) -> Single
    ensures { result ≡ single_of bits }
{
    if INFINITY < bits % SIGN {
        return Single {
            number: f32::NAN,
            bits,
        };
    }
    Single {
        number: f32::from_bits(bits),
        bits,
    }
}

// The double float of 64 bits. (A function of its own: another type, and other constants.)
pub fn double_of(bits: u64) -> Double
    ensures { result ≡ double_of bits }
{
    if WIDE_INFINITY < bits % WIDE_SIGN {
        return Double {
            number: f64::NAN,
            bits,
        };
    }
    Double {
        number: f64::from_bits(bits),
        bits,
    }
}

// The single float of the same number as a half float of 16 bits: its sign, five bits of exponent and ten of fraction.
pub fn from_half(bits: u16) -> Single
    ensures { result ≡ half_of bits }
{
    let negative = HALF_SIGN <= bits;
    let exponent = bits / HALF_FRACTIONS % HALF_EXPONENTS;
    let fraction = bits % HALF_FRACTIONS;
    if exponent == HALF_INFINITY {
        return single_of(sign_bits(negative) + (INFINITY + (fraction as u32) * WIDER));
    }
    finite(negative, exponent, fraction)
}

// The sign in the bits of a single float.
fn sign_bits(negative: bool) -> u32
    ensures { result ≡ sign_bits negative }
{
    if negative { SIGN } else { 0 }
}

// A half float that is neither an infinity nor a NaN: its digits, times a power of two. Nothing is rounded.
fn finite(negative: bool, exponent: u16, fraction: u16) -> Single
    requires { (exponent < 31) × (fraction < 1024) }
    ensures { result ≡ nearest_single negative (scaled exponent fraction) }
{
    let number = (digits_of(exponent, fraction) as f32) * unit(negative, shift_of(exponent));
    Single {
        number,
        bits: number.to_bits(),
    }
}

// The digits of a half float, with the leading one where it has one.
fn digits_of(exponent: u16, fraction: u16) -> u16
    requires { fraction < 1024 }
    ensures { result ≡ digits exponent fraction }
{
    if exponent == 0 {
        fraction
    } else {
        HALF_FRACTIONS + fraction
    }
}

// By how many powers of two the digits count for more than those of the smallest half floats.
fn shift_of(exponent: u16) -> u16
    ensures { result ≡ shift exponent }
{
    exponent.saturating_sub(1)
}

// 2 to the power of `place` - 24, or that negated: an exponent of `place` + 103, and a fraction of 0.
fn unit(negative: bool, place: u16) -> f32
    requires { place < 30 }
    ensures { HasValue result negative (2 ^ place) (2 ^ 24) }
{
    f32::from_bits(sign_bits(negative) + (place as u32 + 103) * 0x80_0000)
}
