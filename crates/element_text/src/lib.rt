// The text of an element, a line that says what kind of value it has and the value (specs/Text.antt); or the refusal of its bytes, or 28 where the line has no room.
// Called by npy_get.
#![tactic(auto)]

ghost use Rattle.std.specs.Prelude.{◌≡◌, true, cond, ◌&&◌, ◌||◌, eqb, leb, ◌∷◌, ◌++◌, ◌≤◌, ◌<◌, length, take, ◌*◌, ◌^◌};
ghost use Rattle.utf8_scalar.specs.Scalar.{is_scalar};
ghost use Rattle.value.specs.declared.Value.{Value};
ghost use Rattle.counts.specs.Outcome.{each};
ghost use Rattle.emit.specs.Emits.{Emits};
ghost use Rattle.string_value.specs.Elements.{trimmed, points, found};
ghost use Rattle.value.specs.Values.{read_value};
ghost use Rattle.element_text.specs.Hexadecimal.{hex_digit, hex_digits};
ghost use Rattle.element_text.specs.Floats.{float_parts, exponent_text, shown_exponent, finite_text, special_text, unsigned_text, parts_text};
ghost use Rattle.element_text.specs.Text.{truth_text, signed_text, value_text, all_text, byte_text, point_text, bytes_text, points_text, raw_text, lined, line_in};
ghost use Rattle.element_text.specs.Puts.{PutsElement, PutsOrRefuses};

use counts::{Bytes, Points};
use refusal::Refusal;
use type_letters::{Endianness, TypeChar};
use type_str::TypeStr;
use type_units::TimeUnits;
use value::Value;

// The parts of a float that its text is made of (`float_parts`).
#[derive(Clone, Copy)]
pub struct Parts {
    pub negative: bool,
    pub special: bool,
    pub exponent: u64,
    pub fraction: u64,
    pub filled: u64,
    pub digits: u64,
    pub bias: u64,
}

// A format of floats: how many fractions and how many exponents it has, the exponent of 1, how many hexadecimal digits the fraction is printed with, and the factor that fills them.
#[derive(Clone, Copy)]
struct Format {
    fractions: u64,
    exponents: u64,
    bias: u64,
    digits: u64,
    filling: u64,
}

const SINGLE: Format = Format {
    fractions: 0x80_0000,
    exponents: 0x100,
    bias: 127,
    digits: 6,
    filling: 2,
};

const DOUBLE: Format = Format {
    fractions: 0x10_0000_0000_0000,
    exponents: 0x800,
    bias: 1023,
    digits: 13,
    filling: 1,
};

// The first code point that is printed in UTF-8: those before it are ASCII and the control characters after it.
const FIRST_PRINTED: u32 = 0xA0;

// Writes the line of the element in these bytes to the front of `out`, and returns its length; or the element's refusal, then 28. The line is measured on a scratch byte
// first, so that a refusal leaves `out` as it was.
pub fn put(run: &[u8], t: TypeStr, out: &mut [u8]) -> Result<Bytes, Refusal>
    ensures { PutsElement t run.now out.old result out.new }
{
    let mut scratch = [0u8; 1];
    let n = put_line(run, t, &mut scratch)?;
    if (out.len() as u64) < n.0 {
        return Err(Refusal::OutputRoom);
    }
    let _ = put_line(run, t, out);
    Ok(n)
}

// Puts the line as far as there is room, and returns its length; or the element's refusal.
fn put_line(run: &[u8], t: TypeStr, out: &mut [u8]) -> Result<Bytes, Refusal>
    ensures { PutsOrRefuses (line_in t run.now) out.old result out.new }
{
    if !t.is_type() {
        return Err(Refusal::NoReading);
    }
    match t.letter {
        TypeChar::UnicodeStr => put_points_line(run, t.order, out),
        TypeChar::ByteStr => {
            let value = &run[..string_value::kept(run)];
            Ok(Bytes(put_bytes_line(out, value) as u64))
        }
        TypeChar::RawData => Ok(Bytes(put_raw_line(out, run) as u64)),
        _ => put_value_line(run, t, out),
    }
}

// Puts the line of a value, or its refusal.
fn put_value_line(run: &[u8], t: TypeStr, out: &mut [u8]) -> Result<Bytes, Refusal>
    ensures { PutsOrRefuses (each (λ v. lined (value_text v)) (read_value t run.now)) out.old result out.new }
{
    let v = value::read(run, t)?;
    let end = put_value(out, v);
    Ok(Bytes(emit::put(out, end, b'\n') as u64))
}

// Puts the text of a value at the front.
fn put_value(out: &mut [u8], v: Value) -> usize
    ensures { Emits (value_text v) out.old 0 out.new result }
{
    match v {
        Value::Bool(b) => put_truth(out, b),
        Value::Signed(n) => {
            let p = emit::put_bytes(out, 0, b"signed ");
            put_signed(out, p, n)
        }
        Value::Unsigned(n) => {
            let p = emit::put_bytes(out, 0, b"unsigned ");
            emit::put_count(out, p, n)
        }
        Value::Single(f) => put_float_after(out, b"single ", float_parts(SINGLE, f.bits as u64)),
        Value::Double(f) => put_float_after(out, b"double ", float_parts(DOUBLE, f.bits)),
        Value::SinglePair(f, g) => put_pair_after(
            out,
            b"single-pair ",
            float_parts(SINGLE, f.bits as u64),
            float_parts(SINGLE, g.bits as u64),
        ),
        Value::DoublePair(f, g) => put_pair_after(
            out,
            b"double-pair ",
            float_parts(DOUBLE, f.bits),
            float_parts(DOUBLE, g.bits),
        ),
        Value::Time(n, units) => put_time(out, n, units),
    }
}

fn put_truth(out: &mut [u8], b: bool) -> usize
    ensures { Emits (λ x. 98 ∷ 111 ∷ 111 ∷ 108 ∷ 32 ∷ truth_text b x) out.old 0 out.new result }
{
    if b {
        return emit::put_bytes(out, 0, b"bool True");
    }
    emit::put_bytes(out, 0, b"bool False")
}

// Puts a number with its sign.
fn put_signed(out: &mut [u8], at: usize, n: i64) -> usize
    ensures { Emits (signed_text n) out.old at out.new result }
{
    if n < 0 {
        let p = emit::put(out, at, b'-');
        return emit::put_count(out, p, (-1 - n) as u64 + 1);
    }
    emit::put_count(out, at, n as u64)
}

fn put_time(out: &mut [u8], n: i64, units: TimeUnits) -> usize
    ensures { Emits (value_text (Value.Time n units)) out.old 0 out.new result }
{
    let before_count = emit::put_bytes(out, 0, b"time ");
    let after_count = put_signed(out, before_count, n);
    let before_units = emit::put(out, after_count, b' ');
    units.put_name(out, before_units)
}

// Puts a float after a word.
fn put_float_after(out: &mut [u8], word: &[u8], p: Parts) -> usize
    ensures { Emits (λ x. word.now ++ parts_text p x) out.old 0 out.new result }
{
    let at = emit::put_bytes(out, 0, word);
    put_float(out, at, p)
}

// Puts two floats after a word, the real part first.
fn put_pair_after(out: &mut [u8], word: &[u8], real: Parts, imaginary: Parts) -> usize
    ensures { Emits (λ x. word.now ++ parts_text real (32 ∷ parts_text imaginary x)) out.old 0 out.new result }
{
    let after_real = put_float_after(out, word, real);
    let between = emit::put(out, after_real, b' ');
    put_float(out, between, imaginary)
}

// The parts of a float's bits; the last of the exponents is that of infinities and NaNs.
fn float_parts(f: Format, bits: u64) -> Parts
    requires fractions { 0 < f.fractions }
    requires exponents { 0 < f.exponents }
    requires sign { f.fractions * f.exponents < 2 ^ 64 }
    requires filled { f.fractions * f.filling < 2 ^ 64 }
    ensures { result ≡ float_parts (record { fractions = f.fractions; exponents = f.exponents; bias = f.bias; digits = f.digits; filling = f.filling }) bits }
{
    let exponent = bits / f.fractions % f.exponents;
    let fraction = bits % f.fractions;
    Parts {
        negative: f.fractions * f.exponents <= bits,
        special: exponent == f.exponents - 1,
        exponent,
        fraction,
        filled: fraction * f.filling,
        digits: f.digits,
        bias: f.bias,
    }
}

// Puts a float with its sign.
fn put_float(out: &mut [u8], at: usize, p: Parts) -> usize
    ensures { Emits (parts_text p) out.old at out.new result }
{
    if p.negative {
        let after_sign = emit::put(out, at, b'-');
        return put_unsigned(out, after_sign, p);
    }
    put_unsigned(out, at, p)
}

fn put_unsigned(out: &mut [u8], at: usize, p: Parts) -> usize
    ensures { Emits (unsigned_text p) out.old at out.new result }
{
    if p.special {
        return put_special(out, at, p);
    }
    put_finite(out, at, p)
}

// Puts an infinity or a NaN.
fn put_special(out: &mut [u8], at: usize, p: Parts) -> usize
    ensures { Emits (special_text p) out.old at out.new result }
{
    if p.fraction == 0 {
        return emit::put_bytes(out, at, b"inf");
    }
    let inside = emit::put_bytes(out, at, b"nan(0x");
    let after_fraction = put_hex(out, inside, p.digits, p.fraction);
    emit::put(out, after_fraction, b')')
}

// Puts a number.
fn put_finite(out: &mut [u8], at: usize, p: Parts) -> usize
    ensures { Emits (finite_text p) out.old at out.new result }
{
    let after_prefix = emit::put_bytes(out, at, b"0x");
    let after_lead = emit::put(out, after_prefix, lead_digit(p.exponent));
    let after_point = emit::put(out, after_lead, b'.');
    let after_digits = put_hex(out, after_point, p.digits, p.filled);
    let after_p = emit::put(out, after_digits, b'p');
    put_exponent(out, after_p, p.bias, shown_exponent(p))
}

// The digit before the point: the smallest floats have no leading 1.
fn lead_digit(exponent: u64) -> u8
    ensures { result ≡ cond (eqb exponent 0) 48 49 }
{
    if exponent == 0 { b'0' } else { b'1' }
}

// The exponent that a number is printed with.
fn shown_exponent(p: Parts) -> u64
    ensures { result ≡ shown_exponent p }
{
    if p.exponent != 0 {
        return p.exponent;
    }
    if p.fraction == 0 { p.bias } else { 1 }
}

// Puts an exponent, counted from the bias.
fn put_exponent(out: &mut [u8], at: usize, bias: u64, exponent: u64) -> usize
    ensures { Emits (exponent_text bias exponent) out.old at out.new result }
{
    if bias <= exponent {
        let after_plus = emit::put(out, at, b'+');
        return emit::put_count(out, after_plus, exponent - bias);
    }
    let after_minus = emit::put(out, at, b'-');
    emit::put_count(out, after_minus, bias - exponent)
}

// Puts the last `digits` hexadecimal digits of n.
fn put_hex(out: &mut [u8], at: usize, digits: u64, n: u64) -> usize
    ensures { Emits (hex_digits digits n) out.old at out.new result }
{
    if digits == 0 {
        return at;
    }
    let p = put_hex(out, at, digits - 1, n / 16);
    emit::put(out, p, hex_digit((n % 16) as u8))
}

fn hex_digit(d: u8) -> u8
    requires { d < 16 }
    ensures { result ≡ hex_digit d }
{
    if d < 10 { b'0' + d } else { b'a' - 10 + d }
}

// Puts the line of the bytes of an S element.
fn put_bytes_line(out: &mut [u8], value: &[u8]) -> usize
    ensures { Emits (lined (bytes_text value.now)) out.old 0 out.new result }
{
    let inside = emit::put_bytes(out, 0, b"bytes '");
    let after_last = put_each_byte(out, inside, value);
    emit::put_bytes(out, after_last, b"'\n")
}

// `put_each_hex` differs in the function alone; one loop of both would take it as a parameter, with clauses for the room that it changes, and be longer than the two.
fn put_each_byte(out: &mut [u8], at: usize, value: &[u8]) -> usize
    ensures { Emits (all_text byte_text value.now) out.old at out.new result }
{
    let mut p = at;
    for b in value {
        p = put_byte(out, p, *b);
    }
    p
}

// Puts a byte as it is between quotes.
fn put_byte(out: &mut [u8], at: usize, b: u8) -> usize
    ensures { Emits (byte_text b) out.old at out.new result }
{
    if is_quoted(b) {
        let after_backslash = emit::put(out, at, b'\\');
        return emit::put(out, after_backslash, b);
    }
    if is_printed(b) {
        return emit::put(out, at, b);
    }
    let inside = emit::put_bytes(out, at, b"\\x");
    put_hex(out, inside, 2, b as u64)
}

// Whether a byte gets a backslash before it.
fn is_quoted(b: u8) -> bool
    ensures { result ≡ (eqb b 92 || eqb b 39) }
{
    b == b'\\' || b == b'\''
}

// Whether a byte is printed as it is.
fn is_printed(b: u8) -> bool
    ensures { result ≡ (leb 0x20 b && leb b 0x7E) }
{
    0x20 <= b && b <= 0x7E
}

// Puts the line of the bytes of a V element.
fn put_raw_line(out: &mut [u8], value: &[u8]) -> usize
    ensures { Emits (lined (raw_text value.now)) out.old 0 out.new result }
{
    if value.is_empty() {
        return emit::put_bytes(out, 0, b"raw\n");
    }
    let inside = emit::put_bytes(out, 0, b"raw ");
    let after_last = put_each_hex(out, inside, value);
    emit::put(out, after_last, b'\n')
}

fn put_each_hex(out: &mut [u8], at: usize, value: &[u8]) -> usize
    ensures { Emits (all_text (hex_digits 2) value.now) out.old at out.new result }
{
    let mut p = at;
    for b in value {
        p = put_hex(out, p, 2, *b as u64);
    }
    p
}

// Puts the line of a U element, or 29 where four bytes are no scalar value.
fn put_points_line(run: &[u8], order: Endianness, out: &mut [u8]) -> Result<Bytes, Refusal>
    ensures { PutsOrRefuses (each (λ cs. lined (points_text cs)) (each trimmed (points order run.now))) out.old result out.new }
{
    let n = string_element::judge(run, order)?;
    let inside = emit::put_bytes(out, 0, b"text '");
    let after_last = put_each_point(out, inside, run, order, n);
    Ok(Bytes(emit::put_bytes(out, after_last, b"'\n") as u64))
}

// Puts the first n code points of a run that was judged; none of them is refused.
fn put_each_point(out: &mut [u8], at: usize, run: &[u8], order: Endianness, n: Points) -> usize
    requires { n.0 ≤ length (found (points order run.now)) }
    ensures { Emits (all_text point_text (take n.0 (found (points order run.now)))) out.old at out.new result }
{
    let mut p = at;
    for i in 0..n.0 as usize {
        let Some(c) = string_element::point_at(run, order, 4 * i) else {
            // not reached: the run was judged
            return p;
        };
        p = put_point(out, p, c);
    }
    p
}

// Puts a code point as it is between quotes.
fn put_point(out: &mut [u8], at: usize, c: u32) -> usize
    requires { is_scalar c ≡ true }
    ensures { Emits (point_text c) out.old at out.new result }
{
    if c < FIRST_PRINTED {
        return put_byte(out, at, c as u8);
    }
    let mut four = [0u8; 4];
    let Ok(n) = utf8_scalar::encode(c, &mut four) else {
        // not reached: the code point is a scalar value, and four bytes are enough for any
        return at;
    };
    emit::put_bytes(out, at, &four[..n.0 as usize])
}
