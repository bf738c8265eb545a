// The value of an element, from its bytes and its type (document 02, wish 1): a bool, an integer, a float or a pair of them with their exact bits, or a time count with its unit;
// or 27 for a type that no reading gives, 31 for one without values, 27 for bytes that are not as many as the type's, 32 for a bool byte above 1. Called by element,
// element_text and the C interface.
#![tactic(auto)]

ghost use Rattle.refusal.specs.Answers.{answer};
ghost use Rattle.std.specs.Prelude.{◌≡◌, ◌≤◌, length};
ghost use Rattle.number_bytes.specs.Numbers.{in_order};
ghost use Rattle.counts.specs.Outcome.{gives};
ghost use Rattle.value_float.specs.Floats.{single_of, double_of};
ghost use Rattle.value_float.specs.Half.{half_of};
ghost use Rattle.value.specs.Values.{form_of, has_no_value, most_of, signed_by, signed_in, bool_in, single_pair, double_pair, value_by, read_value};
ghost use Rattle.value.specs.Sizes.{IntegerSize, Sized};

use refusal::Refusal;
use type_letters::{Endianness, TypeChar};
use type_str::TypeStr;
use type_units::TimeUnits;
use value_float::{Double, Single};

// The value of an element.
#[derive(Clone, Copy)]
pub enum Value {
    Bool(bool),
    Signed(i64),
    Unsigned(u64),
    Single(Single),
    Double(Double),
    SinglePair(Single, Single),
    DoublePair(Double, Double),
    Time(i64, TimeUnits),
}

// How the bytes of a type are read.
#[derive(Clone, Copy)]
pub enum Form {
    Bool,
    Signed,
    Unsigned,
    Half,
    Single,
    Double,
    SinglePair,
    DoublePair,
    Time,
    NoValue,
}

// The value in a run of bytes, by its type. The run has to be as long as the type.
pub fn read(run: &[u8], t: TypeStr) -> Result<Value, Refusal>
    ensures { answer result ≡ read_value t run.now }
{
    if !t.is_type() {
        return Err(Refusal::NoReading);
    }
    let form = form_of(t.letter, t.size);
    if has_no_value(form) {
        return Err(Refusal::NoValue);
    }
    if run.len() as u64 != t.size {
        return Err(Refusal::NoReading);
    }
    value_by(form, run, t.order, t.units)
}

// How the bytes of a letter and a size are read.
#[tactic(auto, unfolding(crate::specs::Values::form_of))]
fn form_of(letter: TypeChar, size: u64) -> Form
    ensures { result ≡ form_of letter size }
{
    match letter {
        TypeChar::Bool => Form::Bool,
        TypeChar::Int => Form::Signed,
        TypeChar::Uint => Form::Unsigned,
        TypeChar::Float => match size {
            2 => Form::Half,
            4 => Form::Single,
            8 => Form::Double,
            _ => Form::NoValue,
        },
        TypeChar::Complex => match size {
            8 => Form::SinglePair,
            16 => Form::DoublePair,
            _ => Form::NoValue,
        },
        TypeChar::TimeDelta | TypeChar::DateTime => Form::Time,
        TypeChar::ByteStr | TypeChar::UnicodeStr | TypeChar::Object | TypeChar::RawData =>
            Form::NoValue,
    }
}

fn has_no_value(form: Form) -> bool
    ensures { result ≡ has_no_value form }
{
    matches!(form, Form::NoValue)
}

// The value in a run that is as long as its type.
fn value_by(form: Form, run: &[u8], order: Endianness, units: TimeUnits) -> Result<Value, Refusal>
    requires { Sized form (length run.now) }
    ensures { answer result ≡ value_by form order units run.now }
{
    match form {
        Form::Bool => bool_in(run, order),
        Form::Signed => Ok(Value::Signed(signed_in(run, order))),
        Form::Unsigned => Ok(Value::Unsigned(number_in(run, order))),
        Form::Half => Ok(Value::Single(half_in(run, order))),
        Form::Single => Ok(Value::Single(single_in(run, order))),
        Form::Double => Ok(Value::Double(double_in(run, order))),
        Form::SinglePair => single_pair_in(run, order),
        Form::DoublePair => double_pair_in(run, order),
        Form::Time => Ok(Value::Time(signed_in(run, order), units)),
        Form::NoValue => Err(Refusal::NoValue),
    }
}

// The number in a run of at most eight bytes: it is below 2^64.
fn number_in(run: &[u8], order: Endianness) -> u64
    requires { length run.now ≤ 8 }
    ensures { result ≡ in_order order run.now }
{
    number_bytes::read(run, order).unwrap()
}

fn bool_in(run: &[u8], order: Endianness) -> Result<Value, Refusal>
    requires { length run.now ≤ 8 }
    ensures { answer result ≡ bool_in order run.now }
{
    let n = number_in(run, order);
    if 1 < n {
        return Err(Refusal::BoolByte);
    }
    Ok(Value::Bool(n == 1))
}

// The number in a run of two's complement.
fn signed_in(run: &[u8], order: Endianness) -> i64
    requires { IntegerSize (length run.now) }
    ensures { result ≡ signed_in order run.now }
{
    signed(number_in(run, order), most_of(run.len()))
}

// The largest number of so many bytes.
fn most_of(width: usize) -> u64
    requires { IntegerSize width }
    ensures { result ≡ most_of width }
{
    match width {
        1 => 0xFF,
        2 => 0xFFFF,
        4 => 0xFFFF_FFFF,
        _ => 0xFFFF_FFFF_FFFF_FFFF,
    }
}

// The number whose two's complement is n, where `most` is the largest number of its width.
// One rule for the four widths: by `cast_signed` each of them would be an arm with two casts of its own.
fn signed(n: u64, most: u64) -> i64
    requires { n ≤ most }
    ensures { result ≡ signed_by most n }
{
    if n <= most / 2 {
        n as i64
    } else {
        -1 - ((most - n) as i64)
    }
}

// Three short functions and no generic one: a float of each width is another type, made by another function.
fn half_in(run: &[u8], order: Endianness) -> Single
    requires { length run.now ≡ 2 }
    ensures { result ≡ half_of (in_order order run.now) }
{
    value_float::from_half(number_in(run, order) as u16)
}

fn single_in(run: &[u8], order: Endianness) -> Single
    requires { length run.now ≡ 4 }
    ensures { result ≡ single_of (in_order order run.now) }
{
    value_float::single_of(number_in(run, order) as u32)
}

fn double_in(run: &[u8], order: Endianness) -> Double
    requires { length run.now ≡ 8 }
    ensures { result ≡ double_of (in_order order run.now) }
{
    value_float::double_of(number_in(run, order))
}

// A pair, the real part first. (Two functions, as the pairs are two types with two widths.)
fn single_pair_in(run: &[u8], order: Endianness) -> Result<Value, Refusal>
    requires { length run.now ≡ 8 }
    ensures { answer result ≡ gives (single_pair order run.now) }
{
    Ok(Value::SinglePair(single_in(&run[..4], order), single_in(&run[4..], order)))
}

fn double_pair_in(run: &[u8], order: Endianness) -> Result<Value, Refusal>
    requires { length run.now ≡ 16 }
    ensures { answer result ≡ gives (double_pair order run.now) }
{
    Ok(Value::DoublePair(double_in(&run[..8], order), double_in(&run[8..], order)))
}
