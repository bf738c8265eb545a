// Which of the three keys of a header's dict a key is (8 where it is no string), and the order that the value of `fortran_order` declares (10) (document 01, "The record").
// Called by judge.
#![tactic(auto)]

ghost use Rattle.std.specs.Prelude.{◌≡◌, ◌&&◌};
ghost use Rattle.counts.specs.Outcome.{gives, given};
ghost use Rattle.literal_escapes.specs.Strings.{spelled};
ghost use Rattle.literal_bytes.specs.Text.{byte_at, kind_of};
ghost use Rattle.judge_names.specs.Answer.{key_of, NameIs, WordAt, word_of};

use dtype::Order;
use literal_bytes::{ValueKind, kind_at};
use literal_decode::decode;
use refusal::Refusal;

// What a key is: one of the three, another string, or no string.
#[derive(Clone, Copy)]
pub enum Name {
    Descr,
    Order,
    Shape,
    Extra,
    NoString,
}

// The name of a key that is a string of these bytes.
pub fn key_of(name: &[u8]) -> Name
    ensures { NameIs result (gives name.now) }
{
    if name == b"descr".as_slice() {
        return Name::Descr;
    }
    if name == b"fortran_order".as_slice() {
        return Name::Order;
    }
    if name == b"shape".as_slice() {
        return Name::Shape;
    }
    Name::Extra
}

// The length of `fortran_order`, the longest of the three.
const LONGEST: usize = 13;

// The name of a key with an escape, compared decoded. A string that is longer than the three is none of them.
pub fn name_at(text: &[u8], from: usize, quote: u8) -> Name
    ensures { NameIs result (gives (spelled quote text.now from).bytes) }
{
    let mut name = [0u8; LONGEST];
    let s = decode(text, from, quote, &mut name);
    if LONGEST < s.len {
        return Name::Extra;
    }
    key_of(&name[..s.len])
}

// Whether the keys up to one of this name are all strings, where `strings` is whether those before it are.
pub fn all_strings(strings: bool, name: Name) -> bool
    ensures { result ≡ strings && given (key_of name) }
{
    strings & !matches!(name, Name::NoString)
}

// The order that the value at `at` declares, by its first byte; or 10.
pub fn word_at(text: &[u8], at: usize) -> Result<Order, Refusal>
    ensures word_at { WordAt text.now at result }
    ensures value { result ≡ word_of (kind_of (byte_at text.now at)) }
{
    match kind_at(text, at) {
        ValueKind::TrueWord => Ok(Order::Fortran),
        ValueKind::FalseWord => Ok(Order::C),
        ValueKind::Square
        | ValueKind::Round
        | ValueKind::Curly
        | ValueKind::Quote
        | ValueKind::Minus
        | ValueKind::Digit
        | ValueKind::NoneWord
        | ValueKind::Other => Err(Refusal::NotBoolean),
    }
}
