// The numbers of the C interface: what a caller's number for an order, a version or a type names, and a caller's numbers for a feeder, and each answer as 0 and its values or as the refusal's number alone.
// Crate npy calls these.
#![tactic(auto)]

ghost use Rattle.std.specs.Prelude.{ℕ, List, ◌≡◌, [], ◌∷◌, ◌++◌, take};
ghost use Rattle.counts.specs.Outcome.{gives, each};
ghost use Rattle.refusal.specs.Answers.{answer};
ghost use Rattle.record.specs.Prefix.{version_of};
ghost use Rattle.header.specs.Reads as header;
ghost use Rattle.header_feed.specs.Feeds.{outcome, progress};
ghost use Rattle.value.specs.Values.{most_of};
ghost use Rattle.value.specs.Stored.{complement};
ghost use Rattle.npy_codes.specs.Codes.{Returns, order_number, order_for, type_for, type_values, text_values, header_values, summary_values, run_values};
ghost use Rattle.npy_codes.specs.Values.{four_numbers, value_numbers, value_values};
ghost use Rattle.npy_codes.specs.Given.{version_given};
ghost use Rattle.npy_codes.specs.Feeders.{ReturnsProgress, saying_numbers, feeder_numbers, head_for, taking_for, header_for, saying};
ghost use Rattle.refusal.specs.Numbers.{is_refusal};
ghost use Rattle.npy_codes.specs.FeederSays.{feeder_says};

use check_record::Summary;
use counts::{Bytes, Items, Points};
use dtype::{Entry, Order, PLAIN};
use header::{Header, RecordInfo};
use header_feed::{Fed, Feeder, HEAD};
use header_prefix::Version;
use place_area::Run;
use refusal::Refusal;
use type_str::TypeStr;
use value::Value;

// How many numbers a feeder has.
pub const FEEDER: usize = 20;

// Which of them is how many bytes were taken; before it are the bytes of the head.
const TAKEN: usize = 12;

// Which says what the feeder says: 0 for need more, so that zeros are the start; SAYS_HEADER; or the refusal's number. (Where a number is returned, 0 is a header, and MORE need more.)
const SAYS: usize = 13;

const SAYS_HEADER: u64 = 255;

// The six values of a header, which are after it, and how many these are with it.
const VERSION: usize = 14;

const ORDER: usize = 15;

const RANK: usize = 16;

const ENTRIES: usize = 17;

const NAMES: usize = 18;

const START: usize = 19;

const SAYING: usize = 7;

// Need more, where a number is returned.
pub const MORE: u8 = 255;

// The refusals' numbers: 1 to LAST_REFUSAL, and BUFFER.
const LAST_REFUSAL: u64 = 32;

const BUFFER: u64 = 36;

// What twenty numbers say, if they are a feeder's; a refusal by its number. (Four cases, and so neither an `Option` nor a `Result`.)
#[derive(Clone, Copy)]
pub enum FeederSays {
    More,
    Header(Header),
    Refused(u8),
    NoFeeder,
}

// The four numbers of a value.
#[derive(Clone, Copy)]
pub struct ValueNumbers {
    pub kind: u64,
    pub first: u64,
    pub second: u64,
    pub units: u64,
}

// The order that a number names: 0 is C, 1 is Fortran.
pub fn order_for(n: u64) -> Result<Order, Refusal>
    ensures { answer result ≡ order_for n }
{
    match n {
        0 => Ok(Order::C),
        1 => Ok(Order::Fortran),
        _ => Err(Refusal::NoReading),
    }
}

// The version whose major byte is this number.
pub fn version_for(n: u64) -> Result<Version, Refusal>
    ensures { version_given result ≡ version_of n 0 }
{
    match n {
        1 => Ok(Version::OneZero),
        2 => Ok(Version::TwoZero),
        3 => Ok(Version::ThreeZero),
        _ => Err(Refusal::OtherVersion),
    }
}

// The type whose four numbers these are, as an entry of the table has them. (It has a type_letters::Endianness, a type_letters::TypeChar and a type_units::TimeUnits.)
pub fn type_for(order: u64, letter: u64, size: u64, units: u64) -> Result<TypeStr, Refusal>
    ensures { answer result ≡ type_for order letter size units }
{
    let found = table_entry::type_of(Entry {
        parent: 0,
        kind: PLAIN,
        order,
        letter,
        number: size,
        units,
        extent: 0,
        bytes: 0,
        name: 0,
    });
    found.ok_or(Refusal::NoReading)
}

// What C gets of an answer: the numbers of its value.
pub trait Numbers<const N: usize>: Copy {
    ghost values: { Self → List ℕ };

    fn numbers(self) -> [u64; N]
        ensures { result ≡ values self };
}

// Writes the numbers of an answer to `said` and returns 0, or returns the refusal's number.
pub fn returned<const N: usize, A: Numbers<N>>(a: Result<A, Refusal>, said: &mut [u64; N]) -> u8
    ensures { Returns A.values (answer a) said.old result said.new }
{
    match a {
        Ok(value) => {
            *said = value.numbers();
            0
        }
        Err(why) => why.number(),
    }
}

// A number of items, or an item's number.
impl Numbers<1> for Items {
    ghost values = { λ n. n.0 ∷ [] };

    fn numbers(self) -> [u64; 1] {
        [self.0]
    }
}

impl Numbers<1> for Bytes {
    ghost values = { λ n. n.0 ∷ [] };

    fn numbers(self) -> [u64; 1] {
        [self.0]
    }
}

impl Numbers<1> for Points {
    ghost values = { λ n. n.0 ∷ [] };

    fn numbers(self) -> [u64; 1] {
        [self.0]
    }
}

// Byte order, letter, size and units.
impl Numbers<4> for TypeStr {
    ghost values = { type_values };

    fn numbers(self) -> [u64; 4] {
        let e = table_entry::plain_entry(self, 0, 0);
        [e.order, e.letter, e.number, e.units]
    }
}

// Order, rank, entries and name bytes of the record of a header's text.
impl Numbers<4> for RecordInfo {
    ghost values = { text_values };

    fn numbers(self) -> [u64; 4] {
        [
            order_number(self.order),
            self.rank as u64,
            self.entries as u64,
            self.names as u64,
        ]
    }
}

// A header's version, the numbers of its record, and where the data starts.
impl Numbers<6> for Header {
    ghost values = { λ h. header_values (header.header_is h) };

    fn numbers(self) -> [u64; 6] {
        [
            self.version.major() as u64,
            order_number(self.info.order),
            self.info.rank as u64,
            self.info.entries as u64,
            self.info.names as u64,
            self.start.0,
        ]
    }
}

// Rank, entries, 1 and the item size or 0 and 0, and the item count of a record that was checked.
impl Numbers<5> for Summary {
    ghost values = { summary_values };

    fn numbers(self) -> [u64; 5] {
        let rank = self.rank as u64;
        let entries = self.entries as u64;
        match self.size {
            Some(n) => [rank, entries, 1, n.0, self.count.0],
            None => [rank, entries, 0, 0, self.count.0],
        }
    }
}

// A place's first byte, how many bytes it has, and the numbers of its type.
impl Numbers<6> for Run {
    ghost values = { run_values };

    fn numbers(self) -> [u64; 6] {
        let Run { first, len, kind } = self;
        let e = table_entry::plain_entry(kind, 0, 0);
        [first.0, len.0, e.order, e.letter, e.number, e.units]
    }
}

// Kind, bits and units.
impl Numbers<4> for Value {
    ghost values = { value_values };

    fn numbers(self) -> [u64; 4] {
        let n = value_numbers(self);
        [n.kind, n.first, n.second, n.units]
    }
}

fn order_number(order: Order) -> u64
    ensures { result ≡ order_number order }
{
    order as u64
}

// The four numbers of a value: which kind it is, its bits (of a pair in two numbers), its units. (A float is a value_float::Single or a value_float::Double, units are a
// type_units::TimeUnits.)
fn value_numbers(v: Value) -> ValueNumbers
    ensures { result ≡ value_numbers v }
{
    match v {
        Value::Bool(b) => four_numbers(0, b as u64, 0, 0),
        Value::Signed(z) => four_numbers(1, twos_complement(z), 0, 0),
        Value::Unsigned(n) => four_numbers(2, n, 0, 0),
        Value::Single(x) => four_numbers(3, x.bits as u64, 0, 0),
        Value::Double(x) => four_numbers(4, x.bits, 0, 0),
        Value::SinglePair(x, y) => four_numbers(5, x.bits as u64, y.bits as u64, 0),
        Value::DoublePair(x, y) => four_numbers(6, x.bits, y.bits, 0),
        Value::Time(z, u) => four_numbers(7, twos_complement(z), 0, table_entry::units_number(u)),
    }
}

fn four_numbers(kind: u64, first: u64, second: u64, units: u64) -> ValueNumbers
    ensures { result ≡ four_numbers kind first second units }
{
    ValueNumbers {
        kind,
        first,
        second,
        units,
    }
}

// The two's complement of a number in 64 bits.
fn twos_complement(z: i64) -> u64
    ensures { result ≡ complement (most_of 8) z }
{
    z.cast_unsigned()
}

// What a feeder's numbers say.
pub fn feeder_says(numbers: [u64; FEEDER]) -> FeederSays
    ensures { feeder_says result ≡ saying numbers }
{
    match numbers[SAYS] {
        0 => FeederSays::More,
        SAYS_HEADER => header_said(numbers),
        n if is_refusal(n) => FeederSays::Refused(n as u8),
        _ => FeederSays::NoFeeder,
    }
}

// The header whose values are the last six numbers.
fn header_said(numbers: [u64; FEEDER]) -> FeederSays
    ensures { feeder_says result ≡ each (λ h. outcome (gives h)) (header_for numbers) }
{
    let Ok(version) = version_for(numbers[VERSION]) else {
        return FeederSays::NoFeeder;
    };
    let Ok(order) = order_for(numbers[ORDER]) else {
        return FeederSays::NoFeeder;
    };
    FeederSays::Header(Header {
        version,
        info: RecordInfo {
            order,
            rank: numbers[RANK] as usize,
            entries: numbers[ENTRIES] as usize,
            names: numbers[NAMES] as usize,
        },
        start: Bytes(numbers[START]),
    })
}

// Whether some refusal has this number.
fn is_refusal(n: u64) -> bool
    ensures { result ≡ is_refusal n }
{
    matches!(n, 1..=LAST_REFUSAL | BUFFER)
}

// The feeder that needs more, with the head and the count of these numbers.
pub fn feeder_at(numbers: [u64; FEEDER]) -> Feeder
    ensures { result ≡ taking_for numbers }
{
    Feeder {
        head: head_at(numbers),
        taken: numbers[TAKEN] as usize,
        said: Fed::More,
    }
}

// The bytes of the head: of each number the lowest.
fn head_at(numbers: [u64; FEEDER]) -> [u8; HEAD]
    ensures { result ≡ head_for numbers }
{
    let mut head = [0u8; HEAD];
    for i in 0..HEAD {
        head[i] = (numbers[i] % 256) as u8;
    }
    head
}

// The numbers of a feeder.
pub fn feeder_numbers(f: Feeder) -> [u64; FEEDER]
    ensures { result ≡ feeder_numbers f }
{
    with_saying(with_head(f.head, f.taken), f.said)
}

// Numbers that begin with a head and a count.
fn with_head(head: [u8; HEAD], taken: usize) -> [u64; FEEDER]
    ensures { take 13 result ≡ head ++ taken ∷ [] }
{
    let mut numbers = [0u64; FEEDER];
    for i in 0..HEAD {
        numbers[i] = head[i] as u64;
    }
    numbers[TAKEN] = taken as u64;
    numbers
}

// The same head and count, and what a feeder says.
pub fn with_saying(numbers: [u64; FEEDER], said: Fed) -> [u64; FEEDER]
    ensures { result ≡ take 13 numbers ++ saying_numbers (progress said) }
{
    let says = saying_numbers(said);
    let mut all = numbers;
    for i in 0..SAYING {
        all[SAYS + i] = says[i];
    }
    all
}

// What is said, and the values of a header or zeros.
fn saying_numbers(said: Fed) -> [u64; SAYING]
    ensures { result ≡ saying_numbers (progress said) }
{
    match said {
        Fed::More => [0, 0, 0, 0, 0, 0, 0],
        Fed::Read(h) => {
            let [version, order, rank, entries, names, start]: [u64; 6] = h.numbers();
            [SAYS_HEADER, version, order, rank, entries, names, start]
        }
        Fed::Refused(why) => [why.number() as u64, 0, 0, 0, 0, 0, 0],
    }
}

// Returns MORE; or writes the values of a header to `values` and returns 0; or returns the refusal's number.
pub fn return_fed(said: Fed, values: &mut [u64; 6]) -> u8
    ensures { ReturnsProgress (progress said) values.old result values.new }
{
    match said {
        Fed::More => MORE,
        Fed::Read(h) => {
            *values = h.numbers();
            0
        }
        Fed::Refused(why) => why.number(),
    }
}
