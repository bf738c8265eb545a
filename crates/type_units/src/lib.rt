// Units of type strings (document 01, "The record"): an enum, read from text and written as text; any other text is a syntax fault, 15.
// Called by type_read and type_print, and by table_entry for the units of a table's entry.
#![tactic(auto)]

ghost use Rattle.std.specs.Prelude.{◌≡◌, ◌++◌};
ghost use Rattle.emit.specs.Emits.{Emits};
ghost use Rattle.type_units.specs.Units.{unit_name, unit_text, is_absent, units_of};
ghost use Rattle.type_units.specs.Answer.{units_answer};

// None at all, and then Y M W D h m s ms us ns ps fs as: in this order, which numbers them from 0 in a table.
#[derive(Clone, Copy, PartialEq, Eq, Debug)]
pub enum TimeUnits {
    Absent,
    Year,
    Month,
    Week,
    Day,
    Hour,
    Minute,
    Second,
    Millisecond,
    Microsecond,
    Nanosecond,
    Picosecond,
    Femtosecond,
    Attosecond,
}

impl TimeUnits {
    pub fn is_absent(self) -> bool
        ensures { result ≡ is_absent self }
    {
        self == TimeUnits::Absent
    }

    // Writes the units in brackets, or nothing if absent, and returns the place after them.
    pub fn put(self, out: &mut [u8], at: usize) -> usize
        ensures { Emits (unit_text self) out.old at out.new result }
    {
        if self.is_absent() {
            return at;
        }
        let inside = emit::put(out, at, b'[');
        let after_name = self.put_name(out, inside);
        emit::put(out, after_name, b']')
    }

    // Writes the name of the units, nothing if absent, and returns the place after it.
    pub fn put_name(self, out: &mut [u8], at: usize) -> usize
        ensures { Emits (λ x. unit_name self ++ x) out.old at out.new result }
    {
        emit::put_bytes(out, at, self.name())
    }

    fn name(self) -> &'static [u8]
        ensures { result.now ≡ unit_name self }
    {
        match self {
            TimeUnits::Absent => b"",
            TimeUnits::Year => b"Y",
            TimeUnits::Month => b"M",
            TimeUnits::Week => b"W",
            TimeUnits::Day => b"D",
            TimeUnits::Hour => b"h",
            TimeUnits::Minute => b"m",
            TimeUnits::Second => b"s",
            TimeUnits::Millisecond => b"ms",
            TimeUnits::Microsecond => b"us",
            TimeUnits::Nanosecond => b"ns",
            TimeUnits::Picosecond => b"ps",
            TimeUnits::Femtosecond => b"fs",
            TimeUnits::Attosecond => b"as",
        }
    }
}

// The units in the rest of a type string, after its size: none, or one in brackets.
#[tactic(auto, unfolding(crate::specs::Units::units_of))]
pub fn from_text(text: &[u8]) -> Option<TimeUnits>
    ensures { units_answer result ≡ units_of text.now }
{
    match text {
        b"" => Some(TimeUnits::Absent),
        b"[Y]" => Some(TimeUnits::Year),
        b"[M]" => Some(TimeUnits::Month),
        b"[W]" => Some(TimeUnits::Week),
        b"[D]" => Some(TimeUnits::Day),
        b"[h]" => Some(TimeUnits::Hour),
        b"[m]" => Some(TimeUnits::Minute),
        b"[s]" => Some(TimeUnits::Second),
        b"[ms]" => Some(TimeUnits::Millisecond),
        b"[us]" => Some(TimeUnits::Microsecond),
        b"[ns]" => Some(TimeUnits::Nanosecond),
        b"[ps]" => Some(TimeUnits::Picosecond),
        b"[fs]" => Some(TimeUnits::Femtosecond),
        b"[as]" => Some(TimeUnits::Attosecond),
        _ => None,
    }
}
