// Byte orders and letters of type strings (document 01, "The record"): each is an enum, read from a byte and written as one; any other byte is a syntax fault, 15.
// Called wherever a type string is read, checked or printed, and for the byte order of numbers.
#![tactic(auto)]

ghost use Rattle.std.specs.Prelude.{◌≡◌};
ghost use Rattle.type_letters.specs.Letters.{order_byte, order_of, letter_byte, letter_of, is_object, is_unicode};
ghost use Rattle.type_letters.specs.Answer.{order_answer, letter_answer};

// `<`, `>` or `|`, in this order.
#[derive(Clone, Copy, PartialEq, Eq, Debug)]
pub enum Endianness {
    Little = b'<' as isize,
    Big = b'>' as isize,
    Irrelevant = b'|' as isize,
}

impl Endianness {
    #[tactic(auto, unfolding(crate::specs::Letters::order_of))]
    pub fn from_byte(b: u8) -> Option<Endianness>
        ensures { order_answer result ≡ order_of b }
    {
        match b {
            b'<' => Some(Endianness::Little),
            b'>' => Some(Endianness::Big),
            b'|' => Some(Endianness::Irrelevant),
            _ => None,
        }
    }

    pub fn to_byte(self) -> u8
        ensures { result ≡ order_byte self }
    {
        self as u8
    }
}

// b i u f c m M S U O V, in this order.
#[derive(Clone, Copy, PartialEq, Eq, Debug)]
pub enum TypeChar {
    Bool = b'b' as isize,
    Int = b'i' as isize,
    Uint = b'u' as isize,
    Float = b'f' as isize,
    Complex = b'c' as isize,
    TimeDelta = b'm' as isize,
    DateTime = b'M' as isize,
    ByteStr = b'S' as isize,
    UnicodeStr = b'U' as isize,
    Object = b'O' as isize,
    RawData = b'V' as isize,
}

impl TypeChar {
    #[tactic(auto, unfolding(crate::specs::Letters::letter_of))]
    pub fn from_byte(b: u8) -> Option<TypeChar>
        ensures { letter_answer result ≡ letter_of b }
    {
        match b {
            b'b' => Some(TypeChar::Bool),
            b'i' => Some(TypeChar::Int),
            b'u' => Some(TypeChar::Uint),
            b'f' => Some(TypeChar::Float),
            b'c' => Some(TypeChar::Complex),
            b'm' => Some(TypeChar::TimeDelta),
            b'M' => Some(TypeChar::DateTime),
            b'S' => Some(TypeChar::ByteStr),
            b'U' => Some(TypeChar::UnicodeStr),
            b'O' => Some(TypeChar::Object),
            b'V' => Some(TypeChar::RawData),
            _ => None,
        }
    }

    pub fn to_byte(self) -> u8
        ensures { result ≡ letter_byte self }
    {
        self as u8
    }

    pub fn is_object(self) -> bool
        ensures { result ≡ is_object self }
    {
        self == TypeChar::Object
    }

    pub fn is_unicode(self) -> bool
        ensures { result ≡ is_unicode self }
    {
        self == TypeChar::UnicodeStr
    }
}
