// The class of each byte of a literal's text, by a table (document 02, "Wish 8": "a 256-entry table giving each byte's class: blank, digit, word letter, quote, bracket, sign,
// comma, colon, backslash, other"). Called by literal_bytes for the first byte of a value, and by literal_escapes for the pieces of a string.
#![tactic(auto)]

ghost use Rattle.std.specs.Prelude.{◌≡◌};
ghost use Rattle.literal_classes.specs.Classes.{class_of};
ghost use Rattle.literal_classes.specs.Table.{row_of};

// The classes, in the order of the request. They are constants and no enum: a class is read as a digit of the table, and the proof compares the table with the numbers at every byte.
pub const BLANK: u8 = 0;

pub const DIGIT: u8 = 1;

pub const WORD_LETTER: u8 = 2;

pub const QUOTE: u8 = 3;

pub const BRACKET: u8 = 4;

pub const SIGN: u8 = 5;

pub const COMMA: u8 = 6;

pub const COLON: u8 = 7;

pub const BACKSLASH: u8 = 8;

pub const OTHER: u8 = 9;

// A row of the table: the classes of sixteen bytes, from left to right, one hexadecimal digit each; all sixteen are of the class `OTHER` in a row with no arm of its own. An array of 256 constants would be stored on the stack at every look.
fn row(r: u8) -> u64
    ensures { result ≡ row_of r }
{
    match r {
        0 => 0x9999_9999_9009_9099,
        2 => 0x0939_9993_4499_6599,
        3 => 0x1111_1111_1179_9999,
        4 => 0x9222_2222_2222_2222,
        5 => 0x2222_2222_2224_8492,
        6 => 0x9222_2222_2222_2222,
        7 => 0x2222_2222_2224_9499,
        _ => 0x9999_9999_9999_9999,
    }
}

// The class of a byte.
pub fn class_of(b: u8) -> u8
    ensures { result ≡ class_of b }
{
    let place = (15 - b % 16) * 4;
    ((row(b / 16) >> (place as u64)) % 16) as u8
}
