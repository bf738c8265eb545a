// Unicode scalar values (document 01, "String elements"): decides which numbers are one, and writes the UTF-8 encoding of one.
// Called by utf8 for decoding and by string_element for the code points of `U` elements.
#![tactic(auto)]

ghost use Rattle.std.specs.Prelude.{◌≡◌, ◌≤◌, ◌++◌, length, drop};
ghost use Rattle.utf8_scalar.specs.Scalar.{is_scalar};
ghost use Rattle.utf8_scalar.specs.Answer.{Encodes};

use counts::Bytes;
use refusal::Refusal;

pub fn is_scalar(value: u32) -> bool
    ensures { result ≡ is_scalar value }
{
    char::from_u32(value).is_some()
}

// Writes the encoding of `value` to the front of the room, and returns its length; or 29, 28.
pub fn encode(value: u32, room: &mut [u8]) -> Result<Bytes, Refusal>
    ensures { Encodes value room.old result room.new }
{
    let c = char::from_u32(value).ok_or(Refusal::Scalar)?;
    let mut bytes = [0; 4];
    let encoded = c.encode_utf8(&mut bytes).as_bytes();
    if room.len() < encoded.len() {
        return Err(Refusal::OutputRoom);
    }
    put(encoded, room);
    Ok(Bytes(encoded.len() as u64))
}

// Stores up to four bytes at the front of the room, one by one: for a copy of a length that is not known the compiler makes a call.
fn put(bytes: &[u8], room: &mut [u8])
    requires { (length bytes.now ≤ 4) × (length bytes.now ≤ length room.now) }
    ensures { room.new ≡ bytes.now ++ drop (length bytes.now) room.old }
{
    match bytes {
        [] => {}
        [a] => room[0] = *a,
        [a, b] => {
            room[0] = *a;
            room[1] = *b;
        }
        [a, b, c] => {
            room[0] = *a;
            room[1] = *b;
            room[2] = *c;
        }
        [a, b, c, d, ..] => {
            room[0] = *a;
            room[1] = *b;
            room[2] = *c;
            room[3] = *d;
        }
    }
}
