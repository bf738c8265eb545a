// Prints a type string (document 01, "Header bytes out": "Type strings print without leading zeros, `O` without a size"). write_pieces and list_record print one inside a
// text, and the C interface prints one by itself.
#![tactic(auto)]

ghost use Rattle.emit.specs.Emits.{Emits};
ghost use Rattle.type_str.specs.Text.{type_text};
ghost use Rattle.type_print.specs.Printed.{Prints};

use counts::Bytes;
use refusal::Refusal;
use type_str::TypeStr;

// Puts the type string at `at` and returns the place after it. Any type has a text, also one that no type string gives.
pub fn put(t: TypeStr, out: &mut [u8], at: usize) -> usize
    ensures { Emits (type_text t) out.old at out.new result }
{
    let after_order = emit::put(out, at, t.order.to_byte());
    let after_letter = emit::put(out, after_order, t.letter.to_byte());
    if t.letter.is_object() {
        return t.units.put(out, after_letter);
    }
    let after_size = emit::put_count(out, after_letter, t.size);
    t.units.put(out, after_size)
}

// Puts the type string at the front of `out` and returns its length; or 27, 28.
pub fn print(t: TypeStr, out: &mut [u8]) -> Result<Bytes, Refusal>
    ensures { Prints t out.old result out.new }
{
    if !t.is_type() {
        return Err(Refusal::NoReading);
    }
    let mut scratch = [0u8; 1];
    let n = put(t, &mut scratch, 0);
    if out.len() < n {
        return Err(Refusal::OutputRoom);
    }
    put(t, out, 0);
    Ok(Bytes(n as u64))
}
