// The values of S, U and V elements (document 01, "String elements"): definitions in specs/, laws and round trips in proofs/, and here how many bytes of S are left.
// Called by string_element, which reads and writes elements.
#![tactic(auto)]

ghost use Rattle.std.specs.Prelude.{◌≡◌, length};
ghost use Rattle.string_value.specs.Elements.{trimmed};

// How many bytes are left when trailing zeros are dropped.
pub fn kept(run: &[u8]) -> usize
    ensures { result ≡ length (trimmed run.now) }
{
    for last in (0..run.len()).rev() {
        if run[last] != 0 {
            return last + 1;
        }
    }
    0
}
