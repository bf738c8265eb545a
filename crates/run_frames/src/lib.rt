// Reads framed cases from an input: a length in four bytes, the least significant first, then that many bytes. No contract can say what the input is; the contract
// says that a case is inside the lent room. Called by the programs that replay recorded answers.
#![tactic(auto)]

ghost use Rattle.std.specs.Prelude.{◌<◌, length};
ghost use Rattle.run_frames.specs.Inside.{Inside};

use std::io::Read;

// Reads the next case.
pub fn next(input: &mut impl Read, room: &mut [u8]) -> Option<usize>
    ensures { Inside result (length room.new) }
{
    let mut head = [0u8; 4];
    input.read_exact(&mut head).ok()?;
    let n = u32::from_le_bytes(head) as usize;
    input.read_exact(room.get_mut(..n)?).ok()?;
    Some(n)
}
