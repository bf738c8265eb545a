// Lists the record of the NPY file on standard input (document 01, "What the collector buys"). The program reads, calls and writes; what is printed is list_file's.
#![tactic(auto)]

ghost use Rattle.std.specs.Prelude.{◌≤◌, length, IfOk};

use std::io;
use std::io::Read;

// One byte more than is held shows whether the file is longer: the first `HELD + 1` bytes give the text of the whole file (`front_reports` in list_file/proofs/Enough.antt).
// The room is enough for every text (`report_fits`), so 28 is never printed.
fn main(rt: HostRuntime) -> io::Result<()> {
    let mut file = [0u8; list_file::HELD + 1];
    let n = read_full(&mut rt.stdin(), &mut file)?;
    let mut out = [0u8; list_file::ROOM];
    let length = list_file::report_whole(&file[..n], &mut out);
    rt.write_all(&out[..length.0 as usize])
}

// Reads until the room is full or the input ends, and returns how many bytes that are. (npy_get has the same: a public function of a library would have to state what the room then holds, and no contract
// can say what is read.)
fn read_full(input: &mut impl Read, room: &mut [u8]) -> io::Result<usize>
    ensures { IfOk result (λ n. n ≤ length room.new) }
{
    let mut done = 0;
    while done < room.len() {
        let n = input.read(&mut room[done..])?;
        if n == 0 {
            break;
        }
        done += n;
    }
    Ok(done)
}
