// Prints the element at a place of the NPY file on standard input: `npy_get INDEX PATH`, each numbers separated by commas, `-` for none. The program reads, calls and writes; which
// bytes are the element's is get_file's, and what is printed of them element_text's. It reads the first bytes, which hold the header, and those from the element on, so the file may be of any size;
// of an input that cannot be sought in, as a pipe, it reads all, and only if that is not long.
// Where it prints nothing to standard output, standard error says why.
#![tactic(auto)]

ghost use Rattle.std.specs.Prelude.{ℕ, ◌≤◌, ◌≡◌, length, Some, IfOk};

use counts::Bytes;
use place_area::Run;
use refusal::Refusal;
use std::io::{Cursor, Read, Seek, SeekFrom};
use std::os::unix::fs::FileTypeExt;
use std::rt::{Env, Files};
use std::{fs, io};
use type_str::TypeStr;

// How many of a file's first bytes are held: the longest header.
const HELD: usize = 131084;

// How many bytes of an element are held; a longer one is refused with 23.
const ELEMENT: usize = 65536;

// How many bytes are held of an input that cannot be sought in; of a longer one nothing is printed.
const UNSOUGHT: usize = HELD + ELEMENT;

// How many bytes are room enough for the line of any of these elements (`line_fits` in element_text/proofs/Enough.antt), so that 28 is never printed.
const ROOM: usize = 4 * ELEMENT + 64;

// The last byte that can be sought: 2^63-1.
const LAST_SOUGHT: u64 = 0x7FFF_FFFF_FFFF_FFFF;

// Standard input by name: to open it gives a file that can be sought in.
const INPUT: &str = "/dev/stdin";

const NOT_SOUGHT: &str = "npy-get: the file cannot be sought in\n";

const NOT_READ: &str = "npy-get: the file could not be read, or was cut while it was read\n";

fn main(rt: HostRuntime) -> io::Result<()> {
    let mut index = [0u64; get_file::INDEX];
    let mut path = [0u64; get_file::PATH];
    let Some(rank) = argument(&rt, 1, &mut index) else {
        return say(
            &rt,
            "npy-get: INDEX is not numbers separated by commas, or `-`, or is too long\n",
        );
    };
    let Some(depth) = argument(&rt, 2, &mut path) else {
        return say(
            &rt,
            "npy-get: PATH is not numbers separated by commas, or `-`, or is too long\n",
        );
    };
    print_input(&rt, &index[..rank], &path[..depth])
}

// The numbers of an argument. One that is missing, or too long to be held, is no list.
fn argument(rt: &impl Env, i: usize, out: &mut [u64]) -> Option<usize>
    ensures { (n : ℕ) → result ≡ Some n → n ≤ length out.new }
{
    let mut text = [0u8; 65536];
    let n = rt.arg(i, &mut text).ok()?;
    get_file::numbers(&text[..n], out)
}

// Prints the element of the file on standard input.
fn print_input<R: Files + Input + Print + Eprint>(
    rt: &R,
    index: &[u64],
    path: &[u64],
) -> io::Result<()> {
    match sought(rt) {
        Some(mut file) => print_element(rt, &mut file, index, path),
        None => print_unsought(rt, index, path),
    }
}

// The file on standard input, if it can be sought in. To open a FIFO would wait for a writer.
fn sought<R: Files>(rt: &R) -> Option<R::File> {
    if fs::metadata(rt, INPUT).ok()?.file_type().is_fifo() {
        return None;
    }
    let mut file = fs::open(rt, INPUT).ok()?;
    file.stream_position().ok()?;
    Some(file)
}

// Prints the element of an input that cannot be sought in.
fn print_unsought<R: Input + Print + Eprint>(
    rt: &R,
    index: &[u64],
    path: &[u64],
) -> io::Result<()> {
    let mut room = [0u8; UNSOUGHT + 1];
    let n = read_full(&mut rt.reader(), &mut room)?;
    if UNSOUGHT < n {
        return say(rt, NOT_SOUGHT);
    }
    print_element(rt, &mut Cursor::new(&room[..n]), index, path)
}

// Prints the element that an index and a path name, or why there is none.
fn print_element<F: Read + Seek>(
    rt: &(impl Print + Eprint),
    file: &mut F,
    index: &[u64],
    path: &[u64],
) -> io::Result<()> {
    let Ok(bytes) = file.seek(SeekFrom::End(0)) else {
        return say(rt, NOT_SOUGHT);
    };
    if LAST_SOUGHT < bytes {
        return say(rt, NOT_SOUGHT);
    }
    file.rewind()?;
    let mut front = [0u8; HELD];
    let Ok(held) = read_full(file, &mut front) else {
        return say(rt, NOT_READ);
    };
    // fewer bytes than are there to be held
    if held < HELD && (held as u64) < bytes {
        return say(rt, NOT_READ);
    }
    let longer = (HELD as u64) < bytes;
    match get_file::find(&front[..held], longer, Bytes(bytes), index, path) {
        Ok(run) => print_run(rt, file, run),
        Err(why) => print_refused(rt, why),
    }
}

// Prints the element in these bytes of the file.
fn print_run<F: Read + Seek>(rt: &(impl Print + Eprint), file: &mut F, run: Run) -> io::Result<()> {
    if (ELEMENT as u64) < run.len.0 {
        return print_refused(rt, Refusal::Room);
    }
    let count = run.len.0 as usize;
    if LAST_SOUGHT < run.first.0 {
        // not reached: the place is inside a file whose length was sought
        return Ok(());
    }
    file.seek(SeekFrom::Start(run.first.0))?;
    let mut element = [0u8; ELEMENT];
    let Ok(n) = read_full(file, &mut element) else {
        return say(rt, NOT_READ);
    };
    if n < count {
        return say(rt, NOT_READ);
    }
    print_line(rt, &element[..count], run.kind)
}

// Prints the line of an element, or its refusal.
fn print_line(rt: &impl Print, element: &[u8], kind: TypeStr) -> io::Result<()> {
    let mut out = [0u8; ROOM];
    match element_text::put(element, kind, &mut out) {
        Ok(n) => rt.write_all(&out[..n.0 as usize]),
        Err(why) => print_refused(rt, why),
    }
}

fn print_refused(rt: &impl Print, why: Refusal) -> io::Result<()> {
    println!(rt; "refused {}", why.number())
}

// Writes to standard error.
fn say(rt: &impl Eprint, text: &str) -> io::Result<()> {
    rt.eprint(text)
}

// Reads until the room is full or the input ends, and returns how many bytes that are. (npy_list has the same: a public function of a library would have to state what the room then holds, and no contract
// can say what is read.)
fn read_full(input: &mut impl Read, room: &mut [u8]) -> io::Result<usize>
    ensures { IfOk result (λ n. n ≤ length room.new) }
{
    let mut done = 0;
    while done < room.len() {
        let n = input.read(&mut room[done..])?;
        if n == 0 {
            break;
        }
        done += n;
    }
    Ok(done)
}
