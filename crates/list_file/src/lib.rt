// What the listing programs print of a file (document 01, "What the collector buys"): the listing of its record, or `refused` and the number. npy_list calls `report_whole`, with the
// rooms of document 01; npy_feed reads a header to rooms of its own and calls `put_read`.
#![tactic(auto)]

ghost use Rattle.std.specs.Prelude.{◌≡◌, [], take};
ghost use Rattle.refusal.specs.Numbers.{number_of};
ghost use Rattle.emit.specs.Emits.{Emits};
ghost use Rattle.header.specs.Reads.{lent};
ghost use Rattle.list_file.specs.Report.{held_most, refused_line, WritesText, Reports};
ghost use Rattle.list_file.specs.Said.{ListsHeader, WritesSaid};
ghost use Rattle.list_file.specs.Enough.{WritesReport};

use counts::Bytes;
use dtype::{GivenRecord, MOST_DIMENSIONS, TABLE};
use header::Header;
use refusal::Refusal;

// How many of a file's first bytes the program holds.
pub const HELD: usize = 65536;

// How many bytes of names the program holds.
const NAMES: usize = 16384;

// How many bytes are room enough for the text of any file.
pub const ROOM: usize = 131072;

// Puts the text for a file at the front of `out` and returns its length. Of a file of more than `HELD` bytes the first `HELD + 1` give the same.
pub fn report_whole(file: &[u8], out: &mut [u8; ROOM]) -> Bytes
    ensures { WritesReport file.now out.old result out.new }
{
    let Ok(written) = report(file, out) else {
        // not reached: no text is longer than the room
        return Bytes(0);
    };
    written
}

// The same with any room, or 28.
pub fn report(file: &[u8], out: &mut [u8]) -> Result<Bytes, Refusal>
    ensures { Reports file.now out.old result out.new }
{
    let mut table = [0u64; TABLE];
    let mut names = [0u8; NAMES];
    let mut shape = [0u64; MOST_DIMENSIONS];
    let longer = HELD < file.len();
    let r = header::read_held(held_part(file), longer, &mut table, &mut names, &mut shape);
    put_read(r, &table, &names, &shape, out)
}

// Puts the text for what a reading says of a header at the front of `out` and returns its length: the listing of the record at the fronts of the rooms that it was read to, or the line
// of its refusal; or 28. Where the rooms are not as the reading left them, it refuses as `list_record::list` does.
pub fn put_read(
    said: Result<Header, Refusal>,
    table: &[u64],
    names: &[u8],
    shape: &[u64],
    out: &mut [u8],
) -> Result<Bytes, Refusal>
    ensures { WritesSaid said (lent table.now names.now shape.now) out.old result out.new }
{
    match said {
        Ok(h) => list_header(h, table, names, shape, out),
        Err(why) => put_refused(why, out),
    }
}

// The first bytes of a file, or the whole file.
fn held_part(file: &[u8]) -> &[u8]
    ensures { result.now ≡ take held_most file.now }
{
    &file[..file.len().min(HELD)]
}

// Puts the listing of a header that was read to the rooms.
fn list_header(
    h: Header,
    table: &[u64],
    names: &[u8],
    shape: &[u64],
    out: &mut [u8],
) -> Result<Bytes, Refusal>
    ensures { ListsHeader h (lent table.now names.now shape.now) out.old result out.new }
{
    let given = GivenRecord {
        table: read_back::table_of(table, h.info.entries),
        names: read_back::names_of(names, h.info.names),
        shape: read_back::shape_of(shape, h.info.rank),
        order: h.info.order,
    };
    list_record::list(h.version, h.start, given, out)
}

// Puts `refused` and the number: the text is measured on a scratch byte, and put where there is room.
fn put_refused(why: Refusal, out: &mut [u8]) -> Result<Bytes, Refusal>
    ensures { WritesText (refused_line (number_of why) []) out.old result out.new }
{
    let number = why.number() as u64;
    let mut scratch = [0u8; 1];
    let n = put_line(&mut scratch, number);
    if out.len() < n {
        return Err(Refusal::OutputRoom);
    }
    put_line(out, number);
    Ok(Bytes(n as u64))
}

// Puts the line of a refusal at the front, as far as there is room, and returns its length.
fn put_line(out: &mut [u8], number: u64) -> usize
    ensures { Emits (refused_line number) out.old 0 out.new result }
{
    write_pieces::put_between(out, 0, b"refused ", number, b"\n")
}
