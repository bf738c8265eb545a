// Reads a header (document 01, "From first byte to text" and "The record"): its prefix, then its text, whose record is written to three lent rooms; or the
// first refusal that applies, and then nothing is written. The listing program and the C interface call it.
#![tactic(auto)]

mod fill;

ghost use Rattle.std.specs.Prelude.{◌≡◌, ◌≤◌};
ghost use Rattle.refusal.specs.Numbers.{number_of};
ghost use Rattle.record.specs.Prefix.{most_text, missing as missing_number};
ghost use Rattle.header_prefix.specs.Answer.{prefix_is};
ghost use Rattle.header.specs.Reads.{lent, Reads, ReadsHeld, ReadsAfterPrefix, ReadsText};

use counts::Bytes;
use dtype::Order;
use header_prefix::{Prefix, Version, text_start};
use refusal::Refusal;

// What is known of a record beside its table, names and shape, which are in the lent rooms: its order, and how much of each room it takes.
#[derive(Clone, Copy)]
pub struct RecordInfo {
    pub order: Order,
    pub rank: usize,
    pub entries: usize,
    pub names: usize,
}

// A file's header: its version, what is known of its record beside the lent rooms, and where the data starts.
#[derive(Clone, Copy)]
pub struct Header {
    pub version: Version,
    pub info: RecordInfo,
    pub start: Bytes,
}

// The header that a whole file begins with. Its record's table, names and shape are written to the front of the lent rooms. (The rooms are three parameters: with one struct of three `&mut`
// slices each function would have to promise too, for each of its fields, that it is still the caller's reference.)
pub fn read(
    file: &[u8],
    table: &mut [u64],
    names: &mut [u8],
    shape: &mut [u64],
) -> Result<Header, Refusal>
    ensures { Reads file.now (lent table.old names.old shape.old) result (lent table.new names.new shape.new) }
{
    read_held(file, false, table, names, shape)
}

// The same for a file of which only the first bytes are held: `longer` if it has more.
pub fn read_held(
    file: &[u8],
    longer: bool,
    table: &mut [u64],
    names: &mut [u8],
    shape: &mut [u64],
) -> Result<Header, Refusal>
    ensures { ReadsHeld longer file.now (lent table.old names.old shape.old) result (lent table.new names.new shape.new) }
{
    let p = header_prefix::read(file)?;
    read_after_prefix(file, longer, p, table, names, shape)
}

// The header after its prefix: 3 or 23 where the text is not all there.
fn read_after_prefix(
    file: &[u8],
    longer: bool,
    p: Prefix,
    table: &mut [u64],
    names: &mut [u8],
    shape: &mut [u64],
) -> Result<Header, Refusal>
    requires { p.length ≤ most_text }
    ensures { ReadsAfterPrefix longer file.now (prefix_is p) (lent table.old names.old shape.old) result (lent table.new names.new shape.new) }
{
    let start = text_start(p.version);
    let end = start + p.length;
    if file.len() < end {
        return Err(missing(longer));
    }
    let info = read_text(&file[start..end], table, names, shape)?;
    Ok(Header {
        version: p.version,
        info,
        start: Bytes(end as u64),
    })
}

// Why a text is not all there: it is not held, or the file ends before it does.
fn missing(longer: bool) -> Refusal
    ensures { number_of result ≡ missing_number longer }
{
    if longer {
        Refusal::Room
    } else {
        Refusal::Incomplete
    }
}

// The record of a header's text: the text is judged first, so that nothing is written before the last refusal is ruled out.
pub fn read_text(
    text: &[u8],
    table: &mut [u64],
    names: &mut [u8],
    shape: &mut [u64],
) -> Result<RecordInfo, Refusal>
    ensures { ReadsText text.now (lent table.old names.old shape.old) result (lent table.new names.new shape.new) }
{
    let plan = judge::judge(text)?;
    fill::store_record(text, plan, table, names, shape)
}
