// Reads a header that arrives part by part (document 02, "Wish 10. Headers arrive packet by packet."). A feeder keeps the bytes before the text, how many bytes were taken, and what it
// says; the text goes to a lent buffer, and is judged once, when it is whole. The C interface and the program npy_feed call it.
#![tactic(auto)]

ghost use Rattle.std.specs.Prelude.{◌≡◌, ◌+◌, ◌-◌, ◌^◌, ◌≤◌, ◌<◌, min, eqb, length, take, drop};
ghost use Rattle.std.proofs.Math.Seq.{paste};
ghost use Rattle.refusal.specs.Numbers.{number_of};
ghost use Rattle.record.specs.Prefix.{prefix};
ghost use Rattle.header_prefix.specs.Answer.{version_is, prefix_is, prefix_answer};
ghost use Rattle.header.specs.Reads.{lent};
ghost use Rattle.header_feed.specs.Due.{start_in};
ghost use Rattle.header_feed.specs.Feeds.{fresh_feeder, Feeds, TakesPart, cut_short, Ends};
ghost use Rattle.header_feed.specs.Steps.{Grown, TakesHead, PrefixWhole, TakesText, ReadsWhole};

use counts::Bytes;
use header::Header;
use header_prefix::{Prefix, Version, text_start};
use refusal::Refusal;

// How many bytes come before the text at most.
pub const HEAD: usize = 12;

// How many bytes the magic and the version have.
const FIRST: usize = 8;

// What a feeder says: need more; the header; or a refusal, 36 or one of the whole-slice reader's. (Three cases with names of their own: an `Option` of a `Result` would say none of them.)
#[derive(Clone, Copy)]
pub enum Fed {
    More,
    Read(Header),
    Refused(Refusal),
}

#[derive(Clone, Copy)]
pub struct Feeder {
    // the bytes before the text, as far as they were taken
    pub head: [u8; HEAD],
    // how many bytes were taken, those of the text included
    pub taken: usize,
    pub said: Fed,
}

// The feeder after a part, and how many bytes of the part it used.
#[derive(Clone, Copy)]
pub struct Feeding {
    pub feeder: Feeder,
    pub used: usize,
}

// The bytes before the text, how many bytes were taken, and how many of them are the part's.
#[derive(Clone, Copy)]
struct Grows {
    head: [u8; HEAD],
    taken: usize,
    used: usize,
}

// A feeder that has taken nothing.
pub fn start() -> Feeder
    ensures { result ≡ fresh_feeder }
{
    Feeder {
        head: [0; HEAD],
        taken: 0,
        said: Fed::More,
    }
}

// Takes the next part of a header: its bytes up to the one with which the outcome comes, or all. The text goes to the front of `text`, which each call is lent as the last left it; once the text is
// whole, its record goes to the three rooms. A feeder that has said an outcome takes nothing and says it again.
pub fn feed(
    f: Feeder,
    part: &[u8],
    text: &mut [u8],
    table: &mut [u64],
    names: &mut [u8],
    shape: &mut [u64],
) -> Feeding
    ensures { Feeds f part.now text.old (lent table.old names.old shape.old) result text.new (lent table.new names.new shape.new) }
{
    match f.said {
        Fed::More => take_part(f.head, f.taken, part, text, table, names, shape),
        Fed::Read(_) => Feeding { feeder: f, used: 0 },
        Fed::Refused(_) => Feeding { feeder: f, used: 0 },
    }
}

// The feeder where the input ends: 1 or 3 if it needs more, and else the outcome that it has said.
pub fn end(f: Feeder) -> Feeder
    ensures { Ends f result }
{
    match f.said {
        Fed::More => Feeder {
            said: Fed::Refused(cut_short(f.taken)),
            ..f
        },
        Fed::Read(_) => f,
        Fed::Refused(_) => f,
    }
}

// Why an input that ended after so many bytes is refused.
fn cut_short(taken: usize) -> Refusal
    ensures { number_of result ≡ cut_short taken }
{
    if taken < FIRST {
        Refusal::NotNpy
    } else {
        Refusal::Incomplete
    }
}

// A part, by a feeder that needs more.
fn take_part(
    head: [u8; HEAD],
    taken: usize,
    part: &[u8],
    text: &mut [u8],
    table: &mut [u64],
    names: &mut [u8],
    shape: &mut [u64],
) -> Feeding
    ensures { TakesPart head taken part.now text.old (lent table.old names.old shape.old) result text.new (lent table.new names.new shape.new) }
{
    let had = held(head, taken, text.len());
    let h = fill_head(head, had, part);
    let bytes = h.head;
    let got = h.taken;
    let used = h.used;
    if got < FIRST {
        return after(bytes, got, used, Fed::More);
    }
    match prefix_in(bytes, got) {
        Ok(p) => take_text(bytes, p, got, part, used, text, table, names, shape),
        Err(why) => {
            if is_incomplete(why) {
                after(bytes, got, used, Fed::More)
            } else {
                after(bytes, got, used, Fed::Refused(why))
            }
        }
    }
}

// How many of the bytes that were taken the head and a text buffer of this length hold: all, if the buffer is the one of the last call.
fn held(head: [u8; HEAD], taken: usize, buffer: usize) -> usize
    requires { buffer < 2 ^ 63 }
    ensures { result ≡ min taken (start_in head + buffer) }
{
    taken.min(start_in(head) + buffer)
}

// Where the text starts: 10 for (1,0), else 12.
fn start_in(head: [u8; HEAD]) -> usize
    ensures { result ≡ start_in head }
{
    if (head[6] == 1) & (head[7] == 0) {
        10
    } else {
        HEAD
    }
}

// The prefix of a head of which so many bytes were taken.
fn prefix_in(head: [u8; HEAD], got: usize) -> Result<Prefix, Refusal>
    ensures { prefix_answer result ≡ prefix (take (min got (start_in head)) head) }
{
    let n = got.min(start_in(head));
    header_prefix::read(&head[..n])
}

// Whether a prefix is refused because its length field is incomplete.
fn is_incomplete(why: Refusal) -> bool
    ensures { result ≡ eqb (number_of why) 3 }
{
    why.number() == 3
}

// The bytes before the text that a part has: up to byte 8, and unless these give 1 or 2, up to the text.
fn fill_head(head: [u8; HEAD], had: usize, part: &[u8]) -> Grows
    ensures { TakesHead head had part.now result }
{
    let a = grow(head, had, FIRST, part, 0);
    let bytes = a.head;
    let first = a.taken;
    if first < FIRST {
        return a;
    }
    match prefix_in(bytes, first) {
        Ok(_) => a,
        Err(why) => {
            if is_incomplete(why) {
                grow(bytes, first, start_in(bytes), part, a.used)
            } else {
                a
            }
        }
    }
}

// Bytes of a part, stored after those that a head has, until it has so many.
fn grow(head: [u8; HEAD], had: usize, upto: usize, part: &[u8], used: usize) -> Grows
    requires { (upto ≤ 12) × (used ≤ length part.now) }
    ensures { Grown head had upto (drop used part.now) used result }
{
    if upto <= had {
        return Grows {
            head,
            taken: had,
            used,
        };
    }
    let rest = &part[used..];
    let n = (upto - had).min(rest.len());
    let mut bytes = head;
    copy(&mut bytes, had, rest, n);
    Grows {
        head: bytes,
        taken: had + n,
        used: used + n,
    }
}

// The text's bytes that a part has, after a complete prefix: 36 before any of them is taken.
fn take_text(
    head: [u8; HEAD],
    p: Prefix,
    got: usize,
    part: &[u8],
    used: usize,
    text: &mut [u8],
    table: &mut [u64],
    names: &mut [u8],
    shape: &mut [u64],
) -> Feeding
    requires { PrefixWhole head (prefix_is p) got text.old × (used ≤ length part.now) }
    ensures { TakesText head (prefix_is p) got (drop used part.now) used text.old (lent table.old names.old shape.old) result text.new (lent table.new names.new shape.new) }
{
    let length = p.length;
    if text.len() < length {
        return after(head, got, used, Fed::Refused(Refusal::Buffer));
    }
    let version = p.version;
    let start = text_start(version);
    let stored = got - start;
    let rest = &part[used..];
    let n = length.saturating_sub(stored).min(rest.len());
    copy(text, stored, rest, n);
    if stored + n < length {
        return after(head, got + n, used + n, Fed::More);
    }
    let said = read_whole(version, &text[..length], table, names, shape);
    after(head, got + n, used + n, said)
}

// The header whose text is complete, or its refusal.
fn read_whole(
    version: Version,
    text: &[u8],
    table: &mut [u64],
    names: &mut [u8],
    shape: &mut [u64],
) -> Fed
    ensures { ReadsWhole (version_is version) text.now (lent table.old names.old shape.old) result (lent table.new names.new shape.new) }
{
    match header::read_text(text, table, names, shape) {
        Ok(info) => Fed::Read(Header {
            version,
            info,
            start: Bytes((text_start(version) + text.len()) as u64),
        }),
        Err(why) => Fed::Refused(why),
    }
}

// A feeder that has taken so many bytes, and how many of them are this part's.
fn after(head: [u8; HEAD], taken: usize, used: usize, said: Fed) -> Feeding
    ensures { result ≡ record { feeder = record { head = head; taken = taken; said = said }; used = used } }
{
    Feeding {
        feeder: Feeder { head, taken, said },
        used,
    }
}

// Stores the first n bytes of `from` in `out`, from `at` on.
fn copy(out: &mut [u8], at: usize, from: &[u8], n: usize)
    requires { (at + n ≤ length out.old) × (n ≤ length from.now) }
    ensures { out.new ≡ paste out.old at from.now n }
{
    for i in 0..n {
        out[at + i] = from[i];
    }
}
