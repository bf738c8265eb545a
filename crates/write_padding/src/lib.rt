// Decides how a header's text is padded and which version it is written as, and puts what goes around the text: the prefix before it, spaces and one LF after it
// (document 01, "Header bytes out", and document 02, "Wish 4"). write calls it.
#![tactic(auto)]

ghost use Rattle.refusal.specs.Answers.{answer};
ghost use Rattle.std.specs.Prelude.{◌≤◌, ◌≡◌, ◌∷◌};
ghost use Rattle.emit.specs.Emits.{Emits};
ghost use Rattle.literal_grammar.specs.Print.{spaces};
ghost use Rattle.record.specs.File.{file_by};
ghost use Rattle.record.specs.Padding.{spaces_after, version_for};
ghost use Rattle.record.specs.Prefix.{most_text};
ghost use Rattle.header_prefix.specs.Answer.{version_is};
ghost use Rattle.write_padding.specs.Plan.{chosen, planned};

use header_prefix::{MOST_TEXT, Version};
use refusal::Refusal;
use type_letters::Endianness;

// Prefix and text together are a multiple of this.
const PADDING_UNIT: usize = 64;

// The bytes before the text of (1,0).
const SHORT_PREFIX: usize = 10;

// The longest text that (1,0) has.
const MOST_SHORT: usize = 65535;

// The longest text.
const LONGEST: usize = MOST_TEXT as usize;

// A header's version, the spaces after its text, the length of the padded text, and that of the whole header.
#[derive(Clone, Copy)]
pub struct PaddingPlan {
    pub version: Version,
    pub spaces: usize,
    pub text: usize,
    pub whole: usize,
}

// The fewest spaces after n bytes of prefix and text that make a multiple of the unit, with one LF.
fn spaces_after(n: usize) -> usize
    ensures { result ≡ spaces_after n }
{
    (PADDING_UNIT - (n % PADDING_UNIT + 1) % PADDING_UNIT) % PADDING_UNIT
}

// The version of a text of n bytes: whether (1,0) can hold it is asked with its own prefix of 10 bytes.
fn chosen_version(ascii: bool, n: usize) -> Version
    requires { n ≤ most_text }
    ensures { result ≡ chosen (version_for ascii n) }
{
    if !ascii {
        return Version::ThreeZero;
    }
    if n + (spaces_after(SHORT_PREFIX + n) + 1) <= MOST_SHORT {
        Version::OneZero
    } else {
        Version::TwoZero
    }
}

// How a text of n bytes is written; or 4.
pub fn plan_for(ascii: bool, n: usize) -> Result<PaddingPlan, Refusal>
    ensures { answer result ≡ planned ascii n }
{
    if LONGEST < n {
        return Err(Refusal::LongText);
    }
    let version = chosen_version(ascii, n);
    let start = 8 + version.length_width();
    let spaces = spaces_after(start + n);
    let text = n + (spaces + 1);
    if LONGEST < text {
        return Err(Refusal::LongText);
    }
    let whole = start + text;
    Ok(PaddingPlan {
        version,
        spaces,
        text,
        whole,
    })
}

// Puts the prefix of a text of n bytes at `at` and returns the place after it.
pub fn put_prefix(out: &mut [u8], at: usize, version: Version, n: usize) -> usize
    ensures { Emits (file_by (version_is version) n) out.old at out.new result }
{
    let after_magic = emit::put_bytes(out, at, b"\x93NUMPY");
    let after_major = emit::put(out, after_magic, version.major());
    let after_minor = emit::put(out, after_major, 0);
    number_bytes::put(
        out,
        after_minor,
        Endianness::Little,
        version.length_width() as u8,
        n as u64,
    )
}

// Puts n spaces.
fn put_spaces(out: &mut [u8], at: usize, n: usize) -> usize
    ensures { Emits (spaces n) out.old at out.new result }
{
    let mut p = at;
    for _ in 0..n {
        p = emit::put(out, p, b' ');
    }
    p
}

// Puts what comes after a text: n spaces and one LF (10).
pub fn put_padding(out: &mut [u8], at: usize, n: usize) -> usize
    ensures { Emits (λ z. spaces n (10 ∷ z)) out.old at out.new result }
{
    let after_spaces = put_spaces(out, at, n);
    emit::put(out, after_spaces, b'\n')
}
