// Reads what comes before a header's text (document 01, "From first byte to text"): the version and the text's length, or the first of 1 to 4 that applies. Called by
// header and header_feed; write_padding, list_record and npy_codes use its `Version`.
#![tactic(auto)]

ghost use Rattle.std.specs.Prelude.{◌≡◌, take};
ghost use Rattle.counts.specs.Lists.{same};
ghost use Rattle.record.specs.Prefix.{major, length_width, text_start, version_of, magic, length_read, prefix};
ghost use Rattle.header_prefix.specs.Answer.{version_is, version_answer, prefix_answer};

use refusal::Refusal;
use type_letters::Endianness;

// The most bytes that a text may have: a longer one is refused with 4.
pub const MOST_TEXT: u64 = 131072;

// The versions (1,0), (2,0) and (3,0), each with its first byte.
#[derive(Clone, Copy)]
pub enum Version {
    OneZero = 1,
    TwoZero = 2,
    ThreeZero = 3,
}

impl Version {
    // The first byte of the version.
    pub fn major(self) -> u8
        ensures { result ≡ major (version_is self) }
    {
        self as u8
    }

    // How many bytes the length field has.
    pub fn length_width(self) -> usize
        ensures { result ≡ length_width (version_is self) }
    {
        match self {
            Version::OneZero => 2,
            Version::TwoZero | Version::ThreeZero => 4,
        }
    }
}

// The version, and the text's length as its field has it.
#[derive(Clone, Copy)]
pub struct Prefix {
    pub version: Version,
    pub length: usize,
}

// The version and the text's length that a file begins with.
pub fn read(file: &[u8]) -> Result<Prefix, Refusal>
    ensures { prefix_answer result ≡ prefix file.now }
{
    if file.len() < 8 || !is_magic(file) {
        return Err(Refusal::NotNpy);
    }
    let Some(version) = version_of(file[6], file[7]) else {
        return Err(Refusal::OtherVersion);
    };
    text_length(version, file)
}

// Where the text starts: after six bytes of magic, two of version and the length field.
pub fn text_start(version: Version) -> usize
    ensures { result ≡ text_start (version_is version) }
{
    8 + version.length_width()
}

// Whether a file begins with the six bytes 93 and `NUMPY`.
fn is_magic(file: &[u8]) -> bool
    ensures { result ≡ same (take 6 file.now) magic }
{
    file.starts_with(b"\x93NUMPY")
}

// The version of its two bytes.
fn version_of(major: u8, minor: u8) -> Option<Version>
    ensures { version_answer result ≡ version_of major minor }
{
    match (major, minor) {
        (1, 0) => Some(Version::OneZero),
        (2, 0) => Some(Version::TwoZero),
        (3, 0) => Some(Version::ThreeZero),
        _ => None,
    }
}

// The version, and the length that its field has: 3 where the field is not all there, 4 where the length is over MOST_TEXT.
fn text_length(version: Version, file: &[u8]) -> Result<Prefix, Refusal>
    ensures { prefix_answer result ≡ length_read (version_is version) file.now }
{
    let start = text_start(version);
    if file.len() < start {
        return Err(Refusal::Incomplete);
    }
    let Some(length) = number_bytes::read(&file[8..start], Endianness::Little) else {
        // not reached: the length field has at most four bytes
        return Err(Refusal::LongText);
    };
    if MOST_TEXT < length {
        return Err(Refusal::LongText);
    }
    Ok(Prefix {
        version,
        length: length as usize,
    })
}
