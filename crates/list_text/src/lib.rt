// What the text of a listing is (document 01, "What the collector buys"): its definition in specs/, its laws in proofs/, and the one part that needs no table, an entry's
// parent. Called by list_record, which puts the rest.
#![tactic(auto)]

ghost use Rattle.emit.specs.Emits.{Emits};
ghost use Rattle.list_text.specs.Listing.{parent_text};

use emit::{put, put_count};

// Puts the parent of entry e, `-` for the outermost, and returns the place after it.
pub fn put_parent(out: &mut [u8], at: usize, e: usize, parent: u64) -> usize
    ensures { Emits (parent_text e parent) out.old at out.new result }
{
    if e == 0 {
        return put(out, at, b'-');
    }
    put_count(out, at, parent)
}
