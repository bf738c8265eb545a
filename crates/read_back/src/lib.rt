// A record that was read from a file: its parts at the fronts of the rooms that it was read to, and laws, in specs/ and proofs/, by which the check accepts them. Crates
// list_file, get_file and claims cite them.
#![tactic(auto)]

ghost use Rattle.std.specs.Prelude.{◌*◌, ◌≡◌, take};
ghost use Rattle.dtype.specs.Record.{entry_width};

// The entries at the front of their room, the whole room if it has fewer.
pub fn table_of(table: &[u64], entries: usize) -> &[u64]
    ensures { result.now ≡ take (entry_width * entries) table.now }
{
    if entries <= table.len() / dtype::ENTRY {
        return &table[..dtype::ENTRY * entries];
    }
    // not reached after a header was read to this room
    table
}

// The name bytes at the front of their room, the whole room if it has fewer.
pub fn names_of(names: &[u8], bytes: usize) -> &[u8]
    ensures { result.now ≡ take bytes names.now }
{
    if bytes <= names.len() {
        return &names[..bytes];
    }
    // not reached after a header was read to this room
    names
}

// The dimensions at the front of their room, the whole room if it has fewer.
pub fn shape_of(shape: &[u64], rank: usize) -> &[u64]
    ensures { result.now ≡ take rank shape.now }
{
    if rank <= shape.len() {
        return &shape[..rank];
    }
    // not reached after a header was read to this room
    shape
}
