// The grammar of the literal (document 01, "The literal"): which texts give which values, in specs/ alone; the code needs only this limit.
// Every crate that reads or writes header text is proved against it.
#![tactic(auto)]

// The most brackets that may be open at once: one more is refused with 7.
pub const MOST_OPEN: usize = 32;
