// Entries in bytes: the writer of a call's entries, and the reader of one.
#![tactic(auto)]

mod kinds;
mod reader;
mod writer;

use filing::Entry;
pub use reader::read_entry;
pub use writer::{write_entries, write_entry};

// The room that a call needs: a commit noted, 8 events applied and 8 rejections.
pub const LONGEST_CALL: usize = 323;

// An entry as it was read, with the kind that it was read in and its account. The kind stays its number: `said_of_entry` and `is_older` name it.
#[derive(Clone, Copy, Drop)]
pub struct Found {
    pub entry: Entry,
    pub kind: u8,
    pub account: u16,
}
