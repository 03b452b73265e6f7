// The writer of entries.
ghost use Rattle.std.specs.Prelude.{◌≡◌, ◌≤◌, ◌↔◌, IsTrue, [], ◌∷◌};
ghost use Rattle.std.proofs.lemmas.List.Edits.{sets};
ghost use Rattle.entry.specs.Bytes.{bytes_of_entry, length_of_told, wholes_of};
ghost use Rattle.entry.specs.Answers.{write_of};

use crate::kinds;
use crate::kinds::Kind;
use filing::Entry;
use refusal::Refusal;

// Writes entries of that account, one after the other, to the beginning of a buffer, which has to have room for those of any call.
pub fn write_entries(entries: &[Entry], account: u16, buffer: &mut [u8]) -> Result<usize, Refusal>
    ensures answer { result ≡ (write_of entries.now account buffer.old).answer }
    ensures buffer { buffer.new ≡ (write_of entries.now account buffer.old).buffer }
{
    if buffer.len() < crate::LONGEST_CALL || !has_room(entries, buffer.len()) {
        return Err(Refusal::NoRoom);
    }
    let mut at = 0;
    for entry in entries {
        at += put_entry(&mut buffer[at..], account, *entry);
    }
    Ok(at)
}

// Writes an entry alone, as the only one of a call of that account, to the beginning of a buffer.
pub fn write_entry(entry: Entry, account: u16, buffer: &mut [u8]) -> Result<usize, Refusal>
    ensures answer { result ≡ (write_of (entry ∷ []) account buffer.old).answer }
    ensures buffer { buffer.new ≡ (write_of (entry ∷ []) account buffer.old).buffer }
{
    write_entries(&[entry], account, buffer)
}

// No entry is longer, whatever its kind: a number has 4 bytes at most.
const LONGEST_ENTRY: usize = 4 * layout::FIELDS;

// Whether a buffer of that length has room for the entries; they are measured only where it has none for the longest of each.
fn has_room(entries: &[Entry], length: usize) -> bool
    ensures { IsTrue result ↔ (wholes_of entries.now ≤ length) }
{
    if entries.len() <= length / LONGEST_ENTRY {
        return true;
    }
    let mut left = length;
    for entry in entries {
        let Some(rest) = left.checked_sub(length_of(*entry)) else {
            return false;
        };
        left = rest;
    }
    true
}

// The whole length of an entry.
fn length_of(entry: Entry) -> usize
    ensures { result ≡ length_of_told entry.told }
{
    Kind::from(entry.told).shape().whole
}

// Stores an entry at the beginning of a buffer, and answers its whole length.
fn put_entry(buffer: &mut [u8], account: u16, entry: Entry) -> usize
    ensures length { result ≡ length_of_told entry.told }
    ensures bytes { buffer.new ≡ sets buffer.old 0 (bytes_of_entry account entry) }
{
    let shape = Kind::from(entry.told).shape();
    let numbers = kinds::numbers_of(entry, account);
    layout::put_numbers(buffer, 0, shape.widths, numbers);
    shape.whole
}
