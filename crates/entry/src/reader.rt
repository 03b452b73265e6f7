// The reader of one entry.
ghost use Rattle.std.specs.Prelude.{◌≡◌};
ghost use Rattle.entry.specs.Answers.{read_of};

use crate::Found;
use crate::kinds::Kind;
use filing::Entry;

// The entry that the bytes begin with, by the layout alone, and its length; bytes after it are not looked at.
pub fn read_entry(bytes: &[u8]) -> Option<(Found, usize)>
    ensures { result ≡ read_of bytes.now }
{
    let kind = Kind::try_from(*bytes.first()?).ok()?;
    let shape = kind.shape();
    if bytes.len() < shape.whole {
        return None;
    }
    let numbers = layout::read_numbers(bytes, shape.widths);
    if numbers[2] > layout::LAST_ACCOUNT as u32 {
        return None;
    }
    let entry = Entry {
        transaction: numbers[1],
        filed: layout::filed_from(numbers),
        told: kind.told(numbers)?,
    };
    let found = Found {
        entry,
        kind: kind.number(),
        account: numbers[2] as u16,
    };
    Some((found, shape.whole))
}
