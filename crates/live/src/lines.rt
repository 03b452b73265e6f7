// The line of text of an entry that is given by its bytes (docs/REGISTER.md, 15.9).
ghost use Rattle.std.specs.Prelude.{◌≡◌};
ghost use Rattle.live.specs.Lines.{line_of_entry};

// How many bytes the entry has, and how many its line.
#[derive(Clone, Copy, Default, PartialEq, Eq, Drop)]
pub struct Lined {
    pub entry: usize,
    pub line: usize,
}

// Writes the line of the entry that the bytes begin with to the beginning of a buffer; nothing where they begin with none, or where there is too little room for the longest line.
#[tactic(auto, unfolding(crate::specs::Lines::line_of_entry))]
pub fn write_entry_line(bytes: &[u8], buffer: &mut [u8]) -> Option<Lined>
    ensures lined { result ≡ (line_of_entry bytes.now buffer.old).lined }
    ensures buffer { buffer.new ≡ (line_of_entry bytes.now buffer.old).buffer }
{
    let (found, whole) = entry::read_entry(bytes)?;
    let line = text::write_line(found, buffer).ok()?;
    Some(Lined { entry: whole, line })
}
