// The text on its way out, and the buffers that frames lend.
ghost use Rattle.std.specs.Prelude.{◌≡◌, ◌≤◌};

use crate::Unknown;
use events::{Event, Life, State};
use refusal::Refusal;
use std::fmt;
use std::fmt::{Display, Write};

const WHOLE_PAGE: usize = 4_096;

// What is not yet written of the text: so many bytes at the beginning, since memory is fixed.
#[derive(Drop)]
pub(crate) struct Page {
    text: [u8; WHOLE_PAGE],
    length: usize,
    ghost within: { length ≤ 4096 },
}

// The most room that a frame can lend.
const WIDEST: usize = 1_024;

// A buffer, of which a frame lends the first part.
pub(crate) type Buffer = [u8; WIDEST];

// What each byte of a buffer is at first.
const FILL: u8 = 165;

// A buffer before it is lent.
pub(crate) const FILLED: Buffer = [FILL; WIDEST];

// The room that a payload begins with, and the bytes behind it.
pub(crate) fn room(payload: &[u8]) -> Result<(u16, &[u8]), Unknown> {
    let (room, bytes) = payload.split_first_chunk().ok_or(Unknown)?;
    Ok((u16::from_be_bytes(*room), bytes))
}

// The part of a buffer that a frame lends.
pub(crate) fn lend(buffer: &mut Buffer, room: u16) -> Result<&mut [u8], Unknown> {
    buffer.get_mut(..room as usize).ok_or(Unknown)
}

impl Page {
    // A page with no text.
    pub(crate) fn blank() -> Page {
        Page {
            text: [0; WHOLE_PAGE],
            length: 0,
        }
    }

    // Puts a byte; a full page goes out first.
    pub(crate) fn put(&mut self, byte: u8) {
        if self.length == WHOLE_PAGE {
            self.send();
        }
        self.text[self.length] = byte;
        self.length += 1;
    }

    // Writes out what the page holds.
    pub(crate) fn send(&mut self)
        ensures { self.new.length ≡ 0 }
    {
        io::write_all(1, &self.text[..self.length]);
        self.length = 0;
    }

    // Puts a text that `write!` and `writeln!` make: a page takes them all.
    pub(crate) fn write_fmt<D: Display + Drop>(&mut self, text: D) {
        let _ = self.write(text);
    }

    // Puts a refusal's number.
    pub(crate) fn refused(&mut self, refusal: Refusal) {
        write!(self, "refused {}", refusal.number());
    }

    // Puts an event's kind and amount, each behind a separator.
    pub(crate) fn event(&mut self, separator: char, event: Event) {
        write!(
            self,
            "{separator}{}{separator}{}",
            event.kind(),
            event.amount()
        );
    }

    // Puts the life and the balance of a state, each behind a space.
    pub(crate) fn state(&mut self, state: State) {
        let life = match state.life {
            Life::New => "new",
            Life::Opened => "opened",
            Life::Closed => "closed",
        };
        write!(self, " {life} {}", state.balance);
    }

    // Puts the length written, the bytes written in hex, `-` where there are none, and whether the others are kept.
    pub(crate) fn written(&mut self, buffer: &Buffer, length: usize) {
        let (written, others) = buffer.split_at(length.min(WIDEST));
        write!(self, " {length} ");
        if written.is_empty() {
            write!(self, "-");
        }
        for byte in written {
            write!(self, "{byte:02x}");
        }
        self.kept(others);
    }

    // Puts whether every byte that is not the call's is as it was at first.
    pub(crate) fn kept(&mut self, others: &[u8]) {
        let kept = others.iter().all(|byte| *byte == FILL);
        let told = if kept { "kept" } else { "spoilt" };
        write!(self, " {told}");
    }
}

impl Write for Page {
    fn write_str(&mut self, text: &str) -> fmt::Result {
        for byte in text.as_bytes() {
            self.put(*byte);
        }
        Ok(())
    }
}
