// A run of messages through a fresh register of its own: frame 65.
use crate::page::Page;
use crate::{Unknown, page};

// Frame 65: the run, with a buffer of that room.
pub(crate) fn run(payload: &[u8], page: &mut Page) -> Result<(), Unknown> {
    let (room, messages) = page::room(payload)?;
    let mut buffer = page::FILLED;
    let ran = register::run(messages, page::lend(&mut buffer, room)?);
    write!(page, "ran {} {} {}", ran.met, ran.refused, ran.consumed);
    page.written(&buffer, ran.written);
    Ok(())
}
