// The message reader and the message writer: frames 3 and 4.
use crate::page::Page;
use crate::{Unknown, filed, page};
use events::Event;
use message::{Heading, Message};

// Frame 3: the message reader.
pub(crate) fn read(payload: &[u8], page: &mut Page) {
    match message::read_message(payload) {
        Ok((message, length)) => {
            put_message(message, page);
            write!(page, " {length}");
        }
        Err(refusal) => page.refused(refusal),
    }
}

// Puts a message's kind, its heading and its amount, which the crate `message` tells in bytes only.
fn put_message(message: Message, page: &mut Page) {
    let (kind, heading, amount) = match message {
        Message::Request(heading, event) => (event.kind(), heading, event.amount()),
        Message::Commit(heading) => (5, heading, 0),
        Message::Abort(heading) => (6, heading, 0),
    };
    write!(
        page,
        "message {kind} {} {}",
        heading.transaction, heading.account
    );
    filed::put(page, ' ', heading.filed);
    write!(page, " {amount}");
}

// Frame 4: the message writer, with a buffer of that room.
pub(crate) fn write(payload: &[u8], page: &mut Page) -> Result<(), Unknown> {
    if payload.len() != 17 {
        return Err(Unknown);
    }
    let heading = Heading {
        transaction: layout::number4(payload, 1),
        account: layout::number2(payload, 5),
        filed: filed::of(layout::number4(payload, 7)),
    };
    let message = message_of(
        layout::number1(payload, 0),
        heading,
        layout::number4(payload, 11),
    )?;
    let mut buffer = page::FILLED;
    let lent = page::lend(&mut buffer, layout::number2(payload, 15))?;
    match message::write_message(message, lent) {
        Ok(length) => {
            write!(page, "written");
            page.written(&buffer, length);
        }
        Err(refusal) => {
            page.refused(refusal);
            page.kept(&buffer);
        }
    }
    Ok(())
}

// The message of a kind 1 to 6; the crate `message` makes one from bytes only, so the kinds stand here by their numbers.
pub(crate) fn message_of(kind: u8, heading: Heading, amount: u32) -> Result<Message, Unknown> {
    match kind {
        1..=4 => Ok(Message::Request(heading, Event::of(kind, amount))),
        5 => Ok(Message::Commit(heading)),
        6 => Ok(Message::Abort(heading)),
        _ => Err(Unknown),
    }
}
