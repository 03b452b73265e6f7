// The single steps of an account: frame 68.
use crate::page::Page;
use crate::{Unknown, entries, filed, messages};
use filing::{Entries, Entry};
use message::{Heading, Message};
use register::Register;

// Frame 68: one step of an account; the register goes on with the account as the step left it.
pub(crate) fn step(
    register: &mut Register,
    payload: &[u8],
    page: &mut Page,
) -> Result<(), Unknown> {
    if payload.len() != 15 {
        return Err(Unknown);
    }
    let heading = Heading {
        transaction: layout::number4(payload, 3),
        account: layout::number2(payload, 0),
        filed: filed::of(layout::number4(payload, 7)),
    };
    let kind = layout::number1(payload, 2);
    let message = messages::message_of(kind, heading, layout::number4(payload, 11))?;
    let account = register
        .accounts
        .get_mut(heading.account as usize)
        .ok_or(Unknown)?;
    // The methods themselves, and not `register::step`: this frame shows them.
    let answer = match message {
        Message::Request(_, event) => account.request(heading.transaction, heading.filed, event),
        Message::Commit(_) => account.commit(heading.transaction, heading.filed),
        Message::Abort(_) => account.abort(heading.transaction, heading.filed),
    };
    match answer {
        Ok(entries) => {
            write!(page, "taken");
            put_entries(&entries, page);
        }
        Err(refusal) => {
            page.refused(refusal);
            put_entries(&Entries::NONE, page);
        }
    }
    Ok(())
}

// Puts the number of entries, and each place that is not blank.
fn put_entries(entries: &Entries, page: &mut Page) {
    write!(page, " {}", entries.count);
    for (place, entry) in entries.at.iter().enumerate() {
        if *entry != Entry::BLANK {
            put_entry(entry, place, page);
        }
    }
}

// Puts an entry in its place.
fn put_entry(entry: &Entry, place: usize, page: &mut Page) {
    let kind = entries::kind_of(entry.told);
    write!(page, " {place}={kind}:{}", entry.transaction);
    filed::put(page, ':', entry.filed);
    entries::put_told(entry.told, kind, page, ':');
}
