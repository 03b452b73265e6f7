// The entry reader, and an entry's line of text: frames 7 and 67.
use crate::page::Page;
use crate::{filed, page};
use filing::{Told, Verdict};

// Frame 7: the entry reader.
pub(crate) fn read(payload: &[u8], page: &mut Page) {
    let Some((found, length)) = entry::read_entry(payload) else {
        write!(page, "none");
        return;
    };
    let entry = found.entry;
    write!(
        page,
        "entry {} {} {}",
        found.kind, entry.transaction, found.account
    );
    filed::put(page, ' ', entry.filed);
    put_told(entry.told, found.kind, page, ' ');
    write!(page, " {length}");
}

// Frame 67: the line of text of an entry, without its newline.
pub(crate) fn line(payload: &[u8], page: &mut Page) {
    let Some((found, _)) = entry::read_entry(payload) else {
        write!(page, "none");
        return;
    };
    let mut buffer = page::FILLED;
    match text::write_line(found, &mut buffer) {
        Ok(length) => {
            let written = buffer.iter().take(length);
            for byte in written.take_while(|byte| **byte != b'\n') {
                page.put(*byte);
            }
        }
        Err(refusal) => page.refused(refusal),
    }
}

// Puts what an entry of that kind has of event, amount, outcomes, balance and reason, each behind a separator. The kind is a number, as `Found` has it.
pub(crate) fn put_told(told: Told, kind: u8, page: &mut Page, separator: char) {
    match told {
        Told::Voted(event, weighing) => {
            page.event(separator, event);
            write!(page, "{separator}{}", weighing.weighed);
            // Kind 23 alone has the reason.
            if kind == 23 {
                write!(page, "{separator}{}", weighing.reason);
            }
        }
        Told::Noted => {}
        Told::Applied(event, balance) => {
            page.event(separator, event);
            write!(page, "{separator}{balance}");
        }
        Told::Dropped(event) => page.event(separator, event),
    }
}

// The kind in which an entry is written; the crate `entry` tells it in bytes only.
pub(crate) fn kind_of(told: Told) -> u8 {
    match told {
        Told::Voted(_, weighing) => match weighing.verdict {
            Verdict::Accepted => 17,
            Verdict::Rejected => 23,
            Verdict::Held => 19,
        },
        Told::Noted => 20,
        Told::Applied(_, _) => 21,
        Told::Dropped(_) => 22,
    }
}
