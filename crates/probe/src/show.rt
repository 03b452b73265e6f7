// An account as it is stored, and whether it is in order: frames 6 and 64.
use crate::filed;
use crate::page::Page;
use account::Account;
use filing::{Decision, Slot};

// Frame 6: life, balance and counts of an account, and each place that is not blank, 0 to 7 in progress and 8 to 15 held.
pub(crate) fn stored(account: &Account, page: &mut Page) {
    write!(page, "account");
    page.state(account.state);
    write!(page, " {} {}", account.progressing, account.holding);
    let places = account.progress.iter().chain(account.held.iter());
    for (place, slot) in places.enumerate() {
        if !slot.is_blank() {
            put_place(slot, place, page);
        }
    }
}

// Frame 64: whether an account is in order.
pub(crate) fn order(account: &Account, page: &mut Page) {
    let answer = if account.in_order() { "yes" } else { "no" };
    write!(page, "order {answer}");
}

// Puts a place.
fn put_place(slot: &Slot, place: usize, page: &mut Page) {
    write!(page, " {place}={}", slot.transaction);
    filed::put(page, ':', slot.filed);
    page.event(':', slot.event);
    let decision = match slot.decision {
        Decision::Undecided => 'u',
        Decision::Committed => 'c',
    };
    write!(page, ":{decision}");
}
