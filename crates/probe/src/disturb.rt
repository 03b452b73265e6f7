// One field of the register, set to any value: frame 5.
use crate::page::Page;
use crate::{Unknown, filed};
use account::Account;
use events::{Event, Life};
use filing::{Decision, Slot};
use register::Register;

// Frame 5: sets a field of an account, or of a place of it, and nothing else.
pub(crate) fn set(register: &mut Register, payload: &[u8], page: &mut Page) -> Result<(), Unknown> {
    if payload.len() != 8 {
        return Err(Unknown);
    }
    let number = layout::number2(payload, 0) as usize;
    let field = layout::number1(payload, 2);
    let place = layout::number1(payload, 3) as usize;
    let value = layout::number4(payload, 4);
    let account = register.accounts.get_mut(number).ok_or(Unknown)?;
    set_field(account, field, place, value)?;
    write!(page, "set");
    Ok(())
}

// Sets a field, if there is such a field and it takes the value.
// Fields stay numbers: an enum would be a second table, and here each number stands beside the field that it sets and the values that the field takes.
fn set_field(account: &mut Account, field: u8, place: usize, value: u32) -> Result<(), Unknown> {
    match (field, value) {
        (0, 0) => account.state.life = Life::New,
        (0, 1) => account.state.life = Life::Opened,
        (0, 2) => account.state.life = Life::Closed,
        (1, balance) => account.state.balance = balance,
        (2, progressing) => account.progressing = progressing as usize,
        (3, holding) => account.holding = holding as usize,
        _ => set_in_place(slot_of(account, place).ok_or(Unknown)?, field, value)?,
    }
    Ok(())
}

// Sets a field of a place, if a place has such a field and it takes the value; another event keeps the amount, if it has one.
fn set_in_place(slot: &mut Slot, field: u8, value: u32) -> Result<(), Unknown> {
    match (field, value) {
        (4, transaction) => slot.transaction = transaction,
        (5, second) => slot.filed = filed::of(second),
        (6, 1..=4) => slot.event = Event::of(value as u8, slot.event.amount()),
        (7, amount) if slot.event != Event::Close => {
            slot.event = Event::of(slot.event.kind(), amount);
        }
        (8, 0) => slot.decision = Decision::Undecided,
        (8, 1) => slot.decision = Decision::Committed,
        _ => return Err(Unknown),
    }
    Ok(())
}

// One of the sixteen places of an account: 0 to 7 in progress, 8 to 15 held.
fn slot_of(account: &mut Account, place: usize) -> Option<&mut Slot> {
    match place.checked_sub(Account::PLACES) {
        None => account.progress.get_mut(place),
        Some(held) => account.held.get_mut(held),
    }
}
