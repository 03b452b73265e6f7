// An account: its places, and what a call of it gives (docs/REGISTER.md, 2).
#![tactic(auto)]

mod judging;
mod outcomes;
mod question;
mod refusing;
mod steps;

use events::State;
use filing::Slot;

// An account: the first `progressing` places of `progress` and the first `holding` of `held` are used, in arrival order; the others are blank.
// Memory is fixed: arrays with their counts, each of which `AccountForm` names.
#[derive(Clone, Copy, Drop)]
pub struct Account {
    pub state: State,
    pub progress: [Slot; Account::PLACES],
    pub progressing: usize,
    pub held: [Slot; Account::PLACES],
    pub holding: usize,
}

// What the outcome question tells: the state, and the number of undecided events applied in it (11.2).
#[derive(Clone, Copy, Drop)]
pub struct Outlook {
    pub state: State,
    pub applied: u32,
}

impl Account {
    // The places of each row, of events in progress and of requests held.
    pub const PLACES: usize = Slot::PLACES;

    // The limits: events in progress, requests held.
    pub const PROGRESS: usize = Account::PLACES;

    pub const HELD: usize = Account::PLACES;

    pub const LIMIT: u32 = State::LIMIT;

    // A new account, with nothing in progress or held.
    pub const FRESH: Account = Account {
        state: State::NEW,
        progress: [Slot::BLANK; Account::PLACES],
        progressing: 0,
        held: [Slot::BLANK; Account::PLACES],
        holding: 0,
    };
}
