// The guards as a row for each event: what it asks of a state.
ghost use Rattle.std.specs.Prelude.{◌≡◌};
ghost use Rattle.events.specs.Condition.{condition_of, takes};

use crate::{Event, Life, State};

// What an event asks: that its amount is possible at all, a life, and a balance on one side of a bound.
#[derive(Clone, Copy, Drop)]
pub(crate) struct Condition {
    // A flag, and no Option: all tests of a guard are asked with no branch between them.
    pub(crate) possible: bool,
    pub(crate) life: Life,
    bound: Bound,
}

// A bound of a balance. It goes one way only, so that of many balances the lowest or the highest tells of all of them, and the other one whether there is any.
#[derive(Clone, Copy, Drop)]
enum Bound {
    AtLeast(u32),
    AtMost(u32),
}

impl Condition {
    // What the event asks.
    pub(crate) fn of(event: Event) -> Condition
        ensures { result ≡ condition_of event }
    {
        match event {
            Event::Open(amount) => Condition {
                possible: amount <= State::LIMIT,
                life: Life::New,
                bound: Bound::AtLeast(0),
            },
            Event::Withdraw(amount) => Condition {
                possible: 1 <= amount,
                life: Life::Opened,
                bound: Bound::AtLeast(amount),
            },
            Event::Deposit(amount) => Condition {
                possible: (1 <= amount) & (amount <= State::LIMIT),
                life: Life::Opened,
                bound: Bound::AtMost(State::LIMIT.saturating_sub(amount)),
            },
            Event::Close => Condition {
                possible: true,
                life: Life::Opened,
                bound: Bound::AtLeast(0),
            },
        }
    }

    // Whether every balance from the lowest to the highest is as it asks; with the two exchanged, whether one of them is.
    pub(crate) fn takes(self, lowest: u32, highest: u32) -> bool
        ensures { result ≡ takes self lowest highest }
    {
        match self.bound {
            Bound::AtLeast(bound) => bound <= lowest,
            Bound::AtMost(bound) => highest <= bound,
        }
    }
}
