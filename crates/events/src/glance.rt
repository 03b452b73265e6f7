// What weighing knows of the outcomes: the range of one, of those after an event, and of two lots together; and what it tells of an event's guard in all of them.
ghost use Rattle.std.specs.Prelude.{◌≡◌};
ghost use Rattle.events.specs.Range.{range_of_one, alone, occurs, stored_after, stored_perhaps, every_in, some_in};

use crate::condition::Condition;
use crate::{Event, Life, Range, State, more};

impl Range {
    // The range of one outcome.
    pub fn of(state: State) -> Range
        ensures { result ≡ range_of_one state }
    {
        let opened = state.life.is_opened();
        let balance = if opened { state.balance } else { 0 };
        Range {
            lowest: balance,
            highest: balance,
            new: state.life.is_new(),
            opened,
            closed: state.life.is_closed(),
        }
    }

    // Whether this life occurs.
    fn has(self, life: Life) -> bool
        ensures { result ≡ occurs life self }
    {
        match life {
            Life::New => self.new,
            Life::Opened => self.opened,
            Life::Closed => self.closed,
        }
    }

    // Whether no life occurs but this one.
    fn has_only(self, life: Life) -> bool
        ensures { result ≡ alone life self }
    {
        match life {
            Life::New => !(self.opened | self.closed),
            Life::Opened => !(self.new | self.closed),
            Life::Closed => !(self.new | self.opened),
        }
    }

    // Whether the guard holds in every outcome: no life occurs but the one that it asks, and it takes all balances.
    // Here and below `&` and `|` ask all tests with no branch between them.
    pub fn every(self, event: Event) -> bool
        ensures { result ≡ every_in event self }
    {
        let asked = Condition::of(event);
        self.has_only(asked.life) & asked.possible & asked.takes(self.lowest, self.highest)
    }

    // Whether the guard holds in some outcome: the life that it asks occurs, and it takes one of the balances.
    pub fn some(self, event: Event) -> bool
        ensures { result ≡ some_in event self }
    {
        let asked = Condition::of(event);
        self.has(asked.life) & asked.possible & asked.takes(self.highest, self.lowest)
    }

    // The range after an event that is applied in every outcome; said of events whose guard holds in all of them.
    pub fn after(self, event: Event) -> Range
        ensures { result ≡ stored_after event self }
    {
        let moved = |balance: u32| event.applied(State {
            life: Life::Opened,
            balance,
        });
        let low = moved(self.lowest);
        let high = moved(self.highest);
        Range {
            lowest: low.balance,
            highest: high.balance,
            ..Range::of(low)
        }
    }

    // The range with an event that is applied in one half of the outcomes: in one look at the event, what it adds to the range as it is.
    pub fn perhaps(self, event: Event) -> Range
        ensures { result ≡ stored_perhaps event self }
    {
        match event {
            Event::Open(amount) => Range {
                lowest: if self.opened {
                    self.lowest.min(amount)
                } else {
                    amount
                },
                highest: self.highest.max(amount),
                opened: true,
                ..self
            },
            Event::Withdraw(amount) => Range {
                lowest: self.lowest.saturating_sub(amount),
                opened: true,
                ..self
            },
            Event::Deposit(amount) => Range {
                lowest: if self.opened {
                    self.lowest
                } else {
                    more(self.lowest, amount)
                },
                highest: more(self.highest, amount),
                opened: true,
                ..self
            },
            Event::Close => Range {
                lowest: if self.opened { self.lowest } else { 0 },
                closed: true,
                ..self
            },
        }
    }
}
