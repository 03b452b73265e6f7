// The events of an account: what each asks of a state and does to it, its kind and amount, and what weighing knows of outcomes. An event is taken apart in this crate alone.
#![tactic(auto)]

mod condition;
mod glance;
mod reasons;

ghost use Rattle.std.specs.Prelude.{◌≡◌, cond, ◌+◌, ◌-◌, leb};
ghost use Rattle.events.specs.Events.{is_new, is_opened, is_closed, guard_of, effect_of, state_fits, is_blank_event};
ghost use Rattle.events.specs.Kinds.{event_kind, amount_of, event_of};
ghost use Rattle.events.specs.Condition.{most};
ghost use Rattle.events.specs.Range.{stored_effect};

pub use reasons::Reason;

// An event, with its amount of adjustment steps.
#[derive(Clone, Copy, PartialEq, Eq, Drop)]
pub enum Event {
    Open(u32),
    Withdraw(u32),
    Deposit(u32),
    Close,
}

#[derive(Clone, Copy, PartialEq, Eq, Drop)]
pub enum Life {
    New,
    Opened,
    Closed,
}

// The applied state of an account.
#[derive(Clone, Copy, PartialEq, Eq, Drop)]
pub struct State {
    pub life: Life,
    pub balance: u32,
}

// What is known of many states at a glance: the lowest and the highest balance among the opened ones, 0 where none is, and which lives occur.
// The lives stay three fields, and the balances stand beside `opened`: `GlanceHolds` and the rows of `Literal` name them one by one.
#[derive(Clone, Copy, Drop)]
pub struct Range {
    pub lowest: u32,
    pub highest: u32,
    pub new: bool,
    pub opened: bool,
    pub closed: bool,
}

impl State {
    // The highest balance.
    pub const LIMIT: u32 = 1_000_000;

    // The state of a new account.
    pub const NEW: State = State {
        life: Life::New,
        balance: 0,
    };

    // Whether the balance is within the limit, and 0 unless the account is opened.
    pub fn fits(self) -> bool
        ensures { result ≡ state_fits self }
    {
        (self.balance <= State::LIMIT) & (self.life.is_opened() | (self.balance == 0))
    }
}

impl Event {
    // The event of a blank place.
    pub const BLANK: Event = Event::Open(0);

    // Whether the event may be applied in this state: nothing is against it.
    #[tactic(auto, unfolding(crate::specs::Events::guard_of))]
    pub fn guard(self, state: State) -> bool
        ensures { result ≡ guard_of self state }
    {
        self.reason(state).is_none()
    }

    // The state after the event; the same state where its guard fails.
    #[tactic(auto, using(crate::proofs::Guards::effect_stored), unfolding(crate::specs::Events::effect_of))]
    pub fn effect(self, state: State) -> State
        ensures { result ≡ effect_of self state }
    {
        if self.guard(state) {
            self.applied(state)
        } else {
            state
        }
    }

    // The state after the event by the table, whatever its guard says; a balance too high for its four bytes is left as it is.
    pub(crate) fn applied(self, state: State) -> State
        ensures { result ≡ stored_effect self state }
    {
        match self {
            Event::Open(amount) => State {
                life: Life::Opened,
                balance: amount,
            },
            Event::Withdraw(amount) => State {
                balance: state.balance.saturating_sub(amount),
                ..state
            },
            Event::Deposit(amount) => State {
                balance: more(state.balance, amount),
                ..state
            },
            Event::Close => State {
                life: Life::Closed,
                balance: 0,
            },
        }
    }

    // The kind of the event in messages and entries.
    // A variant with an amount has no number of its own that `as` would give.
    pub fn kind(self) -> u8
        ensures { result ≡ event_kind self }
    {
        match self {
            Event::Open(_) => 1,
            Event::Withdraw(_) => 2,
            Event::Deposit(_) => 3,
            Event::Close => 4,
        }
    }

    // The amount of the event; 0 where it has none, and no Option, as `amount_of` and the bytes have it.
    pub fn amount(self) -> u32
        ensures { result ≡ amount_of self }
    {
        match self {
            Event::Open(amount) | Event::Withdraw(amount) | Event::Deposit(amount) => amount,
            Event::Close => 0,
        }
    }

    // The event of a kind and an amount; a kind that is none of 1 to 3 counts as 4.
    // No TryFrom, which could fail: the definition `event_of` says what every number counts as.
    #[tactic(auto, unfolding(crate::specs::Kinds::event_of))]
    pub fn of(kind: u8, amount: u32) -> Event
        ensures { result ≡ event_of kind amount }
    {
        match kind {
            1 => Event::Open(amount),
            2 => Event::Withdraw(amount),
            3 => Event::Deposit(amount),
            _ => Event::Close,
        }
    }

    // Whether the event is a blank place's.
    pub fn is_blank(self) -> bool
        ensures { result ≡ is_blank_event self }
    {
        self == Event::BLANK
    }
}

impl Life {
    // Whether the account is new.
    pub fn is_new(self) -> bool
        ensures { result ≡ is_new self }
    {
        matches!(self, Life::New)
    }

    // Whether the account is opened.
    pub fn is_opened(self) -> bool
        ensures { result ≡ is_opened self }
    {
        matches!(self, Life::Opened)
    }

    // Whether the account is closed.
    pub fn is_closed(self) -> bool
        ensures { result ≡ is_closed self }
    {
        matches!(self, Life::Closed)
    }
}

// The balance and an amount; the balance alone where they are too many for four bytes. The library's `checked_add`, asked at three places.
pub(crate) fn more(balance: u32, amount: u32) -> u32
    ensures { result ≡ cond (leb (balance + amount) most) (balance + amount) balance }
{
    balance.checked_add(amount).unwrap_or(balance)
}
