// The reasons against an event in a state (docs/REGISTER.md, 3.4).
ghost use Rattle.std.specs.Prelude.{◌≡◌};
ghost use Rattle.events.specs.Events.{reason_of, reason_byte};
ghost use Rattle.events.specs.Reasons.{number_of, numbers_of, told_by};

use crate::{Event, Life, State};

// Why an event may not be applied in a state, with its number in entries; the first that applies counts.
#[derive(Clone, Copy, PartialEq, Eq, Drop)]
pub enum Reason {
    WrongLife = 1,
    ZeroAmount = 2,
    TooFew = 3,
    OverLimit = 4,
}

impl Reason {
    // The number of the reason in entries.
    pub fn number(self) -> u8
        ensures { result ≡ number_of self }
    {
        self as u8
    }
}

impl Event {
    // The reason against the event in this state, if there is one.
    #[tactic(auto, unfolding(crate::specs::Events::reason_of))]
    pub fn reason(self, state: State) -> Option<Reason>
        ensures reason { result ≡ told_by (reason_of self state) }
        ensures numbers { numbers_of result ≡ reason_of self state }
    {
        let asked = match self {
            Event::Open(_) => Life::New,
            Event::Withdraw(_) | Event::Deposit(_) | Event::Close => Life::Opened,
        };
        if state.life != asked {
            return Some(Reason::WrongLife);
        }
        match self {
            Event::Withdraw(0) | Event::Deposit(0) => Some(Reason::ZeroAmount),
            Event::Withdraw(amount) if state.balance < amount => Some(Reason::TooFew),
            Event::Open(amount) if State::LIMIT < amount => Some(Reason::OverLimit),
            Event::Deposit(amount) if State::LIMIT < state.balance.saturating_add(amount) => {
                Some(Reason::OverLimit)
            }
            _ => None,
        }
    }

    // The reason by its number; 0 where there is none: a byte, as `Weighing` and the entries have it.
    pub fn reason_byte(self, state: State) -> u8
        ensures { result ≡ reason_byte (reason_of self state) }
    {
        self.reason(state).map_or(0, Reason::number)
    }
}
