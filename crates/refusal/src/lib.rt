// Why something is not taken, with the numbers that callers are told (docs/REGISTER.md, 10.1).
#![tactic(auto)]

ghost use Rattle.std.specs.Prelude.{ℕ, ◌≡◌};
ghost use Rattle.refusal.specs.Numbers.{number_of, itself};

// What a refusal is told by: a number. A refusal has its own, and a number is told as itself.
pub trait Numbered: Copy + Drop {
    ghost number_is: { Self → ℕ };

    // The number that a caller is told.
    fn told(self) -> u8
        ensures { result ≡ number_is self };
}

// Each refusal has its number.
#[derive(Clone, Copy, PartialEq, Eq, Drop)]
pub enum Refusal {
    Torn = 1,
    UnknownKind = 2,
    UnknownAccount = 3,
    NoRoom = 4,
    NotInOrder = 5,
    KnownTransaction = 6,
    AllHeld = 7,
    UnknownTransaction = 8,
    HeldTransaction = 9,
    CommittedAlready = 10,
    CommittedBefore = 11,
    NoSuchOutcome = 12,
}

impl Refusal {
    // The number that a caller is told.
    pub fn number(self) -> u8
        ensures { result ≡ number_of self }
    {
        self as u8
    }
}

impl Numbered for Refusal {
    ghost number_is = { number_of };

    fn told(self) -> u8 {
        self.number()
    }
}

impl Numbered for u8 {
    ghost number_is = { itself };

    fn told(self) -> u8 {
        self
    }
}
