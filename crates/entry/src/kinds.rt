// The kinds of entries, how each lies in bytes, and an entry as a row of numbers.
ghost use Rattle.std.specs.Prelude.{◌<◌, ◌≡◌, get_or};
ghost use Rattle.layout.specs.Fields.{row_of_kind};
ghost use Rattle.layout.specs.Shapes.{padded, shape_of};
ghost use Rattle.entry.specs.Answers.{event_in, told_in};
ghost use Rattle.entry.specs.Bytes.{entry_rows, kind_of, numbers_of};
ghost use Rattle.entry.specs.Kinds.{kind_numbered, number_in};
ghost use Rattle.entry.specs.Numbers.{reason_only, then_in, voted_in, with_event};

use events::Event;
use filing::{Entry, Told, Verdict, Weighing};
use layout::Shape;
use refusal::Refusal;

// Each kind has its number, which stands in the first byte. A rejection was once written without its reason: that kind is read and not written.
#[derive(Clone, Copy, PartialEq, Eq, Drop)]
pub(crate) enum Kind {
    Accepted = 17,
    OlderRejected = 18,
    Held = 19,
    Noted = 20,
    Applied = 21,
    Dropped = 22,
    Rejected = 23,
}

impl TryFrom<u8> for Kind {
    type Error = Refusal;

    ghost try_from_gives = { λ number r. r ≡ kind_numbered number };

    fn try_from(number: u8) -> Result<Kind, Refusal> {
        match number {
            17 => Ok(Kind::Accepted),
            18 => Ok(Kind::OlderRejected),
            19 => Ok(Kind::Held),
            20 => Ok(Kind::Noted),
            21 => Ok(Kind::Applied),
            22 => Ok(Kind::Dropped),
            23 => Ok(Kind::Rejected),
            _ => Err(Refusal::UnknownKind),
        }
    }
}

// The kind in which an entry that tells this is written.
impl From<Told> for Kind {
    ghost from_gives = { λ told kind. number_in kind ≡ kind_of told };

    fn from(told: Told) -> Kind {
        match told {
            Told::Voted(_, weighing) => match weighing.verdict {
                Verdict::Accepted => Kind::Accepted,
                Verdict::Rejected => Kind::Rejected,
                Verdict::Held => Kind::Held,
            },
            Told::Noted => Kind::Noted,
            Told::Applied(..) => Kind::Applied,
            Told::Dropped(_) => Kind::Dropped,
        }
    }
}

impl Kind {
    // The number of the kind.
    pub(crate) fn number(self) -> u8
        ensures { result ≡ number_in self }
    {
        self as u8
    }

    // The heading; then event kind and amount; then outcomes weighed, or balance; then the reason of a rejection.
    #[tactic(auto, unfolding(layout::specs::Fields::row_of_kind, crate::specs::Bytes::entry_rows))]
    pub(crate) fn shape(self) -> Shape
        ensures { result ≡ shape_of (row_of_kind entry_rows (number_in self)) }
    {
        match self {
            Kind::Accepted | Kind::OlderRejected | Kind::Held => VOTE,
            Kind::Rejected => REJECTED,
            Kind::Noted => NOTED,
            Kind::Applied => APPLIED,
            Kind::Dropped => DROPPED,
        }
    }

    // What an entry of the kind tells by its numbers, of which the reason is a byte; nothing where there is no such event.
    #[tactic(auto, unfolding(crate::specs::Bytes::told_by, crate::specs::Bytes::verdict_by))]
    pub(crate) fn told(self, numbers: [u32; layout::FIELDS]) -> Option<Told>
        requires { get_or numbers 7 0 < 256 }
        ensures { result ≡ told_in (number_in self) numbers }
    {
        match self {
            Kind::Accepted => voted(Verdict::Accepted, numbers),
            Kind::OlderRejected | Kind::Rejected => voted(Verdict::Rejected, numbers),
            Kind::Held => voted(Verdict::Held, numbers),
            Kind::Noted => Some(Told::Noted),
            Kind::Applied => Some(Told::Applied(event(numbers[4], numbers[5])?, numbers[6])),
            Kind::Dropped => Some(Told::Dropped(event(numbers[4], numbers[5])?)),
        }
    }
}

// The vote of that verdict by the numbers of its entry.
fn voted(verdict: Verdict, numbers: [u32; layout::FIELDS]) -> Option<Told>
    requires { get_or numbers 7 0 < 256 }
    ensures { result ≡ voted_in verdict numbers }
{
    let weighing = Weighing {
        verdict,
        weighed: numbers[6],
        reason: numbers[7] as u8,
    };
    Some(Told::Voted(event(numbers[4], numbers[5])?, weighing))
}

// The event of a kind and an amount, if there is one: a close has the amount 0. The kind is a number of the row.
#[tactic(auto, unfolding(events::specs::Kinds::event_of))]
fn event(kind: u32, amount: u32) -> Option<Event>
    ensures { result ≡ event_in kind amount }
{
    match kind {
        1..=3 => Some(Event::of(kind as u8, amount)),
        4 if amount == 0 => Some(Event::Close),
        _ => None,
    }
}

const VOTE: Shape = Shape {
    widths: [1, 4, 2, 4, 1, 4, 2, 0, 0, 0],
    whole: 18,
};

const REJECTED: Shape = Shape {
    widths: [1, 4, 2, 4, 1, 4, 2, 1, 0, 0],
    whole: 19,
};

const NOTED: Shape = Shape {
    widths: [1, 4, 2, 4, 0, 0, 0, 0, 0, 0],
    whole: 11,
};

const APPLIED: Shape = Shape {
    widths: [1, 4, 2, 4, 1, 4, 4, 0, 0, 0],
    whole: 20,
};

const DROPPED: Shape = Shape {
    widths: [1, 4, 2, 4, 1, 4, 0, 0, 0, 0],
    whole: 16,
};

// What follows the heading of an entry.
#[derive(Clone, Copy, Drop)]
pub(crate) struct Then {
    pub(crate) event: u32,
    pub(crate) amount: u32,
    pub(crate) number: u32,
    pub(crate) reason: u32,
}

// The row of numbers of an entry of that account.
pub(crate) fn numbers_of(entry: Entry, account: u16) -> [u32; layout::FIELDS]
    ensures { result ≡ padded (numbers_of account entry) }
{
    let kind = Kind::from(entry.told).number();
    let mut numbers = layout::heading_numbers(kind, entry.transaction, account, entry.filed);
    let then = then_of(entry.told);
    numbers[4] = then.event;
    numbers[5] = then.amount;
    numbers[6] = then.number;
    numbers[7] = then.reason;
    numbers
}

// What follows the heading, 0 where there is no such number, as the row of numbers has it.
fn then_of(told: Told) -> Then
    ensures { result ≡ then_in told }
{
    match told {
        Told::Voted(event, weighing) => {
            with_event(event, weighing.weighed, reason_only(weighing))
        }
        Told::Noted => Then {
            event: 0,
            amount: 0,
            number: 0,
            reason: 0,
        },
        Told::Applied(event, balance) => with_event(event, balance, 0),
        Told::Dropped(event) => with_event(event, 0, 0),
    }
}

// The reason of a rejection; 0 for any other vote.
fn reason_only(weighing: Weighing) -> u32
    ensures { result ≡ reason_only weighing.verdict weighing.reason }
{
    match weighing.verdict {
        Verdict::Accepted | Verdict::Held => 0,
        Verdict::Rejected => weighing.reason as u32,
    }
}

// An event's kind and amount, and the numbers that follow it: all numbers, since they become a part of the row.
fn with_event(event: Event, number: u32, reason: u32) -> Then
    ensures { result ≡ with_event event number reason }
{
    Then {
        event: event.kind() as u32,
        amount: event.amount(),
        number,
        reason,
    }
}
