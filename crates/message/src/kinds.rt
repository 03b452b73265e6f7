// The kinds of messages and how each lies in bytes.
ghost use Rattle.std.specs.Prelude.{◌≡◌};
ghost use Rattle.layout.specs.Fields.{row_of_kind};
ghost use Rattle.layout.specs.Shapes.{shape_of};
ghost use Rattle.message.specs.Bytes.{messages, message_by};
ghost use Rattle.message.specs.Kinds.{number_in, kind_numbered};

use crate::{Heading, Message};
use events::Event;
use layout::Shape;
use refusal::Refusal;

// Each kind has its number, which stands in the first byte.
#[derive(Clone, Copy, PartialEq, Eq, Drop)]
pub(crate) enum Kind {
    Open = 1,
    Withdraw = 2,
    Deposit = 3,
    Close = 4,
    Commit = 5,
    Abort = 6,
}

impl TryFrom<u8> for Kind {
    type Error = Refusal;

    ghost try_from_gives = { λ number r. r ≡ kind_numbered number };

    fn try_from(number: u8) -> Result<Kind, Refusal> {
        match number {
            1 => Ok(Kind::Open),
            2 => Ok(Kind::Withdraw),
            3 => Ok(Kind::Deposit),
            4 => Ok(Kind::Close),
            5 => Ok(Kind::Commit),
            6 => Ok(Kind::Abort),
            _ => Err(Refusal::UnknownKind),
        }
    }
}

impl Kind {
    // The number of the kind.
    pub(crate) fn number(self) -> u8
        ensures { result ≡ number_in self }
    {
        self as u8
    }

    // The heading, and the amount where there is one.
    #[tactic(auto, unfolding(layout::specs::Fields::row_of_kind, crate::specs::Bytes::messages))]
    pub(crate) fn shape(self) -> Shape
        ensures { result ≡ shape_of (row_of_kind messages (number_in self)) }
    {
        match self {
            Kind::Open | Kind::Withdraw | Kind::Deposit => WITH_AMOUNT,
            Kind::Close | Kind::Commit | Kind::Abort => HEADING_ALONE,
        }
    }

    // The message of the kind: a request is one of an event.
    #[tactic(auto, unfolding(crate::specs::Bytes::message_by))]
    pub(crate) fn message(self, heading: Heading, amount: u32) -> Message
        ensures { result ≡ message_by (number_in self) heading amount }
    {
        match self {
            Kind::Commit => Message::Commit(heading),
            Kind::Abort => Message::Abort(heading),
            _ => Message::Request(heading, Event::of(self.number(), amount)),
        }
    }
}

const WITH_AMOUNT: Shape = Shape {
    widths: [1, 4, 2, 4, 4, 0, 0, 0, 0, 0],
    whole: 15,
};

const HEADING_ALONE: Shape = Shape {
    widths: [1, 4, 2, 4, 0, 0, 0, 0, 0, 0],
    whole: 11,
};

// The shape of a kind by its number; that of none where no kind has the number.
#[tactic(auto, unfolding(layout::specs::Fields::row_of_kind, crate::specs::Bytes::messages))]
pub(crate) fn shape_of(number: u8) -> Shape
    ensures { result ≡ shape_of (row_of_kind messages number) }
{
    Kind::try_from(number).map_or(Shape::NONE, Kind::shape)
}
