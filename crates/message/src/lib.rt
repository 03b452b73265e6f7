// A message, its reader and its writer.
#![tactic(auto)]

mod kinds;

ghost use Rattle.std.specs.Prelude.{◌≡◌};
ghost use Rattle.layout.specs.Fields.{row_of_kind, whole_of};
ghost use Rattle.layout.specs.Shapes.{padded};
ghost use Rattle.message.specs.Bytes.{messages, kind_of, heading_of, amount_in, numbers_of};
ghost use Rattle.message.specs.Answers.{read_of, write_of};

use events::Event;
use filing::Filed;
use kinds::Kind;
use refusal::Refusal;

// What every message brings.
#[derive(Clone, Copy, Drop)]
pub struct Heading {
    pub transaction: u32,
    pub account: u16,
    pub filed: Filed,
}

#[derive(Clone, Copy, Drop)]
pub enum Message {
    Request(Heading, Event),
    Commit(Heading),
    Abort(Heading),
}

// The message that the bytes begin with, and its length; bytes after it are not looked at.
pub fn read_message(bytes: &[u8]) -> Result<(Message, usize), Refusal>
    ensures { result ≡ read_of bytes.now }
{
    let first = bytes.first().ok_or(Refusal::Torn)?;
    let kind = Kind::try_from(*first)?;
    let shape = kind.shape();
    if bytes.len() < shape.whole {
        return Err(Refusal::Torn);
    }
    let numbers = layout::read_numbers(bytes, shape.widths);
    if numbers[2] > layout::LAST_ACCOUNT as u32 {
        return Err(Refusal::UnknownAccount);
    }
    let heading = Heading {
        transaction: numbers[1],
        account: numbers[2] as u16,
        filed: layout::filed_from(numbers),
    };
    Ok((kind.message(heading, numbers[4]), shape.whole))
}

// Writes a message to the beginning of a buffer.
pub fn write_message(message: Message, buffer: &mut [u8]) -> Result<usize, Refusal>
    ensures answer { result ≡ (write_of message buffer.old).answer }
    ensures buffer { buffer.new ≡ (write_of message buffer.old).buffer }
{
    if layout::LAST_ACCOUNT < message.heading().account {
        return Err(Refusal::UnknownAccount);
    }
    let shape = kinds::shape_of(message.kind());
    if buffer.len() < shape.whole {
        return Err(Refusal::NoRoom);
    }
    layout::put_numbers(buffer, 0, shape.widths, message.numbers());
    Ok(shape.whole)
}

// The whole length of a message of a kind, and 0 for a kind that is none of 1 to 6, as `whole_of` has it: a run asks it of any byte.
pub fn whole_length(kind: u8) -> usize
    ensures { result ≡ whole_of (row_of_kind messages kind) }
{
    kinds::shape_of(kind).whole
}

// The number of the account that a message names.
pub fn account_of(message: Message) -> u16
    ensures { result ≡ (heading_of message).account }
{
    message.heading().account
}

impl Message {
    // The number of the message's kind: a request has that of its event, which is taken apart in `events` alone.
    fn kind(self) -> u8
        ensures { result ≡ kind_of self }
    {
        match self {
            Message::Request(_, event) => event.kind(),
            Message::Commit(_) => Kind::Commit.number(),
            Message::Abort(_) => Kind::Abort.number(),
        }
    }

    // What every message brings.
    fn heading(self) -> Heading
        ensures { result ≡ heading_of self }
    {
        match self {
            Message::Request(heading, _) | Message::Commit(heading) | Message::Abort(heading) =>
                heading,
        }
    }

    // The amount of the message, 0 where it has none, as the row of numbers has it.
    fn amount(self) -> u32
        ensures { result ≡ amount_in self }
    {
        match self {
            Message::Request(_, event) => event.amount(),
            Message::Commit(_) | Message::Abort(_) => 0,
        }
    }

    // The row of numbers of the message.
    fn numbers(self) -> [u32; layout::FIELDS]
        ensures { result ≡ padded (numbers_of self) }
    {
        let heading = self.heading();
        let mut numbers = layout::heading_numbers(
            self.kind(),
            heading.transaction,
            heading.account,
            heading.filed,
        );
        numbers[4] = self.amount();
        numbers
    }
}
