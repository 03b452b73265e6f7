// One message: it is sent to the register, and the lines of its entries, or that of its refusal, are stored at the beginning of a buffer.
ghost use Rattle.std.specs.Prelude.{◌≡◌};
ghost use Rattle.refusal.specs.Numbers.{number_of};
ghost use Rattle.entry.specs.Bytes.{list_of};
ghost use Rattle.text.specs.Text.{lines_of, Put};
ghost use Rattle.text.specs.Output.{refused_line, turn_at};
ghost use Rattle.text.specs.Program.{longest_text};
ghost use Rattle.text.specs.Turned.{Sends};

use crate::line::Line;
use filing::Entries;
use refusal::Refusal;
use register::{Register, Taken};

// What a message came to: the reply, and how long its text is.
#[derive(Clone, Copy, Drop)]
pub(crate) struct Turned {
    pub(crate) reply: Result<Taken, Refusal>,
    pub(crate) written: usize,
}

// Sends the message that the bytes begin with to the register. The bytes of its entries are not written.
pub(crate) fn turn(register: &mut Register, bytes: &[u8], out: &mut [u8]) -> Turned
    ensures register { register.new ≡ (turn_at register.old bytes.now).register }
    ensures reply { result.reply ≡ (turn_at register.old bytes.now).reply }
    ensures text { Put (turn_at register.old bytes.now).text 0 longest_text out.old result.written out.new }
{
    match sent(register, bytes) {
        Ok((entries, account, consumed)) => Turned {
            reply: Ok(Taken {
                consumed,
                written: 0,
            }),
            written: put_lines(out, entries, account),
        },
        Err(refusal) => Turned {
            reply: Err(refusal),
            written: put_refusal(out, refusal),
        },
    }
}

// Reads a message and sends it: its entries, their account, and the length of the message.
#[tactic(auto, unfolding(crate::specs::Output::turn_at))]
fn sent(register: &mut Register, bytes: &[u8]) -> Result<(Entries, u16, usize), Refusal>
    ensures register { register.new ≡ (turn_at register.old bytes.now).register }
    ensures answer { Sends result (turn_at register.old bytes.now) }
{
    let (message, consumed) = message::read_message(bytes)?;
    let entries = register.send(message)?;
    Ok((entries, message::account_of(message), consumed))
}

// Stores the line of a refusal.
#[tactic(auto, using(crate::proofs::Pieces::refusal_grown, crate::proofs::Pieces::put_stored))]
fn put_refusal(out: &mut [u8], refusal: Refusal) -> usize
    ensures { Put (refused_line (number_of refusal)) 0 longest_text out.old result out.new }
{
    let mut line = Line::new();
    line.put(b"refused");
    line.put_number(u32::from(refusal.number()));
    line.put(b"\n");
    layout::store(out, 0, line.as_slice());
    line.len()
}

// Stores the lines of the entries of that account.
fn put_lines(out: &mut [u8], entries: Entries, account: u16) -> usize
    ensures { Put (lines_of account (list_of entries)) 0 longest_text out.old result out.new }
{
    let mut at = 0;
    for entry in entries.as_slice() {
        let line = Line::of(*entry, false, account);
        layout::store(out, at, line.as_slice());
        at += line.len();
    }
    at
}
