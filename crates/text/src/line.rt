// An entry's line of text, and the pieces that every line is made of.
ghost use Rattle.std.specs.Prelude.{ℕ, List, [], ◌∷◌, ◌++◌, ◌≡◌, ◌<◌, ◌≤◌, length, take};
ghost use Rattle.events.specs.Kinds.{amount_of};
ghost use Rattle.text.specs.Text.{decimal, event_name, spaced, line_as, longest_line, kept, write_line_of};

use crate::{LONGEST_LINE, words};
use entry::Found;
use events::Event;
use filing::{Entry, Told, Verdict, Weighing};
use refusal::Refusal;
use std::marker::Model;

// Writes the line of an entry as it was found to the beginning of a buffer: of a rejection in kind 18 without a reason.
#[tactic(auto, using(crate::proofs::Lines::line_stored), unfolding(crate::specs::Text::write_line_of))]
pub fn write_line(found: Found, buffer: &mut [u8]) -> Result<usize, Refusal>
    ensures answer { result ≡ (write_line_of found.entry found.kind found.account buffer.old).answer }
    ensures buffer { buffer.new ≡ (write_line_of found.entry found.kind found.account buffer.old).buffer }
{
    if buffer.len() < LONGEST_LINE {
        return Err(Refusal::NoRoom);
    }
    let line = Line::of(found.entry, found.kind == 18, found.account);
    layout::store(buffer, 0, line.as_slice());
    Ok(line.len())
}

// A line as it grows, in fixed memory: a byte that is past the longest line is not kept.
#[derive(Drop)]
pub(crate) struct Line {
    letters: [u8; LONGEST_LINE],
    length: usize,
}

impl Model for Line {
    ghost Value = { List ℕ };

    ghost view = { λ line. take line.length line.letters };

    ghost invariant = { λ line. line.length ≤ longest_line };
}

impl Line {
    // The line of an entry of that account, with the reason of a rejection or, of an older one, without it.
    pub(crate) fn of(entry: Entry, older: bool, account: u16) -> Line
        ensures { result ≡ line_as older account entry }
    {
        let mut line = Line::new();
        line.put(words::name(entry.told));
        line.put_number(entry.transaction);
        line.put_number(u32::from(account));
        line.put_number(entry.filed.second);
        match entry.told {
            Told::Voted(event, vote) => {
                let Weighing {
                    verdict,
                    weighed,
                    reason,
                } = vote;
                line.put_event(event);
                line.put_number(weighed);
                if verdict == Verdict::Rejected && !older {
                    line.put_reason(reason);
                }
            }
            Told::Noted => {}
            Told::Applied(event, balance) => {
                line.put_event(event);
                line.put_number(balance);
            }
            Told::Dropped(event) => line.put_event(event),
        }
        line.put(b"\n");
        line
    }

    // An empty line.
    pub(crate) fn new() -> Line
        ensures { result ≡ [] }
    {
        Line {
            letters: [0; LONGEST_LINE],
            length: 0,
        }
    }

    // How many letters it has.
    pub(crate) fn len(&self) -> usize
        ensures length { result ≡ length self.now }
        ensures room { result ≤ longest_line }
    {
        self.length
    }

    // Its letters.
    pub(crate) fn as_slice(&self) -> &[u8]
        ensures { result.now ≡ self.now }
    {
        &self.letters[..self.length]
    }

    // Letters behind those that it has.
    #[tactic(auto, using(crate::proofs::Texts::letters_put))]
    pub(crate) fn put(&mut self, letters: &[u8])
        ensures { self.new ≡ kept (self.old ++ letters.now) }
    {
        let count = letters.len().min(LONGEST_LINE - self.length);
        self.letters[self.length..self.length + count].copy_from_slice(&letters[..count]);
        self.length += count;
    }

    // A letter behind those that it has: in one step, where `put` copies.
    #[tactic(auto, using(crate::proofs::Texts::letter_put, crate::proofs::Texts::letter_past))]
    fn push(&mut self, letter: u8)
        ensures { self.new ≡ kept (self.old ++ (letter ∷ [])) }
    {
        if self.length < LONGEST_LINE {
            self.letters[self.length] = letter;
            self.length += 1;
        }
    }

    // A space and a number.
    #[tactic(auto, using(crate::proofs::Texts::field_grown))]
    pub(crate) fn put_number(&mut self, number: u32)
        ensures { self.new ≡ kept (self.old ++ spaced (decimal number ∷ [])) }
    {
        self.push(b' ');
        self.put_decimal(number);
    }

    // A space and a reason, which is a byte, so that it has three digits at most.
    fn put_reason(&mut self, reason: u8)
        ensures line { self.new ≡ kept (self.old ++ spaced (decimal reason ∷ [])) }
        ensures byte { reason < 256 }
    {
        self.put_number(u32::from(reason));
    }

    // The digits of a number, not by `write!`: that promises its text on `Ok` alone, and nothing says that it comes to `Ok`, while a line is never refused where it has room.
    fn put_decimal(&mut self, number: u32)
        ensures { self.new ≡ kept (self.old ++ decimal number) }
    {
        if 10 <= number {
            self.put_decimal(number / 10);
        }
        self.push(b'0' + (number % 10) as u8);
    }

    // An event's name and amount.
    #[tactic(auto, using(crate::proofs::Texts::event_grown))]
    fn put_event(&mut self, event: Event)
        ensures { self.new ≡ kept (self.old ++ spaced (event_name event ∷ decimal (amount_of event) ∷ [])) }
    {
        self.push(b' ');
        self.put(words::event_name(event));
        self.put_number(event.amount());
    }
}
