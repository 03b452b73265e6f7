// A run of messages: they are sent to a fresh register one after the other, as the program does (docs/REGISTER.md, 11.5).
ghost use Rattle.std.specs.Prelude.{◌≡◌};
ghost use Rattle.register.specs.First.{run_of};
ghost use Rattle.register.specs.Run.{number_with, passed_over, passed_with, one, added};
ghost use Rattle.register.specs.Helpers.{Countable};

use crate::{Register, Taken};
use refusal::Numbered;

// What a run comes to: messages met, messages refused, bytes of messages passed, bytes of entries written. Each is a count.
#[derive(Clone, Copy, Default, PartialEq, Eq, Drop)]
pub struct Ran {
    pub met: usize,
    pub refused: usize,
    pub consumed: usize,
    pub written: usize,
}

// What one message comes to, and whether nothing more is read after it. Counts beside a flag: a run adds them up whatever the case, and `PassedForm` names each.
#[derive(Clone, Copy, PartialEq, Eq, Drop)]
pub struct Passed {
    pub refused: usize,
    pub consumed: usize,
    pub written: usize,
    pub stops: bool,
}

// The run: each message is read from the rest of the messages and sent to the account that it names, and its entries are written to the rest of the entry buffer.
pub fn run(messages: &[u8], entries: &mut [u8]) -> Ran
    ensures counts { result ≡ (run_of messages.now entries.old).counts }
    ensures entries { entries.new ≡ (run_of messages.now entries.old).entries }
{
    let mut register = Register::fresh();
    let mut ran = Ran::default();
    // A `while`: how far it goes on, each reply tells.
    while ran.consumed < messages.len() {
        let rest = &messages[ran.consumed..];
        let whole = message::whole_length(layout::number1(rest, 0));
        let reply = register.call(rest, &mut entries[ran.written..]);
        let passed = passed_by(reply, whole);
        ran.add(passed);
        if passed.stops {
            return ran;
        }
    }
    ran
}

impl Ran {
    // One message more.
    fn add(&mut self, passed: Passed)
        requires { Countable self.old passed }
        ensures { self.new ≡ added self.old (one passed) }
    {
        self.met += 1;
        self.refused += passed.refused;
        self.consumed += passed.consumed;
        self.written += passed.written;
    }
}

// What a message comes to, by its reply and its whole length: here alone it is said where a run stops, and how it goes on. A refusal is told by its number, whichever it is.
pub fn passed_by<R: Numbered>(reply: Result<Taken, R>, whole: usize) -> Passed
    ensures { result ≡ passed_with R.number_is reply whole }
{
    let Taken { consumed, written } = match reply {
        Ok(taken) => taken,
        Err(refusal) => return passed_over(refusal.told(), whole),
    };
    Passed {
        refused: 0,
        consumed,
        written,
        stops: false,
    }
}

// What a refused message comes to, by its number: the run stops at it, or passes it by its whole length.
fn passed_over(number: u8, whole: usize) -> Passed
    ensures { result ≡ passed_over number whole }
{
    if number <= 2 {
        return Passed {
            refused: 1,
            consumed: 0,
            written: 0,
            stops: true,
        };
    }
    Passed {
        refused: 1,
        consumed: whole,
        written: 0,
        stops: false,
    }
}

// The number of a refusal, whichever it is; 0 where the message was taken, as callers in C have it.
pub fn refusal_of<R: Numbered>(reply: Result<Taken, R>) -> u8
    ensures { result ≡ number_with R.number_is reply }
{
    match reply {
        Ok(_) => 0,
        Err(refusal) => refusal.told(),
    }
}
