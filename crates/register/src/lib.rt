// The register: sixteen accounts, and its public calls (docs/REGISTER.md, 7 and 11). A message changes the account that it names, in its place.
#![tactic(auto)]

mod export;
mod runs;

ghost use Rattle.std.specs.Prelude.{◌≡◌};
ghost use Rattle.account.specs.First.{step_of};
ghost use Rattle.register.specs.Register.{rule_message};
ghost use Rattle.register.specs.First.{fresh_register, sent_of, outlook_in, call_of};

use account::{Account, Outlook};
pub use export::nacozteya_run;
use filing::Entries;
use message::Message;
use refusal::Refusal;
pub use runs::{Passed, Ran, passed_by, refusal_of, run};

#[derive(Clone, Copy, Drop)]
pub struct Register {
    pub accounts: [Account; Register::ACCOUNTS],
}

// What a call that is taken replies: how many bytes the message had and how many bytes of entries were written.
#[derive(Clone, Copy, PartialEq, Eq, Drop)]
pub struct Taken {
    pub consumed: usize,
    pub written: usize,
}

impl Register {
    // The accounts side by side, numbered from 0.
    pub const ACCOUNTS: usize = layout::LAST_ACCOUNT as usize + 1;

    // A fresh register: every account is fresh.
    pub fn fresh() -> Register
        ensures { result ≡ fresh_register }
    {
        Register {
            accounts: [Account::FRESH; Register::ACCOUNTS],
        }
    }

    // A message sent to the account that it names, as a value: refused, and the register is the same, or taken.
    pub fn send(&mut self, message: Message) -> Result<Entries, Refusal>
        ensures answer { result ≡ (sent_of self.old message).answer }
        ensures register { self.new ≡ (sent_of self.old message).register }
    {
        let number = message::account_of(message);
        if layout::LAST_ACCOUNT < number {
            return Err(Refusal::UnknownAccount);
        }
        step(&mut self.accounts[number as usize], message)
    }

    // The call: the message that the bytes begin with is read and sent, and its entries are written to the beginning of the buffer.
    pub fn call(&mut self, bytes: &[u8], buffer: &mut [u8]) -> Result<Taken, Refusal>
        ensures reply { result ≡ (call_of self.old bytes.now buffer.old).reply }
        ensures register { self.new ≡ (call_of self.old bytes.now buffer.old).register }
        ensures buffer { buffer.new ≡ (call_of self.old bytes.now buffer.old).buffer }
    {
        let (message, consumed) = message::read_message(bytes)?;
        if buffer.len() < entry::LONGEST_CALL {
            return Err(Refusal::NoRoom);
        }
        let entries = self.send(message)?;
        let written = entry::write_entries(
            entries.as_slice(),
            message::account_of(message),
            buffer,
        )?;
        Ok(Taken { consumed, written })
    }

    // The outcome question: refused with 3, 5 or 12, the first that applies, or the state there and the number of undecided events that are applied in it.
    pub fn outlook(&self, account: u16, number: u32) -> Result<Outlook, Refusal>
        ensures { result ≡ outlook_in self.now account number }
    {
        if layout::LAST_ACCOUNT < account {
            return Err(Refusal::UnknownAccount);
        }
        self.accounts[account as usize].outlook(number)
    }
}

// The step of an account that a message asks.
pub fn step(account: &mut Account, message: Message) -> Result<Entries, Refusal>
    ensures answer { result ≡ (step_of account.old (rule_message message)).answer }
    ensures account { account.new ≡ (step_of account.old (rule_message message)).account }
{
    match message {
        Message::Request(heading, event) => account.request(
            heading.transaction,
            heading.filed,
            event,
        ),
        Message::Commit(heading) => account.commit(heading.transaction, heading.filed),
        Message::Abort(heading) => account.abort(heading.transaction, heading.filed),
    }
}
