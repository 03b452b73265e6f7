// What callers in C and Rust get: a register that they keep as an image, with one call and the outcome question, and the line of an entry (docs/REGISTER.md, 15).
// A call reads and writes the words of the account that is named, and no others.
#![tactic(auto)]

mod call;
mod export;
mod lines;
mod question;

ghost use Rattle.std.specs.Prelude.{◌≡◌};
ghost use Rattle.live.specs.Registers.{word_at};

pub use call::call_image;
pub use export::{nacozteya_call, nacozteya_line, nacozteya_outlook};
pub use lines::{Lined, write_entry_line};
pub use question::outlook_image;
use register::Register;

// The words of a register.
pub const REGISTER_WORDS: usize = Register::ACCOUNTS * image::ACCOUNT_WORDS;

// Where the words of an account begin.
fn word_at(account: u16) -> usize
    ensures { result ≡ word_at account }
{
    account as usize * image::ACCOUNT_WORDS
}
