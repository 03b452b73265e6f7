// The fields of an account as words, and back: each word reads as something (docs/REGISTER.md, 15.2).
// Functions, and no From: it asks that one of the two types is this crate's, and neither is.
ghost use Rattle.std.specs.Prelude.{◌≡◌};
ghost use Rattle.image.specs.Words.{life_word, event_word, count_word, head_of};
ghost use Rattle.image.specs.Reading.{life_from, event_from, decision_from};

use crate::HEAD_WORDS;
use account::Account;
use events::{Event, Life};
use filing::Decision;

// The last word of an event.
const LAST: u32 = 3;

// The word of a life.
pub fn life_word(life: Life) -> u32
    ensures { result ≡ life_word life }
{
    life as u32
}

// The life of a word; of one that is none, as of 2.
pub(crate) fn life_of(word: u32) -> Life
    ensures { result ≡ life_from word }
{
    match word {
        0 => Life::New,
        1 => Life::Opened,
        _ => Life::Closed,
    }
}

// The word of an event: its kind, counted from 0.
pub(crate) fn event_word(event: Event) -> u32
    ensures { result ≡ event_word event }
{
    (event.kind() - 1) as u32
}

// The event of a word and an amount; of a word that is none, as of the last.
#[tactic(auto, using(crate::proofs::WordsOfFields::kept))]
pub(crate) fn event_of(word: u32, amount: u32) -> Event
    ensures { result ≡ event_from word amount }
{
    Event::of(word.min(LAST) as u8 + 1, amount)
}

// The decision of a word; of one that is none, as of 1.
pub(crate) fn decision_of(word: u32) -> Decision
    ensures { result ≡ decision_from word }
{
    match word {
        0 => Decision::Undecided,
        _ => Decision::Committed,
    }
}

// The word of a count; of one that no word holds, the highest.
pub(crate) fn count_word(count: usize) -> u32
    ensures { result ≡ count_word count }
{
    u32::try_from(count).unwrap_or(u32::MAX)
}

// The words before the places: life, balance, and the two counts.
pub(crate) fn head_words(account: &Account) -> [u32; HEAD_WORDS]
    ensures { result ≡ head_of account.now }
{
    [
        life_word(account.state.life),
        account.state.balance,
        count_word(account.progressing),
        count_word(account.holding),
    ]
}
