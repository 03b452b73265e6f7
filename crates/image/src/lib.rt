// The image of an account: words with a fixed place for every field, which a caller in C or Rust owns (docs/REGISTER.md, 15).
#![tactic(auto)]

mod fields;
mod places;

ghost use Rattle.std.specs.Prelude.{◌≡◌, [], ◌∷◌, ◌+◌, ◌*◌, ◌≤◌, leb, length, replicate};
ghost use Rattle.std.proofs.lemmas.List.Edits.{sets};
ghost use Rattle.filing.specs.Slots.{places, blank};
ghost use Rattle.image.specs.Words.{place_words, row_words, account_words, words_of_slots, head_of, stored_in, stored_to};
ghost use Rattle.image.specs.Reading.{are_zero, slots_from, are_slots, account_from};

use account::Account;
use events::State;
pub use fields::life_word;
use filing::Slot;

// The words of what is filed with an event.
pub const FILED_WORDS: usize = 1;

// The words of a place: transaction, what is filed, event, amount, decision.
pub const PLACE_WORDS: usize = FILED_WORDS + 4;

// The words before the places: life, balance, and the two counts.
pub const HEAD_WORDS: usize = 4;

// The words of an account: behind the head its places in progress, and then those held.
pub const ACCOUNT_WORDS: usize = HEAD_WORDS + ROW_WORDS * 2;

// The words of a row of places.
const ROW_WORDS: usize = Account::PLACES * PLACE_WORDS;

// One event more in progress than there are places: an account with that count is not in order.
const TOO_MANY: usize = Account::PLACES + 1;

// What too few words read as, and no Option: `account_from` says that they read as an account that is not in order.
const NO_ACCOUNT: Account = Account {
    state: State::NEW,
    progress: [Slot::BLANK; Account::PLACES],
    progressing: TOO_MANY,
    held: [Slot::BLANK; Account::PLACES],
    holding: 0,
};

// The account whose image begins at `from`: words and a place, as the definition `account_from` has them, since the words may end before it.
// One way out: with another for too few words it was copied, which was tried and costs a quarter more.
pub fn read_account(image: &[u32], from: usize) -> Account
    ensures { result ≡ account_from image.now from }
{
    let mut account = NO_ACCOUNT;
    if has_room(image.len(), from) {
        let words = &image[from..];
        let life = fields::life_of(words[0]);
        let count = words[2] as usize;
        let progress = read_row(&words[HEAD_WORDS..], count, &mut account.progress);
        let held = read_row(&words[HEAD_WORDS + ROW_WORDS..], 0, &mut account.held);
        let valid = (life_word(life) == words[0]) & progress & held;
        account.state = State {
            life,
            balance: words[1],
        };
        account.progressing = if valid { count } else { TOO_MANY };
        account.holding = words[3] as usize;
    }
    account
}

// Stores the image of an account from `from` on; where there is no room for all of it, nothing.
pub fn put_account(image: &mut [u32], from: usize, account: Account)
    ensures { image.new ≡ stored_in image.old from account }
{
    put_used(image, from, account, Account::PLACES, Account::PLACES);
}

// The same, but so many places alone of those in progress and of those held: enough where the account that stands there has only blanks behind them, and this one too. Words and a place, as the definition `stored_to` has them.
pub fn put_used(image: &mut [u32], from: usize, account: Account, progress: usize, held: usize)
    ensures { image.new ≡ stored_to image.old from account progress held }
{
    if has_room(image.len(), from) {
        let at = from + HEAD_WORDS;
        image[from..at].copy_from_slice(&fields::head_words(&account));
        put_row(
            &mut image[at..],
            &account.progress[..progress.min(Account::PLACES)],
        );
        put_row(
            &mut image[at + ROW_WORDS..],
            &account.held[..held.min(Account::PLACES)],
        );
    }
}

// Whether so many words have room for an account's from `from` on.
fn has_room(words: usize, from: usize) -> bool
    ensures { result ≡ leb (from + account_words) words }
{
    ACCOUNT_WORDS <= words && from <= words - ACCOUNT_WORDS
}

// Reads a row of places, and tells whether its words are places'. It is read as far as it has to be: where all words behind so many places are 0, the others are blank already.
fn read_row(words: &[u32], count: usize, row: &mut [Slot]) -> bool
    requires { (row_words ≤ length words.now) × (row.old ≡ replicate places blank) }
    ensures { (row.new ≡ slots_from places words.now) × (result ≡ are_slots places words.now) }
{
    let used = count.min(Account::PLACES);
    let reach = if are_zero(&words[used * PLACE_WORDS..ROW_WORDS]) {
        used
    } else {
        Account::PLACES
    };
    let (chunks, _) = words.as_chunks::<PLACE_WORDS>();
    let mut valid = true;
    // By index: a proof knows nothing of what an adapter of `iter_mut` wrote.
    for (i, chunk) in chunks[..reach].iter().enumerate() {
        let place = places::read_place(chunk);
        row[i] = place.slot;
        valid &= place.valid;
    }
    valid
}

// Whether all words are 0: every one is looked at, so that the compiler takes several in one step.
fn are_zero(words: &[u32]) -> bool
    ensures { result ≡ are_zero words.now }
{
    let mut zero = true;
    for word in words {
        zero &= *word == 0;
    }
    zero
}

// Stores a row of places, by index as `read_row` does.
fn put_row(words: &mut [u32], row: &[Slot])
    requires { length row.now * place_words ≤ length words.old }
    ensures { words.new ≡ sets words.old 0 (words_of_slots row.now) }
{
    for (i, slot) in row.iter().enumerate() {
        let at = i * PLACE_WORDS;
        words[at..at + PLACE_WORDS].copy_from_slice(&places::place_words(*slot));
    }
}
