// A place of an account in words: transaction, what is filed, event, amount, decision (docs/REGISTER.md, 15.2).
ghost use Rattle.std.specs.Prelude.{◌≡◌};
ghost use Rattle.image.specs.Words.{words_of_slot};
ghost use Rattle.image.specs.Reading.{slot_from, is_slot};

use crate::{PLACE_WORDS, fields};
use filing::{Filed, Slot};

// What the words of a place read as, and whether they are a place's.
// Both, and no Option: the definition `account_from` says what a damaged image reads as, slot by slot.
#[derive(Clone, Copy, Drop)]
pub(crate) struct Place {
    pub(crate) slot: Slot,
    pub(crate) valid: bool,
}

// The place of these words.
#[tactic(auto, unfolding(crate::specs::Reading::slot_from, crate::specs::Reading::is_slot))]
pub(crate) fn read_place(words: &[u32; PLACE_WORDS]) -> Place
    ensures { (result.slot ≡ slot_from words.now) × (result.valid ≡ is_slot words.now) }
{
    let [transaction, second, word, amount, decided] = *words;
    let event = fields::event_of(word, amount);
    let decision = fields::decision_of(decided);
    let is_event = (fields::event_word(event) == word) & (event.amount() == amount);
    let is_decision = decision as u32 == decided;
    Place {
        slot: Slot {
            transaction,
            filed: Filed { second },
            event,
            decision,
        },
        valid: is_event & is_decision,
    }
}

// The words of a place.
#[tactic(auto, unfolding(crate::specs::Words::words_of_slot))]
pub(crate) fn place_words(slot: Slot) -> [u32; PLACE_WORDS]
    ensures { result ≡ words_of_slot slot }
{
    [
        slot.transaction,
        slot.filed.second,
        fields::event_word(slot.event),
        slot.event.amount(),
        slot.decision as u32,
    ]
}
