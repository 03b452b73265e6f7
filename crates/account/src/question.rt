// The outcome question of one account (docs/REGISTER.md, 11.2).
ghost use Rattle.std.specs.Prelude.{◌≡◌};
ghost use Rattle.account.specs.First.{outlook_of};
ghost use Rattle.account.specs.inside.First.{followed};

use crate::{Account, Outlook};
use events::State;
use filing::Slot;
use refusal::Refusal;

// A state on the way through the events in progress, and what is left of the outcome's number.
#[derive(Clone, Copy, Drop)]
struct Reached {
    state: State,
    left: u32,
}

impl Account {
    // The state in the outcome of this number, and the number of undecided events applied in it; not in order, then no such outcome, where it is refused.
    // What is left of the number past all events is 0 exactly if there is an outcome of that number.
    #[tactic(auto, using(crate::proofs::Clauses::few_progressing))]
    pub fn outlook(&self, number: u32) -> Result<Outlook, Refusal>
        ensures { result ≡ outlook_of self.now number }
    {
        if !self.in_order() {
            return Err(Refusal::NotInOrder);
        }
        let mut reached = Reached {
            state: self.state,
            left: number,
        };
        for slot in &self.progress[..self.progressing] {
            reached = reached.past(*slot);
        }
        if 0 < reached.left {
            return Err(Refusal::NoSuchOutcome);
        }
        Ok(Outlook {
            state: reached.state,
            applied: number.count_ones(),
        })
    }
}

impl Reached {
    // One event further (4.3); an undecided one takes the lowest bit off the number.
    fn past(self, slot: Slot) -> Reached
        ensures { result ≡ followed self slot }
    {
        let applied = slot.event.effect(self.state);
        if slot.decision.is_undecided() {
            Reached {
                state: if self.left % 2 == 1 {
                    applied
                } else {
                    self.state
                },
                left: self.left / 2,
            }
        } else {
            Reached {
                state: applied,
                ..self
            }
        }
    }
}
