// The steps of an account: request, commit and abort, and what follows every commit and abort (docs/REGISTER.md, 4.6 and 5).
// Each works on the account in place; rows go by index, since places move up in the row that is read.
// Commit and abort are each kept a call: as parts of one caller with the request, the compiler takes the entries of all three apart place by place.
ghost use Rattle.std.specs.Prelude.{◌≡◌, ◌<◌, ◌≤◌, ◌+◌, length, map};
ghost use Rattle.rule.specs.Rule.{request, commit, abort};
ghost use Rattle.rule.specs.Step.{without};
ghost use Rattle.filing.specs.Slots.{places, slot_of};
ghost use Rattle.filing.specs.Entries.{most};
ghost use Rattle.account.specs.Places.{padded};
ghost use Rattle.account.specs.First.{step_of};
ghost use Rattle.account.specs.inside.Taken.{begun};
ghost use Rattle.account.specs.inside.First.{Settles, Drains};

use crate::Account;
use crate::outcomes::Outcomes;
use events::Event;
use filing::{Decision, Entries, Entry, Filed, Slot, Verdict};
use refusal::Refusal;

impl Account {
    // A request: refused, or voted on, and in progress, held or gone by its vote.
    pub fn request(
        &mut self,
        transaction: u32,
        filed: Filed,
        event: Event,
    ) -> Result<Entries, Refusal>
        ensures answer { result ≡ (step_of self.old (request transaction filed event)).answer }
        ensures account { self.new ≡ (step_of self.old (request transaction filed event)).account }
    {
        let judged = self.judge(transaction)?;
        judged.for_request(self.holding)?;
        let weighing = judged
            .outcomes
            .decide_behind(self.holding, self.progressing, event);
        let slot = Slot {
            transaction,
            filed,
            event,
            decision: Decision::Undecided,
        };
        match weighing.verdict {
            Verdict::Accepted => self.begin(slot),
            Verdict::Rejected => {}
            Verdict::Held => {
                self.held[self.holding] = slot;
                self.holding += 1;
            }
        }
        Ok(Entries::only(Entry::voted(slot, weighing)))
    }

    // A commit: refused, or noted, and the event is committed.
    #[inline(never)]
    pub fn commit(&mut self, transaction: u32, filed: Filed) -> Result<Entries, Refusal>
        ensures answer { result ≡ (step_of self.old (commit transaction filed)).answer }
        ensures account { self.new ≡ (step_of self.old (commit transaction filed)).account }
    {
        let at = self.judge(transaction)?.for_commit()?;
        self.progress[at] = self.progress[at].committed();
        Ok(self.settle(Entry::noted(transaction, filed)))
    }

    // An abort: refused, or the event or the request is dropped.
    #[inline(never)]
    pub fn abort(&mut self, transaction: u32, filed: Filed) -> Result<Entries, Refusal>
        ensures answer { result ≡ (step_of self.old (abort transaction filed)).answer }
        ensures account { self.new ≡ (step_of self.old (abort transaction filed)).account }
    {
        let slot = self.judge(transaction)?.for_abort()?;
        self.progressing = drop_from(&mut self.progress[..self.progressing], transaction);
        self.holding = drop_from(&mut self.held[..self.holding], transaction);
        Ok(self.settle(Entry::dropped(slot)))
    }

    // What follows every commit and abort: the committed oldest are applied, then the requests held are looked at. `first` is the call's own entry.
    fn settle(&mut self, first: Entry) -> Entries
        requires { (self.old.progressing ≤ places) × (self.old.holding ≤ places) }
        ensures { Settles self.old first self.new result }
    {
        let mut entries = Entries::only(first);
        let mut ended = 0;
        for at in 0..self.progressing {
            let slot = self.progress[at];
            self.progress[at] = Slot::BLANK;
            if (at == ended) & !slot.decision.is_undecided() {
                self.state = slot.event.effect(self.state);
                entries.push(Entry::applied(slot, self.state.balance));
                ended += 1;
            } else {
                self.progress[at - ended] = slot;
            }
        }
        self.progressing -= ended;
        if 0 < self.holding {
            self.drain(&mut entries);
        }
        entries
    }

    // The requests held are weighed, the oldest first, until one stays held.
    fn drain(&mut self, entries: &mut Entries)
        requires { (self.old.progressing ≤ places) × (self.old.holding ≤ places) × (entries.old.count + self.old.holding ≤ most) }
        ensures { Drains self.old entries.old self.new entries.new }
    {
        let mut outcomes = Outcomes::after(self.state, &self.progress[..self.progressing]);
        let mut voted = 0;
        for at in 0..self.holding {
            let slot = self.held[at];
            let weighing = outcomes.decide(self.progressing, slot.event);
            self.held[at] = Slot::BLANK;
            if (at == voted) & !weighing.verdict.is_held() {
                if weighing.verdict.is_accepted() {
                    self.begin(slot);
                    outcomes = outcomes.with(slot.event, Decision::Undecided);
                }
                entries.push(Entry::voted(slot, weighing));
                voted += 1;
            } else {
                self.held[at - voted] = slot;
            }
        }
        self.holding -= voted;
    }

    // One event more is in progress, the newest.
    fn begin(&mut self, slot: Slot)
        requires { self.old.progressing < places }
        ensures { self.new ≡ begun self.old slot }
    {
        self.progress[self.progressing] = slot;
        self.progressing += 1;
    }
}

// Drops a transaction from the used places of a row: the younger ones move up, and blanks stand behind them. How many are left.
fn drop_from(row: &mut [Slot], transaction: u32) -> usize
    ensures left { result ≡ length (without transaction (map slot_of row.old)) }
    ensures row { row.new ≡ padded (length row.old) (without transaction (map slot_of row.old)) }
{
    let mut left = 0;
    for at in 0..row.len() {
        let slot = row[at];
        row[at] = Slot::BLANK;
        if transaction != slot.transaction {
            row[left] = slot;
            left += 1;
        }
    }
    left
}
