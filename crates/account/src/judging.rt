// Whether an account is in order, clause by clause (docs/REGISTER.md, 6), and what is found on the way: the outcomes of the events in progress, and where a transaction stands.
ghost use Rattle.std.specs.Prelude.{◌≡◌, ◌≤◌, ◌+◌, ◌++◌, eqb, length, map, true};
ghost use Rattle.std.specs.List.{list_all, position};
ghost use Rattle.std.specs.List.Sorted.{IsStrictlyIncreasing};
ghost use Rattle.rule.specs.InOrder as order;
ghost use Rattle.filing.specs.declared.Slot.{Slot};
ghost use Rattle.filing.specs.Slots.{is_blank, is_undecided, slot_of};
ghost use Rattle.account.specs.First.{in_order_of};
ghost use Rattle.account.specs.inside.Judged.{both_rows, all_differ, Finds};
ghost use Rattle.account.specs.inside.First.{Judges};

use crate::Account;
use crate::outcomes::Outcomes;
use filing::Slot;
use refusal::Refusal;

// Where a transaction stands: in progress, at a place, or held; and its slot.
#[derive(Clone, Copy, Drop)]
pub(crate) enum Found {
    InProgress(usize, Slot),
    OnHold(Slot),
}

// What judging finds of an account in order.
#[derive(Clone, Copy, Drop)]
pub(crate) struct Judged {
    pub(crate) outcomes: Outcomes,
    pub(crate) found: Option<Found>,
}

impl Account {
    // The places of both rows.
    pub(crate) const BOTH: usize = Account::PLACES + Account::PLACES;

    // Whether the account is in order.
    pub fn in_order(&self) -> bool
        ensures { result ≡ in_order_of self.now }
    {
        self.judge(0).is_ok()
    }

    // Judges the account, and looks for a transaction.
    pub(crate) fn judge(&self, transaction: u32) -> Result<Judged, Refusal>
        ensures { Judges self.now transaction result }
    {
        if (Account::PROGRESS < self.progressing) | (Account::HELD < self.holding) {
            return Err(Refusal::NotInOrder);
        }
        let (events, unused) = self.progress.split_at(self.progressing);
        let (requests, unused_held) = self.held.split_at(self.holding);
        // Before anything else is looked at: an unused place that is not blank ends it.
        if !all_blank(unused) {
            return Err(Refusal::NotInOrder);
        }
        if !all_blank(unused_held) {
            return Err(Refusal::NotInOrder);
        }
        let outcomes = Outcomes::after(self.state, events);
        // Each further test is made whatever the others say, so that no branch stands between them.
        let in_order = self.state.fits()
            & differ(events, requests)
            & without_decisions(requests)
            & outcomes.guarded
            & oldest_undecided(events)
            & outcomes.oldest_stays_held(self.progressing, requests);
        if !in_order {
            return Err(Refusal::NotInOrder);
        }
        Ok(Judged {
            outcomes,
            found: find(transaction, events, requests),
        })
    }
}

// Whether nothing is left in unused places (6.3).
fn all_blank(unused: &[Slot]) -> bool
    ensures { result ≡ list_all is_blank unused.now }
{
    unused.iter().all(|slot| slot.is_blank())
}

// Whether the oldest event in progress, if there is one, is undecided (6.6).
fn oldest_undecided(events: &[Slot]) -> bool
    ensures { result ≡ order.oldest_undecided (map slot_of events.now) }
{
    match events {
        [oldest, ..] => oldest.decision.is_undecided(),
        [] => true,
    }
}

// Whether no request held has a decision (6.4).
fn without_decisions(requests: &[Slot]) -> bool
    ensures { result ≡ list_all (λ (x : Slot). is_undecided x.decision) requests.now }
{
    requests.iter().all(|slot| slot.decision.is_undecided())
}

// Whether all transactions differ (6.4). Numbers that rise do, and the youngest transaction mostly has the highest: only where they do not rise is every pair looked at.
fn differ(events: &[Slot], requests: &[Slot]) -> bool
    requires { length events.now + length requests.now ≤ both_rows }
    ensures { result ≡ order.apart (map slot_of events.now ++ map slot_of requests.now) }
{
    let mut transactions = [0; Account::BOTH];
    // By index: a proof knows nothing of what an adapter of `iter_mut` wrote.
    for (at, slot) in events.iter().enumerate() {
        transactions[at] = slot.transaction;
    }
    for (at, slot) in requests.iter().enumerate() {
        transactions[events.len() + at] = slot.transaction;
    }
    let transactions = &transactions[..events.len() + requests.len()];
    rise(transactions) || pairs_differ(transactions)
}

// Whether each number is above the one before.
fn rise(numbers: &[u32]) -> bool
    ensures { result ≡ true → IsStrictlyIncreasing numbers.now }
{
    numbers.is_sorted_by(|before, behind| *before < *behind)
}

// Whether all numbers differ, pair by pair.
fn pairs_differ(numbers: &[u32]) -> bool
    ensures { result ≡ all_differ numbers.now }
{
    for (at, number) in numbers.iter().enumerate() {
        if numbers[at + 1..].contains(number) {
            return false;
        }
    }
    true
}

// Where a transaction stands among these.
fn find(transaction: u32, events: &[Slot], requests: &[Slot]) -> Option<Found>
    ensures { Finds transaction events.now requests.now result }
{
    if let Some(at) = place_of(transaction, events) {
        return Some(Found::InProgress(at, events[at]));
    }
    let at = place_of(transaction, requests)?;
    Some(Found::OnHold(requests[at]))
}

// The place of a transaction in a row.
fn place_of(transaction: u32, row: &[Slot]) -> Option<usize>
    ensures { result ≡ position (λ (x : Slot). eqb transaction x.transaction) row.now }
{
    row.iter().position(|slot| transaction == slot.transaction)
}
