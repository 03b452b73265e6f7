// What is known of the outcomes of the events in progress, and the weighing of a request by it (docs/REGISTER.md, 4).
ghost use Rattle.std.specs.Prelude.{◌≡◌, List, [], ◌∷◌, ◌++◌, length, map, ℕ, ◌≤◌};
ghost use Rattle.rule.specs.Rule.{slot};
ghost use Rattle.rule.specs.Weigh.{reason_by};
ghost use Rattle.events.specs.declared.State.{State};
ghost use Rattle.events.specs.Events.{reason_of, reason_byte};
ghost use Rattle.filing.specs.declared.Filed.{Filed};
ghost use Rattle.filing.specs.Slots.{RuleSlot, places, decision_of, slot_of};
ghost use Rattle.filing.specs.Entries.{verdict_of};
ghost use Rattle.account.specs.inside.Known.{verdict_by};
ghost use Rattle.account.specs.inside.First.{Knows, Decides, StaysHeld};

use crate::Account;
use events::{Event, Range, State};
use filing::{Decision, Slot, Verdict, Weighing};

// The outcomes of the events in progress: their range and their number, the state in outcome 0, which a rejection's reason is of, and whether each event finds its guard true however the
// older ones end; where one does not, the range says nothing.
#[derive(Clone, Copy, Drop)]
pub(crate) struct Outcomes {
    pub(crate) range: Range,
    pub(crate) number: u32,
    pub(crate) first: State,
    // A flag, and no Option: order is judged with no branch between its tests.
    pub(crate) guarded: bool,
}

impl Outcomes {
    // The one outcome of no events.
    pub(crate) fn of(state: State) -> Outcomes
        ensures { Knows state [] result }
    {
        Outcomes {
            range: Range::of(state),
            number: 1,
            first: state,
            guarded: true,
        }
    }

    // The outcomes of these events in progress, an event at a time.
    pub(crate) fn after(state: State, events: &[Slot]) -> Outcomes
        requires { length events.now ≤ places }
        ensures { Knows state (map slot_of events.now) result }
    {
        let mut outcomes = Outcomes::of(state);
        for slot in events {
            outcomes = outcomes.with(slot.event, slot.decision);
        }
        outcomes
    }

    // The outcomes with one event more in progress, the newest. Its guard is asked on each way, next to what it does to the range: the compiler takes the event apart once for both.
    pub(crate) fn with(self, event: Event, decision: Decision) -> Outcomes
        requires { self.number ≤ 128 }
        ensures { (s : State) (xs : List RuleSlot) (t : ℕ) (g : Filed) → Knows s xs self → Knows s (xs ++ (slot t g event (decision_of decision) ∷ [])) result }
    {
        if decision.is_undecided() {
            Outcomes {
                guarded: self.guarded & self.range.every(event),
                range: self.range.perhaps(event),
                number: 2 * self.number,
                ..self
            }
        } else {
            Outcomes {
                guarded: self.guarded & self.range.every(event),
                range: self.range.after(event),
                first: event.effect(self.first),
                ..self
            }
        }
    }

    // The decision on a request with nothing held before it: held unweighed where no place is free in progress, else weighed (4.4 and 4.5).
    pub(crate) fn decide(&self, progressing: usize, event: Event) -> Weighing
        ensures { Decides [] event progressing self.now result }
    {
        if Account::PROGRESS <= progressing {
            return Weighing::UNWEIGHED;
        }
        let verdict = verdict_of(self.range.every(event), self.range.some(event));
        Weighing {
            verdict,
            weighed: self.number,
            reason: self.reason(verdict, event),
        }
    }

    // The reason of a rejection, the one in outcome 0 (4.7), as the byte that `Weighing` has; 0 for any other verdict.
    fn reason(&self, verdict: Verdict, event: Event) -> u8
        ensures { result ≡ reason_byte (reason_by (verdict_of verdict) (reason_of event self.now.first)) }
    {
        match verdict {
            Verdict::Accepted | Verdict::Held => 0,
            Verdict::Rejected => event.reason_byte(self.first),
        }
    }

    // The decision on a request behind those held: held unweighed if there are any.
    pub(crate) fn decide_behind(&self, holding: usize, progressing: usize, event: Event) -> Weighing
        ensures { (requests : List RuleSlot) → holding ≡ length requests → Decides requests event progressing self.now result }
    {
        if 0 < holding {
            return Weighing::UNWEIGHED;
        }
        self.decide(progressing, event)
    }

    // Whether the oldest request held, if there is one, stays held (6.7).
    pub(crate) fn oldest_stays_held(&self, progressing: usize, requests: &[Slot]) -> bool
        ensures { StaysHeld requests.now progressing self.now result }
    {
        match requests {
            [oldest, ..] => self.decide(progressing, oldest.event).verdict.is_held(),
            [] => true,
        }
    }
}

// The verdict, by whether the guard is true in every outcome and whether it is in some (4.5): a decision by two answers, and no conversion.
fn verdict_of(every: bool, some: bool) -> Verdict
    ensures { result ≡ verdict_by every some }
{
    match (every, some) {
        (true, _) => Verdict::Accepted,
        (false, true) => Verdict::Held,
        (false, false) => Verdict::Rejected,
    }
}
