// What is filed with an event, the place that an event takes on an account, and the entries of one call, as values (docs/REGISTER.md, 2 and 9).
#![tactic(auto)]

ghost use Rattle.std.specs.Prelude.{◌≡◌, take};
ghost use Rattle.rule.specs.Rule as rule;
ghost use Rattle.filing.specs.Slots.{is_undecided, is_blank_filed, is_blank, committed_slot};
ghost use Rattle.filing.specs.Entries.{is_accepted, is_held, weighing_of, entry_of, only_entry, pushed};

use events::Event;

// What is filed with an event and its entries: nothing that is decided looks at it.
#[derive(Clone, Copy, PartialEq, Eq, Drop)]
pub struct Filed {
    pub second: u32,
}

#[derive(Clone, Copy, PartialEq, Eq, Drop)]
pub enum Decision {
    Undecided,
    Committed,
}

// A place of an account: an event in progress, or a request held, which has no decision and stands as undecided.
#[derive(Clone, Copy, PartialEq, Eq, Drop)]
pub struct Slot {
    pub transaction: u32,
    pub filed: Filed,
    pub event: Event,
    pub decision: Decision,
}

// How a request is decided.
#[derive(Clone, Copy, PartialEq, Eq, Drop)]
pub enum Verdict {
    Accepted,
    Rejected,
    Held,
}

// A decision, the number of outcomes weighed for it, and the reason of a rejection, 0 for any other.
// The reason stays a number beside the verdict: `EntryForm` and `WeighingForm` hold for every number there.
#[derive(Clone, Copy, PartialEq, Eq, Drop)]
pub struct Weighing {
    pub verdict: Verdict,
    pub weighed: u32,
    pub reason: u8,
}

// What an entry says of its transaction: a vote with its weighing, a commit noted, an event applied with the balance after it, an event dropped.
#[derive(Clone, Copy, PartialEq, Eq, Drop)]
pub enum Told {
    Voted(Event, Weighing),
    Noted,
    Applied(Event, u32),
    Dropped(Event),
}

// An entry, as a value: without the number of the account, which an account does not know.
#[derive(Clone, Copy, PartialEq, Eq, Drop)]
pub struct Entry {
    pub transaction: u32,
    pub filed: Filed,
    pub told: Told,
}

// The entries of one call, in the order in which they were written: the first `count` places; the others are blank.
// Memory is fixed: an array with a count, both of which `EntriesForm` names.
#[derive(Clone, Copy, PartialEq, Eq, Drop)]
pub struct Entries {
    pub at: [Entry; Entries::MOST],
    pub count: usize,
}

impl Filed {
    // What is filed in a blank place.
    pub const BLANK: Filed = Filed { second: 0 };

    // Whether it is what a blank place has.
    pub fn is_blank(self) -> bool
        ensures { result ≡ is_blank_filed self }
    {
        self == Filed::BLANK
    }
}

impl Decision {
    // Whether the decision has not come yet.
    pub fn is_undecided(self) -> bool
        ensures { result ≡ is_undecided self }
    {
        matches!(self, Decision::Undecided)
    }
}

impl Slot {
    // The places of each row of an account, of events in progress and of requests held.
    pub const PLACES: usize = 8;

    // The blank place.
    pub const BLANK: Slot = Slot {
        transaction: 0,
        filed: Filed::BLANK,
        event: Event::BLANK,
        decision: Decision::Undecided,
    };

    // Whether the place is the blank. Each test is made whatever the others say, so that few branches stand between them.
    pub fn is_blank(self) -> bool
        ensures { result ≡ is_blank self }
    {
        (self.transaction == 0)
            & self.filed.is_blank()
            & self.event.is_blank()
            & self.decision.is_undecided()
    }

    // The place, committed.
    pub fn committed(self) -> Slot
        ensures { result ≡ committed_slot self }
    {
        Slot {
            decision: Decision::Committed,
            ..self
        }
    }
}

impl Verdict {
    // Whether it is to accept.
    pub fn is_accepted(self) -> bool
        ensures { result ≡ is_accepted self }
    {
        matches!(self, Verdict::Accepted)
    }

    // Whether it is to hold.
    pub fn is_held(self) -> bool
        ensures { result ≡ is_held self }
    {
        matches!(self, Verdict::Held)
    }
}

impl Weighing {
    // Of a request that is held and was not weighed.
    pub const UNWEIGHED: Weighing = Weighing {
        verdict: Verdict::Held,
        weighed: 0,
        reason: 0,
    };
}

impl Entry {
    // What stands in a place that no entry takes.
    pub const BLANK: Entry = Entry {
        transaction: 0,
        filed: Filed::BLANK,
        told: Told::Noted,
    };

    // The entry of a vote on a request, with its weighing.
    pub fn voted(slot: Slot, weighing: Weighing) -> Entry
        ensures { result ≡ entry_of (rule.voted slot.transaction slot.filed slot.event (weighing_of weighing)) }
    {
        Entry {
            transaction: slot.transaction,
            filed: slot.filed,
            told: Told::Voted(slot.event, weighing),
        }
    }

    // The entry of a commit that is noted, with what the commit files.
    pub fn noted(transaction: u32, filed: Filed) -> Entry
        ensures { result ≡ entry_of (rule.noted transaction filed) }
    {
        Entry {
            transaction,
            filed,
            told: Told::Noted,
        }
    }

    // The entry of an event that is applied, with the balance after it.
    pub fn applied(slot: Slot, balance: u32) -> Entry
        ensures { result ≡ entry_of (rule.applied slot.transaction slot.filed slot.event balance) }
    {
        Entry {
            transaction: slot.transaction,
            filed: slot.filed,
            told: Told::Applied(slot.event, balance),
        }
    }

    // The entry of an event or a request that is dropped.
    pub fn dropped(slot: Slot) -> Entry
        ensures { result ≡ entry_of (rule.dropped slot.transaction slot.filed slot.event) }
    {
        Entry {
            transaction: slot.transaction,
            filed: slot.filed,
            told: Told::Dropped(slot.event),
        }
    }
}

impl Entries {
    // The entries that one call writes at most: its own, one for each event in progress, one for each request held.
    pub const MOST: usize = 1 + Slot::PLACES + Slot::PLACES;

    // No entries.
    pub const NONE: Entries = Entries {
        at: [Entry::BLANK; Entries::MOST],
        count: 0,
    };

    // One entry alone.
    pub fn only(entry: Entry) -> Entries
        ensures { result ≡ only_entry entry }
    {
        let mut only = Entries::NONE;
        only.push(entry);
        only
    }

    // The entries that were written, as a slice.
    pub fn as_slice(&self) -> &[Entry]
        ensures { result.now ≡ take self.now.count self.now.at }
    {
        &self.at[..self.count.min(Entries::MOST)]
    }

    // One entry more, the newest; with no place left the entries stay as they are.
    pub fn push(&mut self, entry: Entry)
        ensures { self.new ≡ pushed self.old entry }
    {
        if self.count < Entries::MOST {
            self.at[self.count] = entry;
            self.count += 1;
        }
    }
}
