// The refusals of request, commit and abort by what judging found, in their order (docs/REGISTER.md, 10.1).
ghost use Rattle.std.specs.Prelude.{◌≡◌};
ghost use Rattle.account.specs.inside.Judged.{commit_answer, abort_answer};
ghost use Rattle.account.specs.inside.First.{request_answer};

use crate::Account;
use crate::judging::{Found, Judged};
use filing::Slot;
use refusal::Refusal;

impl Judged {
    // Whether a request is taken, with so many requests held: not where the account has the transaction already, then not where no place to hold is left.
    pub(crate) fn for_request(&self, holding: usize) -> Result<(), Refusal>
        ensures { result ≡ request_answer self.now.found holding }
    {
        if self.found.is_some() {
            return Err(Refusal::KnownTransaction);
        }
        if Account::HELD <= holding {
            return Err(Refusal::AllHeld);
        }
        Ok(())
    }

    // The place of the event that is committed: none where the account does not have the transaction, then none if it is held, none if it is committed.
    pub(crate) fn for_commit(&self) -> Result<usize, Refusal>
        ensures { result ≡ commit_answer self.now.found }
    {
        match self.found {
            None => Err(Refusal::UnknownTransaction),
            Some(Found::OnHold(_)) => Err(Refusal::HeldTransaction),
            Some(Found::InProgress(at, slot)) if slot.decision.is_undecided() => Ok(at),
            Some(Found::InProgress(..)) => Err(Refusal::CommittedAlready),
        }
    }

    // What is dropped: nothing where the account does not have the transaction, then nothing if it is committed.
    pub(crate) fn for_abort(&self) -> Result<Slot, Refusal>
        ensures { result ≡ abort_answer self.now.found }
    {
        match self.found {
            None => Err(Refusal::UnknownTransaction),
            Some(Found::OnHold(slot)) => Ok(slot),
            Some(Found::InProgress(_, slot)) if slot.decision.is_undecided() => Ok(slot),
            Some(Found::InProgress(..)) => Err(Refusal::CommittedBefore),
        }
    }
}
