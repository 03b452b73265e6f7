// The names of entries and events.
ghost use Rattle.std.specs.Prelude.{◌≡◌};
ghost use Rattle.text.specs.Text.{vote_name, name_of, event_name};

use events::Event;
use filing::{Told, Verdict};

// An entry's name.
pub(crate) fn name(told: Told) -> &'static [u8]
    ensures { result.now ≡ name_of told }
{
    match told {
        Told::Voted(_, weighing) => vote_name(weighing.verdict),
        Told::Noted => b"noted",
        Told::Applied(_, _) => b"applied",
        Told::Dropped(_) => b"dropped",
    }
}

// A vote's name, by its verdict.
fn vote_name(verdict: Verdict) -> &'static [u8]
    ensures { result.now ≡ vote_name verdict }
{
    match verdict {
        Verdict::Accepted => b"accepted",
        Verdict::Rejected => b"rejected",
        Verdict::Held => b"held",
    }
}

// An event's name, by its kind: an event is taken apart in `events` alone.
pub(crate) fn event_name(event: Event) -> &'static [u8]
    ensures { result.now ≡ event_name event }
{
    match event.kind() {
        1 => b"open",
        2 => b"withdraw",
        3 => b"deposit",
        _ => b"close",
    }
}
