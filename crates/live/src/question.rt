// The outcome question of an image (docs/REGISTER.md, 11.2 and 15.7).
ghost use Rattle.std.specs.Prelude.{◌≡◌};
ghost use Rattle.live.specs.First.{look_of};

use crate::word_at;
use account::Outlook;
use refusal::Refusal;

// Refused with 3, 5 or 12, the first that applies, or the state there and the number of undecided events that are applied in it.
pub fn outlook_image(image: &[u32], account: u16, number: u32) -> Result<Outlook, Refusal>
    ensures { result ≡ look_of image.now account number }
{
    if layout::LAST_ACCOUNT < account {
        return Err(Refusal::UnknownAccount);
    }
    image::read_account(image, word_at(account)).outlook(number)
}
