// One call on an image (docs/REGISTER.md, 15.6): the message is read, the account that it names steps, its entries are written, and its words are stored.
ghost use Rattle.std.specs.Prelude.{◌≡◌};
ghost use Rattle.live.specs.First.{live_of};

use crate::word_at;
use refusal::Refusal;
use register::Taken;

// The call. Beside `Register::call`: the account is read from the image and stored there, and no register is lent. Of the account's places those are stored that it used or uses: behind them the words are 0 before and after.
pub fn call_image(image: &mut [u32], bytes: &[u8], buffer: &mut [u8]) -> Result<Taken, Refusal>
    ensures reply { result ≡ (live_of image.old bytes.now buffer.old).reply }
    ensures image { image.new ≡ (live_of image.old bytes.now buffer.old).image }
    ensures buffer { buffer.new ≡ (live_of image.old bytes.now buffer.old).buffer }
{
    let (message, consumed) = message::read_message(bytes)?;
    if buffer.len() < entry::LONGEST_CALL {
        return Err(Refusal::NoRoom);
    }
    let number = message::account_of(message);
    let at = word_at(number);
    let mut account = image::read_account(image, at);
    let progress = account.progressing;
    let held = account.holding;
    let entries = register::step(&mut account, message)?;
    let written = entry::write_entries(entries.as_slice(), number, buffer)?;
    image::put_used(
        image,
        at,
        account,
        progress.max(account.progressing),
        held.max(account.holding),
    );
    Ok(Taken { consumed, written })
}
