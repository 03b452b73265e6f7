// The live calls as callers in C or Rust have them; the static library (crate `live_c`, include/nacozteya.h) exports them.
ghost use Rattle.std.specs.Prelude.{◌≡◌};
ghost use Rattle.live.specs.First.{exported_call_of, exported_look_of, exported_line_of};

use crate::{call, lines, question};

// The call, with the bytes consumed and the bytes of entries written in the first places of `counts`, as many as there are; the answer is the number of the refusal, or 0.
pub fn nacozteya_call(
    image: &mut [u32],
    message: &[u8],
    entries: &mut [u8],
    counts: &mut [u64],
) -> u64
    ensures { (result ≡ (exported_call_of image.old message.now entries.old counts.old).answer) × (image.new ≡ (exported_call_of image.old message.now entries.old counts.old).image) × (entries.new ≡ (exported_call_of image.old message.now entries.old counts.old).entries) × (counts.new ≡ (exported_call_of image.old message.now entries.old counts.old).counts) }
{
    let reply = call::call_image(image, message, entries);
    let (consumed, written) = reply.map_or((0, 0), |taken| (taken.consumed, taken.written));
    layout::store(counts, 0, &[consumed as u64, written as u64]);
    register::refusal_of(reply) as u64
}

// The outcome question, with the life, the balance and the number of undecided events that are applied in the first places of `state`, as many as there are; the answer is the number of the refusal, which stores nothing, or 0.
pub fn nacozteya_outlook(image: &[u32], account: u16, number: u32, state: &mut [u32]) -> u64
    ensures { (result ≡ (exported_look_of image.now account number state.old).answer) × (state.new ≡ (exported_look_of image.now account number state.old).state) }
{
    match question::outlook_image(image, account, number) {
        Err(refusal) => refusal.number() as u64,
        Ok(told) => {
            layout::store(
                state,
                0,
                &[
                    image::life_word(told.state.life),
                    told.state.balance,
                    told.applied,
                ],
            );
            0
        }
    }
}

// The line of an entry, with the bytes of the entry and those of its line in the first places of `counts`, as many as there are; the answer is the length of the line, 0 where there is none.
pub fn nacozteya_line(entry: &[u8], line: &mut [u8], counts: &mut [u64]) -> u64
    ensures { (result ≡ (exported_line_of entry.now line.old counts.old).answer) × (line.new ≡ (exported_line_of entry.now line.old counts.old).line) × (counts.new ≡ (exported_line_of entry.now line.old counts.old).counts) }
{
    let lined = lines::write_entry_line(entry, line).unwrap_or_default();
    layout::store(counts, 0, &[lined.entry as u64, lined.line as u64]);
    lined.line as u64
}
