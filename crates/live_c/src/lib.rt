// The live calls for callers in C or Rust: the static library that include/nacozteya.h tells of. The C interface: clauses as those of the functions that are called.
#![tactic(auto)]

ghost use Rattle.std.specs.Prelude.{◌≡◌};
ghost use Rattle.live.specs.First.{exported_call_of, exported_look_of, exported_line_of};

// The call, with the bytes consumed and the bytes of entries written in the first places of `counts`, as many as there are; the answer is the number of the refusal, or 0.
#[unsafe(no_mangle)]
pub extern "C" fn nacozteya_call(
    image: &mut [u32],
    message: &[u8],
    entries: &mut [u8],
    counts: &mut [u64],
) -> u64
    ensures { (result ≡ (exported_call_of image.old message.now entries.old counts.old).answer) × (image.new ≡ (exported_call_of image.old message.now entries.old counts.old).image) × (entries.new ≡ (exported_call_of image.old message.now entries.old counts.old).entries) × (counts.new ≡ (exported_call_of image.old message.now entries.old counts.old).counts) }
{
    live::nacozteya_call(image, message, entries, counts)
}

// The outcome question, with the life, the balance and the number of undecided events that are applied in the first places of `state`, as many as there are; the answer is the number of the refusal, which stores nothing, or 0.
#[unsafe(no_mangle)]
pub extern "C" fn nacozteya_outlook(
    image: &[u32],
    account: u16,
    number: u32,
    state: &mut [u32],
) -> u64
    ensures { (result ≡ (exported_look_of image.now account number state.old).answer) × (state.new ≡ (exported_look_of image.now account number state.old).state) }
{
    live::nacozteya_outlook(image, account, number, state)
}

// The line of an entry, with the bytes of the entry and those of its line in the first places of `counts`, as many as there are; the answer is the length of the line, 0 where there is none.
#[unsafe(no_mangle)]
pub extern "C" fn nacozteya_line(entry: &[u8], line: &mut [u8], counts: &mut [u64]) -> u64
    ensures { (result ≡ (exported_line_of entry.now line.old counts.old).answer) × (line.new ≡ (exported_line_of entry.now line.old counts.old).line) × (counts.new ≡ (exported_line_of entry.now line.old counts.old).counts) }
{
    live::nacozteya_line(entry, line, counts)
}
