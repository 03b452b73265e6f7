// A run of messages as callers in C or Rust have it; the static library (crate `register_c`, include/nacozteya.h) exports it.
ghost use Rattle.std.specs.Prelude.{◌≡◌};
ghost use Rattle.register.specs.First.{export_of};

use crate::runs;

// The run, with its four numbers in the first places of `counts`, as many as there are; the answer is the length of the entries written.
pub fn nacozteya_run(messages: &[u8], entries: &mut [u8], counts: &mut [u64]) -> u64
    ensures { (result ≡ (export_of messages.now entries.old counts.old).answer) × (entries.new ≡ (export_of messages.now entries.old counts.old).entries) × (counts.new ≡ (export_of messages.now entries.old counts.old).counts) }
{
    let ran = runs::run(messages, entries);
    let written = ran.written as u64;
    layout::store(
        counts,
        0,
        &[
            ran.met as u64,
            ran.refused as u64,
            ran.consumed as u64,
            written,
        ],
    );
    written
}
