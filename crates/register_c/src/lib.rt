// A run of messages for callers in C or Rust: the static library that include/nacozteya.h tells of. The C interface: clauses as those of the function that is called.
#![tactic(auto)]

ghost use Rattle.std.specs.Prelude.{◌≡◌};
ghost use Rattle.register.specs.First.{export_of};

// The run, with its four numbers in the first places of `counts`, as many as there are; the answer is the length of the entries written.
#[unsafe(no_mangle)]
pub extern "C" fn nacozteya_run(messages: &[u8], entries: &mut [u8], counts: &mut [u64]) -> u64
    ensures { (result ≡ (export_of messages.now entries.old counts.old).answer) × (entries.new ≡ (export_of messages.now entries.old counts.old).entries) × (counts.new ≡ (export_of messages.now entries.old counts.old).counts) }
{
    register::nacozteya_run(messages, entries, counts)
}
