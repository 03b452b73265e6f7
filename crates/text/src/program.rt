// What the program prints, step by step: how it begins, the text of each message, and its last line.
// Each step writes its text to the beginning of a buffer; LONGEST_TEXT bytes hold any.
ghost use Rattle.std.specs.Prelude.{◌≡◌, ◌+◌, ◌≤◌};
ghost use Rattle.text.specs.Text.{Put};
ghost use Rattle.text.specs.Program.{begin_text, begin_of, start_after, counted, Serves, finish_text};

use crate::line::Line;
use crate::turns;
use filing::Entries;
use register::{Passed, Register};

// The program takes at most so many bytes; one byte more shows that there are more.
pub const LONGEST_INPUT: usize = 65_536;

// The room that the text of a step needs: the lines of a call.
pub const LONGEST_TEXT: usize = Entries::MOST * crate::LONGEST_LINE;

// What has been served of an input: the register, where the next message starts, the messages met and refused, and how long the last text was.
// The end of the input stands for no message, as `begin_of` and `Serves` have it.
#[derive(Clone, Copy, Drop)]
pub struct Served {
    pub register: Register,
    pub from: usize,
    pub met: u32,
    pub refused: u32,
    pub written: usize,
}

// The beginning: the first line, and one more where the input is too long, of which nothing is served.
#[tactic(auto, using(crate::proofs::Pieces::put_stored), unfolding(crate::specs::Output::first_line, crate::specs::Output::too_long, crate::specs::Quoted::quoted))]
pub fn begin(input: &[u8], out: &mut [u8]) -> Served
    ensures { (result ≡ begin_of input.now) × (Put (begin_text input.now) 0 20 out.old result.written out.new) }
{
    let (text, from): (&[u8], usize) = if LONGEST_INPUT < input.len() {
        (b"register 1\ntoo long\n", input.len())
    } else {
        (b"register 1\n", 0)
    };
    layout::store(out, 0, text);
    Served {
        register: Register::fresh(),
        from,
        met: 0,
        refused: 0,
        written: text.len(),
    }
}

// Sends the next message to the register: its text, and what has been served then. Where there is none nothing changes.
pub fn serve(mut served: Served, input: &[u8], out: &mut [u8]) -> Served
    ensures { Serves served input.now out.old result out.new }
{
    if input.len() <= served.from {
        return Served {
            written: 0,
            ..served
        };
    }
    let rest = &input[served.from..];
    let turned = turns::turn(&mut served.register, rest, out);
    let passed = register::passed_by(turned.reply, message::whole_length(rest[0]));
    Served {
        from: start_after(served.from, passed, input.len()),
        met: counted_by(served.met, 1),
        refused: counted_by(served.refused, passed.refused),
        written: turned.written,
        ..served
    }
}

// The end: the last line; an input that is too long has none.
pub fn finish(served: Served, input: &[u8], out: &mut [u8]) -> usize
    ensures { Put (finish_text served input.now) 0 26 out.old result out.new }
{
    if input.len() > LONGEST_INPUT {
        return 0;
    }
    let mut line = Line::new();
    line.put(b"end");
    line.put_number(served.met);
    line.put_number(served.refused);
    line.put(b"\n");
    layout::store(out, 0, line.as_slice());
    line.len()
}

// Where the next message starts; the end of the input where there is none.
fn start_after(from: usize, passed: Passed, end: usize) -> usize
    requires { from + passed.consumed ≤ end }
    ensures { result ≡ start_after from passed end }
{
    if passed.stops {
        return end;
    }
    from + passed.consumed
}

// A count with one more, or none.
fn counted_by(count: u32, by: usize) -> u32
    requires { by ≤ 1 }
    ensures { result ≡ counted count by }
{
    if (count as usize) < LONGEST_INPUT {
        count + by as u32
    } else {
        count
    }
}
