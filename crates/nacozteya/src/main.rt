// The program (section 12 of docs/REGISTER.md): reads messages from standard input, has the library make the text, and prints it as it comes.
#![tactic(auto)]

ghost use Rattle.std.specs.Prelude.{◌≤◌, length};

fn main() {
    let mut buffer = [0u8; text::LONGEST_INPUT + 1];
    let count = io::read_full(0, &mut buffer);
    let input = &buffer[..count];
    let mut out = [0u8; text::LONGEST_TEXT];
    let mut served = text::begin(input, &mut out);
    print(&out, served.written);
    // A `while`: how far it goes on, each message tells.
    while served.from < input.len() {
        served = text::serve(served, input, &mut out);
        print(&out, served.written);
    }
    let written = text::finish(served, input, &mut out);
    print(&out, written);
}

// Prints the beginning of a buffer.
fn print(out: &[u8], written: usize)
    requires { written ≤ length out.now }
{
    io::write_all(1, &out[..written]);
}
