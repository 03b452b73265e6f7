// The probe: drives each public call from outside, by frames of bytes, and tells the whole result in a line of text for each frame (docs/PROBE.md).
#![tactic(auto)]

mod calls;
mod disturb;
mod entries;
mod filed;
mod frames;
mod messages;
mod page;
mod runs;
mod show;
mod steps;

use account::Account;
use frames::{Frame, Frames};
use page::Page;
use register::Register;

// The longest input, in bytes: the program's.
const LONGEST: usize = text::LONGEST_INPUT;

// A frame that is not listed, or whose payload does not fit: nothing was called, changed or put.
#[derive(Drop)]
pub(crate) struct Unknown;

// Reads one byte more than the longest input, to see whether there is one.
fn main() {
    let mut input = [0u8; LONGEST + 1];
    let read = io::read_full(0, &mut input);
    drive(&input[..read]);
}

// Writes the text of an input.
fn drive(input: &[u8]) {
    let mut page = Page::blank();
    writeln!(page, "probe 1");
    if LONGEST < input.len() {
        writeln!(page, "too long");
    } else {
        lines(input, &mut page);
    }
    page.send();
}

// Puts a line for each frame, from a fresh register on, and the last line, with the number of the others.
fn lines(input: &[u8], page: &mut Page) {
    let mut register = Register::fresh();
    for frame in Frames(input) {
        match frame.map(|frame| answer(&mut register, frame, page)) {
            Some(Ok(())) => writeln!(page, ""),
            Some(Err(Unknown)) => writeln!(page, "unknown"),
            None => writeln!(page, "torn"),
        }
    }
    writeln!(page, "end {}", Frames(input).count());
}

// Answers a frame, and puts what it has to say. The codes are those of docs/PROBE.md.
fn answer(register: &mut Register, frame: Frame<'_>, page: &mut Page) -> Result<(), Unknown> {
    let payload = frame.payload;
    match frame.code {
        1 => calls::call(register, payload, page)?,
        2 => calls::outcome(register, payload, page)?,
        3 => messages::read(payload, page),
        4 => messages::write(payload, page)?,
        5 => disturb::set(register, payload, page)?,
        6 => show::stored(named(register, payload)?, page),
        7 => entries::read(payload, page),
        64 => show::order(named(register, payload)?, page),
        65 => runs::run(payload, page)?,
        67 => entries::line(payload, page),
        68 => steps::step(register, payload, page)?,
        _ => return Err(Unknown),
    }
    Ok(())
}

// The account that a frame names which has nothing else.
fn named<'a>(register: &'a Register, payload: &[u8]) -> Result<&'a Account, Unknown> {
    if payload.len() != 2 {
        return Err(Unknown);
    }
    let number = layout::number2(payload, 0) as usize;
    register.accounts.get(number).ok_or(Unknown)
}
