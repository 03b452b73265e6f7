// What messages and entries share of their bytes: numbers, highest byte first, rows of them, and the heading that a row begins with.
// Every public function takes any buffer and any place: a byte past the end is not stored, and counts as 0 when it is read.
#![tactic(auto)]

ghost use Rattle.std.specs.Prelude.{◌≡◌, ℕ, map, length, slice_index, ◌+◌, ◌≤◌, ◌<◌};
ghost use Rattle.std.proofs.lemmas.List.Edits.{sets};
ghost use Rattle.layout.specs.Number.{bytes_of, number_at};
ghost use Rattle.layout.specs.Fields.{written, numbers_at};
ghost use Rattle.layout.specs.Heading.{heading_numbers, filed_from};
ghost use Rattle.layout.specs.Shapes.{bytes_in, padded};

use filing::Filed;

// The accounts are numbered from 0 to this one.
pub const LAST_ACCOUNT: u16 = 15;

// The most numbers that a row has.
pub const FIELDS: usize = 10;

// How a kind of message or entry lies in bytes: the widths of its numbers, 0 where it has no more of them, and its whole length.
// Widths stay numbers: `put_numbers` and `read_numbers` take any, as the definition `bytes_in` says.
#[derive(Clone, Copy, Drop)]
pub struct Shape {
    pub widths: [u8; FIELDS],
    pub whole: usize,
}

impl Shape {
    // That of no kind.
    pub const NONE: Shape = Shape {
        widths: [0; FIELDS],
        whole: 0,
    };
}

// The row of numbers of a heading, with 0 in the places behind it: what is filed is taken apart here. The kind is a number, since a row of numbers is what this makes.
pub fn heading_numbers(kind: u8, transaction: u32, account: u16, filed: Filed) -> [u32; FIELDS]
    ensures { result ≡ padded (heading_numbers kind transaction account filed) }
{
    [
        kind as u32,
        transaction,
        account as u32,
        filed.second,
        0,
        0,
        0,
        0,
        0,
        0,
    ]
}

// What is filed, from the row of numbers of a message or an entry.
pub fn filed_from(numbers: [u32; FIELDS]) -> Filed
    ensures { result ≡ filed_from numbers }
{
    Filed { second: numbers[3] }
}

// Stores a row of numbers from `at` on, each by its width.
pub fn put_numbers(buffer: &mut [u8], at: usize, widths: [u8; FIELDS], numbers: [u32; FIELDS])
    ensures { buffer.new ≡ sets buffer.old at (written (map bytes_in widths) numbers) }
{
    let room = buffer.len().saturating_sub(at);
    if LONGEST_ROW <= room {
        put_row(&mut buffer[at..], widths, numbers);
    } else if 0 < room {
        // Near the end the row is stored beside the buffer, over a copy of what stands there.
        let mut row = [0; LONGEST_ROW];
        row[..room].copy_from_slice(&buffer[at..]);
        put_row(&mut row, widths, numbers);
        buffer[at..].copy_from_slice(&row[..room]);
    }
}

// The row of numbers at the beginning of the bytes, each by its width.
pub fn read_numbers(bytes: &[u8], widths: [u8; FIELDS]) -> [u32; FIELDS]
    ensures { result ≡ numbers_at (map bytes_in widths) bytes.now 0 }
{
    let mut numbers = [0; FIELDS];
    let mut from = 0;
    // By index: a proof knows nothing of what an adapter of `iter_mut` wrote.
    for (i, width) in widths.iter().enumerate() {
        numbers[i] = number(bytes, from, *width);
        from += bytes_in(*width);
    }
    numbers
}

// Stores values from `at` on, as many as there are places for.
#[tactic(auto, using(crate::proofs::Stores::store_part, crate::proofs::Stores::store_none))]
pub fn store<T: Copy + Drop>(places: &mut [T], at: usize, values: &[T])
    ensures { places.new ≡ sets places.old at values.now }
{
    if at < places.len() {
        let count = values.len().min(places.len() - at);
        places[at..at + count].copy_from_slice(&values[..count]);
    }
}

// Stores a number of 1 byte at `at`, by its index: `get_mut` says nothing of what the buffer ends as.
pub fn put1(buffer: &mut [u8], at: usize, number: u8)
    ensures { buffer.new ≡ sets buffer.old at (bytes_of 1 number) }
{
    if at < buffer.len() {
        buffer[at] = number;
    }
}

// The number in the byte at `at`. Three functions by these names, since each width has a type of its own.
#[tactic(auto, unfolding(crate::specs::Number::number_at))]
pub fn number1(bytes: &[u8], at: usize) -> u8
    ensures { result ≡ number_at bytes.now at 1 }
{
    bytes.get(at).copied().unwrap_or(0)
}

// The number in the 2 bytes from `at` on.
#[tactic(auto, unfolding(crate::specs::Number::number_at))]
pub fn number2(bytes: &[u8], at: usize) -> u16
    ensures { result ≡ number_at bytes.now at 2 }
{
    u16::from_be_bytes(bytes_at(bytes, at))
}

// The number in the 4 bytes from `at` on.
#[tactic(auto, unfolding(crate::specs::Number::number_at))]
pub fn number4(bytes: &[u8], at: usize) -> u32
    ensures { result ≡ number_at bytes.now at 4 }
{
    u32::from_be_bytes(bytes_at(bytes, at))
}

// The number of that width from `at` on.
#[tactic(auto, unfolding(crate::specs::Number::number_at))]
fn number(bytes: &[u8], at: usize, width: u8) -> u32
    ensures { result ≡ number_at bytes.now at (bytes_in width) }
{
    match width {
        0 => 0,
        1 => number1(bytes, at) as u32,
        2 => number2(bytes, at) as u32,
        _ => number4(bytes, at),
    }
}

// The bytes from `at` on, as many as are asked for; a byte past the end is 0.
fn bytes_at<const COUNT: usize>(bytes: &[u8], at: usize) -> [u8; COUNT]
    ensures { (i : ℕ) → i < COUNT → slice_index result i ≡ slice_index bytes.now (at + i) }
{
    if bytes.len() <= at {
        return [0; COUNT];
    }
    let rest = &bytes[at..];
    if let Some(whole) = rest.first_chunk() {
        return *whole;
    }
    // Near the end byte by byte, since a copy of a part is a call; by index as in `read_numbers`.
    let mut found = [0; COUNT];
    for i in 0..COUNT {
        found[i] = number1(rest, i);
    }
    found
}

// How many bytes a number of that width has.
fn bytes_in(width: u8) -> usize
    ensures { (result ≡ bytes_in width) × (result ≤ 4) }
{
    match width {
        0 => 0,
        1 => 1,
        2 => 2,
        _ => 4,
    }
}

// No row is longer: a number has 4 bytes at most.
const LONGEST_ROW: usize = 4 * FIELDS;

// Stores a row of numbers where there is room for the longest: with no look at the buffer's end, the compiler makes the loop one step a number.
#[inline(always)]
fn put_row(buffer: &mut [u8], widths: [u8; FIELDS], numbers: [u32; FIELDS])
    requires { 40 ≤ length buffer.old }
    ensures { buffer.new ≡ sets buffer.old 0 (written (map bytes_in widths) numbers) }
{
    let mut to = 0;
    // By index: with `zip` the proof, which goes place by place, did not close.
    for (i, width) in widths.iter().enumerate() {
        to += put(&mut buffer[to..], *width, numbers[i]);
    }
}

// Stores a number of that width where there is room for 4 bytes, and answers how many bytes it has.
fn put(buffer: &mut [u8], width: u8, number: u32) -> usize
    requires { 4 ≤ length buffer.old }
    ensures count { (result ≡ bytes_in width) × (result ≤ 4) }
    ensures buffer { buffer.new ≡ sets buffer.old 0 (bytes_of (bytes_in width) number) }
{
    let [a, b, c, d] = number.to_be_bytes();
    match width {
        0 => 0,
        1 => {
            put1(buffer, 0, d);
            1
        }
        2 => put_bytes(buffer, [c, d]),
        _ => put_bytes(buffer, [a, b, c, d]),
    }
}

// Stores bytes where there is room for them, and answers how many they are.
fn put_bytes<const COUNT: usize>(buffer: &mut [u8], bytes: [u8; COUNT]) -> usize
    requires { COUNT ≤ length buffer.old }
    ensures count { result ≡ COUNT }
    ensures buffer { buffer.new ≡ sets buffer.old 0 bytes.entry }
{
    buffer[..COUNT].copy_from_slice(&bytes);
    COUNT
}
