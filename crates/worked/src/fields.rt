// A case's line taken apart. Only `readable` refuses: elsewhere a field that is missing is empty, a character that is no digit counts as 0, and
// what goes past a buffer's end is dropped.
ghost use Rattle.std.specs.Prelude.{◌≤◌, ◌<◌, length};

use block::Orders;
use console::{byte, digit, unhex};
use order::{Order, Release, Slot};
use pool::{Entry, Pool};

// What follows of a line: fields with a space between two.
#[derive(Clone, Copy)]
pub struct Fields<'a> {
    rest: &'a [u8],
}

impl<'a> Fields<'a> {
    pub fn next(&mut self) -> &'a [u8] {
        let mut parts = self.rest.splitn(2, |byte| *byte == b' ');
        let field = parts.next().unwrap_or_default();
        self.rest = parts.next().unwrap_or_default();
        field
    }
}

// What the next fields stand for.
impl Fields<'_> {
    // Whether it is a release or not: as far as 64 bits go.
    pub fn release(&mut self) -> Release {
        decimal(self.next())
    }

    // A number of 32 bits, the largest one if it is above that.
    pub fn number(&mut self) -> u32 {
        u32::try_from(self.release()).unwrap_or(u32::MAX)
    }

    pub fn order(&mut self) -> Order {
        Order {
            display: self.number(),
            expected: self.release(),
            new: self.release(),
        }
    }

    // A count, and three numbers for each of the listed orders, of which there may be more or fewer.
    pub fn orders(mut self) -> Orders {
        let count = self.number();
        let mut list = [Order::default(); 8];
        for order in &mut list {
            *order = self.order();
        }
        Orders { count, list }
    }

    fn entry(&mut self) -> Entry {
        Entry {
            order: self.order(),
            slot: Slot(self.number()),
            depot: self.number(),
        }
    }

    // A count, and five numbers for each of the listed entries, of which there may be more or fewer.
    pub fn pool(mut self) -> Pool {
        let count = self.number();
        let mut entries = [Entry::default(); 64];
        for entry in &mut entries {
            *entry = self.entry();
        }
        Pool { count, entries }
    }
}

fn decimal(text: &[u8]) -> u64 {
    let mut value: u64 = 0;
    for byte in text {
        if let Some(tens) = value.checked_mul(10) {
            value = tens.wrapping_add(digit(*byte) as u64);
        }
    }
    value
}

// An op, the fields behind it, and the bytes that the first seven of them stand for, one after another, with the places where they end.
#[derive(Clone, Copy)]
pub struct Case<'a> {
    pub op: &'a [u8],
    fields: Fields<'a>,
    bytes: &'a [u8],
    ends: [usize; 8],
}

impl<'a> Case<'a> {
    // The bytes go into a buffer.
    pub fn new(line: &'a [u8], bytes: &'a mut [u8]) -> Case<'a> {
        let mut fields = Fields { rest: line };
        let op = fields.next();
        let mut next = fields;
        let mut ends = [0; 8];
        let mut at = 0;
        for end in &mut ends[1..] {
            at += decode(next.next(), &mut bytes[at..]);
            *end = at;
        }
        Case {
            op,
            fields,
            bytes,
            ends,
        }
    }

    // The fields from a place on, where the first has place 1.
    pub fn fields(&self, from: usize) -> Fields<'a> {
        let mut fields = self.fields;
        for _ in 1..from {
            fields.next();
        }
        fields
    }

    // The field as a place or a length.
    pub fn place(&self, place: usize) -> usize {
        self.release(place) as usize
    }

    pub fn number(&self, place: usize) -> u32 {
        self.fields(place).number()
    }

    pub fn release(&self, place: usize) -> Release {
        self.fields(place).release()
    }

    pub fn slot(&self, place: usize) -> Slot {
        Slot(self.number(place))
    }

    // The bytes that the field stands for.
    pub fn string(&self, place: usize) -> &'a [u8]
        requires { (1 ≤ place) × (place < 8) }
    {
        let range = self.ends[place - 1]..self.ends[place];
        self.bytes.get(range).unwrap_or_default()
    }

    // The same at the front of an array, with zeros behind them.
    pub fn array<const N: usize>(&self, place: usize) -> [u8; N] {
        let mut array = [0; N];
        decode(self.fields(place).next(), &mut array);
        array
    }

    // The same at the front of a buffer: what is answered is that front.
    pub fn buffer<'b>(&self, place: usize, space: &'b mut [u8]) -> &'b mut [u8] {
        let length = decode(self.fields(place).next(), space);
        &mut space[..length]
    }

    // Whether there are so many fields, none of them empty, all of characters that a field may have.
    pub fn readable(&self, least: usize) -> bool {
        let all = self.fields.rest;
        all.split(|byte| *byte == b' ').all(stands) && !self.fields(least).next().is_empty()
    }
}

// Whether a field is one, and its characters are those that one may have.
fn stands(field: &[u8]) -> bool {
    !field.is_empty()
        && field
            .iter()
            .all(|byte| b"0123456789abcdef+*-".contains(byte))
}

// Puts the bytes that a field stands for at the front of a buffer, as far as it goes, and answers how many they are.
fn decode(field: &[u8], out: &mut [u8]) -> usize
    ensures { result ≤ length out.new }
{
    let mut at = 0;
    for piece in field.split(|byte| *byte == b'+') {
        at += decode_piece(piece, &mut out[at..]);
    }
    at
}

// A piece is a byte and how often it stands, as `00*64`, or bytes one after another.
fn decode_piece(piece: &[u8], out: &mut [u8]) -> usize
    ensures { result ≤ length out.new }
{
    let [high, low, b'*', times @ ..] = piece else {
        return unhex(piece, out);
    };
    let times = out.len().min(decimal(times) as usize);
    out[..times].fill(byte(*high, *low));
    times
}
