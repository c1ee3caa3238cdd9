// What the programs have in common: an input that is read until it ends, bytes as hexadecimal digits, read and printed, and what is printed.
#![tactic(auto)]

ghost use Rattle.std.specs.Prelude.{◌≤◌, ◌/◌, ◌≡◌, length, min, IfOk, IfErr};
ghost use Rattle.console.specs.Hex.{digit_of, byte_of};

use std::fmt;
use std::io::Read;

// A read that failed, and how many bytes there were before it.
#[derive(Clone, Copy, Debug, PartialEq, Eq)]
pub struct Broken {
    pub done: usize,
}

// Reads until the buffer is full or the input ends, and answers how many bytes there are.
pub fn read_full(input: &mut impl Read, buf: &mut [u8]) -> Result<usize, Broken>
    ensures whole { IfOk result (λ done. done ≤ length buf.new) }
    ensures broken { IfErr result (λ broken. broken.done ≤ length buf.new) }
{
    let mut done = 0;
    while done < buf.len() {
        match input.read(&mut buf[done..]) {
            Ok(0) => break,
            Ok(more) => done += more,
            Err(_) => return Err(Broken { done }),
        }
    }
    Ok(done)
}

// The value of a hexadecimal digit. What is none counts as 0.
pub fn digit(byte: u8) -> u8
    ensures value { result ≡ digit_of byte }
    ensures small { result ≤ 15 }
{
    match byte {
        b'0'..=b'9' => byte - b'0',
        b'a'..=b'f' => byte - b'a' + 10,
        _ => 0,
    }
}

// The byte that two digits stand for.
pub fn byte(high: u8, low: u8) -> u8
    ensures { result ≡ byte_of high low }
{
    digit(high) * 16 + digit(low)
}

// Puts the bytes that pairs of digits stand for at the front of a buffer, as far as it goes, and answers how many they are.
pub fn unhex(digits: &[u8], out: &mut [u8]) -> usize
    ensures { result ≡ min (length out.old) (length digits.now / 2) }
{
    for (slot, pair) in out.iter_mut().zip(digits.chunks_exact(2)) {
        *slot = byte(pair[0], pair[1]);
    }
    out.len().min(digits.len() / 2)
}

// Bytes as digits, two for each.
#[derive(Clone, Copy)]
pub struct Hex<'a>(pub &'a [u8]);

impl fmt::Display for Hex<'_> {
    fn fmt<W: fmt::Write>(&self, f: &mut fmt::Formatter<W>) -> fmt::Result {
        for byte in self.0 {
            write!(f, "{byte:02x}")?;
        }
        Ok(())
    }
}

// Prints a value. A write that fails is let go: what it was to print is then missing.
pub fn say(rt: &impl Print, value: impl fmt::Display + Drop) {
    let _ = rt.print(value);
}
