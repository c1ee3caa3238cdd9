// Runs published vectors: FIPS 180-4's and lengths around a block for SHA-256, and 01's table for numbers. Writes what comes out, a line each.
#![tactic(auto)]

use console::{Hex, say};
use number::Number;
use std::fmt;

const MESSAGES: [(&str, &[u8]); 4] = [
    ("empty", b""),
    ("abc", b"abc"),
    (
        "448 bits",
        b"abcdbcdecdefdefgefghfghighijhijkijkljklmklmnlmnomnopnopq",
    ),
    (
        "896 bits",
        b"abcdefghbcdefghicdefghijdefghijkefghijklfghijklmghijklmnhijklmnoijklmnopjklmnopqklmnopqrlmnopqrsmnopqrstnopqrstu",
    ),
];

// How often the letter a stands in a message.
const LENGTHS: [usize; 8] = [55, 56, 63, 64, 119, 1000, 65536, 65537];

const WRITTEN: [Number; 10] = [
    0,
    127,
    128,
    300,
    16383,
    16384,
    4294967295,
    4294967296,
    34359738367,
    34359738368,
];

const READ: [&[u8]; 5] = [
    &[0x80, 0x00],
    &[0xFF, 0xFF, 0xFF, 0xFF, 0x10],
    &[0xFF, 0xFF, 0xFF, 0xFF, 0xFF],
    &[0xFF, 0xFF, 0xFF, 0xFF, 0x00],
    &[0x80],
];

fn main(rt: HostRuntime) {
    for (name, message) in MESSAGES {
        digest_line(&rt, name, message);
    }
    let many = [b'a'; 65537];
    for length in LENGTHS {
        let message = many.get(..length).unwrap_or_default();
        digest_line(&rt, format_args!("{length} times a"), message);
    }
    for value in WRITTEN {
        written_line(&rt, value);
    }
    for bytes in READ {
        read_line(&rt, bytes);
    }
}

fn digest_line(rt: &impl Print, name: impl fmt::Display + Drop, message: &[u8]) {
    say(rt, format_args!("sha256 of {name} "));
    match sha256::digest(message) {
        Ok(digest) => say(rt, format_args!("{}\n", Hex(&digest))),
        Err(refusal) => say(rt, format_args!("{refusal}\n")),
    }
}

// A number's bytes, and the number that they read as.
fn written_line(rt: &impl Print, value: Number) {
    let mut out = [0; 5];
    match number::write(&mut out, 0, value) {
        Ok(next) => read_line(rt, &out[..next]),
        Err(refusal) => say(rt, format_args!("number {refusal}\n")),
    }
}

fn read_line(rt: &impl Print, bytes: &[u8]) {
    say(rt, format_args!("number {} ", Hex(bytes)));
    match number::read(bytes, 0) {
        Ok((value, _)) => say(rt, format_args!("is {value}\n")),
        Err(refusal) => say(rt, format_args!("{refusal}\n")),
    }
}
