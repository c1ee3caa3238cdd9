// Runs the signatures of standard input through `lms::verify`: as they are, with a byte changed, and with other lengths. SOURCE.md says how a case is
// written, and what each letter of the output means.
#![tactic(auto)]

ghost use Rattle.std.specs.Prelude.{◌≤◌, length};

use refusal::Refusal;
use std::io::Read;

const ROOM: usize = 16384;

// The first and the last byte of each part of a key, of a signature and of a message that stand one behind the other, but the message's last.
const PLACES: [usize; 25] = [
    0, 3, 4, 7, 8, 23, 24, 55, 56, 59, 60, 63, 64, 95, 96, 127, 1152, 1183, 1184, 1187, 1188, 1219,
    1316, 1347, 1348,
];

fn main(rt: HostRuntime) {
    let mut text = [0u8; ROOM];
    let count = read_full(&mut rt.stdin(), &mut text);
    lines(&rt, &text[0..count]);
}

// Reads until the buffer is full, the input ends or a read fails, and answers how many bytes there are.
fn read_full(input: &mut impl Read, buf: &mut [u8]) -> usize
    ensures { result ≤ length buf.new }
{
    let mut done = 0;
    while done < buf.len() {
        let more = input.read(&mut buf[done..]).unwrap_or(0);
        if more == 0 {
            break;
        }
        done += more;
    }
    done
}

// A write that fails is let go: what it was to print is then missing.
fn print(rt: &impl Print, text: &[u8]) {
    let _ = rt.write_all(text);
}

fn lines(rt: &impl Print, text: &[u8]) {
    let mut from = 0;
    for i in 0..text.len() {
        if text[i] == b'\n' {
            line(rt, &text[from..i]);
            from = i + 1;
        }
    }
}

// A comment is printed as it stands.
fn line(rt: &impl Print, text: &[u8]) {
    if byte_at(text, 0) == b'#' {
        print(rt, text);
    } else {
        case(rt, text);
    }
    print(rt, b"\n");
}

fn byte_at(s: &[u8], at: usize) -> u8 {
    if at < s.len() { s[at] } else { 0 }
}

// The digits of a key, of a signature and of a message, with a space between them.
fn case(rt: &impl Print, line: &[u8]) {
    if line.len() < 2700 {
        print(rt, b"bad line");
        return;
    }
    let size = 1348 + (line.len() - 2698) / 2;
    if 1604 < size {
        print(rt, b"bad line");
        return;
    }
    let mut bytes = [0u8; 1604];
    decode(&line[0..112], &mut bytes, 0);
    decode(&line[113..2697], &mut bytes, 56);
    decode(&line[2698..], &mut bytes, 1348);
    tried(rt, &mut bytes[0..size]);
}

fn tried(rt: &impl Print, bytes: &mut [u8]) {
    verify_cut(rt, &*bytes, 56, 1348, 1348);
    each_changed(rt, bytes);
    print(rt, b" ");
    other_lengths(rt, &*bytes);
    long_messages(rt, &*bytes);
}

// Puts the bytes that hexadecimal digits stand for at a place of a buffer, as far as it goes.
fn decode(digits: &[u8], out: &mut [u8], at: usize) {
    for i in 0..digits.len() / 2 {
        put(
            out,
            at,
            i,
            nibble(digits[2 * i]) * 16 + nibble(digits[2 * i + 1]),
        );
    }
}

fn put(out: &mut [u8], at: usize, i: usize, byte: u8) {
    if at < out.len() {
        if i < out.len() - at {
            out[at + i] = byte;
        }
    }
}

// What is no digit counts as 0.
fn nibble(digit: u8) -> u8
    ensures { result ≤ 15 }
{
    match digit {
        b'0'..=b'9' => digit - b'0',
        b'a'..=b'f' => digit - b'a' + 10,
        _ => 0,
    }
}

fn verify(rt: &impl Print, key: &[u8], signature: &[u8], message: &[u8]) {
    let letter = match lms::verify(key, signature, message) {
        Ok(()) => b"v",
        Err(Refusal::TooLong) => b"l",
        Err(Refusal::BadForm) => b"m",
        Err(Refusal::BadSignature) => b"i",
        Err(_) => b"?",
    };
    print(rt, letter);
}

// A key, a signature and a message that stand one behind the other, the key and the signature up to a place and the message from a place on.
fn verify_cut(rt: &impl Print, bytes: &[u8], key_end: usize, signature_end: usize, message: usize) {
    if bytes.len() < key_end {
        return;
    }
    if signature_end < 56 {
        return;
    }
    if bytes.len() < signature_end {
        return;
    }
    if bytes.len() < message {
        return;
    }
    verify(
        rt,
        &bytes[0..key_end],
        &bytes[56..signature_end],
        &bytes[message..],
    );
}

fn each_changed(rt: &impl Print, bytes: &mut [u8]) {
    for i in 0..25 {
        if i == 0 || i == 8 || i == 24 {
            print(rt, b" ");
        }
        changed(rt, bytes, PLACES[i]);
    }
    if 0 < bytes.len() {
        changed(rt, bytes, bytes.len() - 1);
    }
}

// One byte counted on by one, and back.
fn changed(rt: &impl Print, bytes: &mut [u8], at: usize) {
    if bytes.len() <= at {
        return;
    }
    let byte = bytes[at];
    bytes[at] = next(byte);
    verify_cut(rt, &*bytes, 56, 1348, 1348);
    bytes[at] = byte;
}

fn next(byte: u8) -> u8 {
    if byte < 255 { byte + 1 } else { 0 }
}

// A byte less or more: of the key, of the signature and of the message.
fn other_lengths(rt: &impl Print, bytes: &[u8]) {
    verify_cut(rt, bytes, 55, 1348, 1348);
    verify_cut(rt, bytes, 57, 1348, 1348);
    verify_cut(rt, bytes, 56, 1347, 1348);
    verify_cut(rt, bytes, 56, 1349, 1348);
    verify_cut(rt, bytes, 56, 1348, 1349);
    verify_cut(rt, bytes, 56, 1348, 1347);
}

// The longest message that is taken, and one that is longer.
fn long_messages(rt: &impl Print, bytes: &[u8]) {
    if bytes.len() < 1348 {
        return;
    }
    let message = [0u8; 257];
    verify(rt, &bytes[0..56], &bytes[56..1348], &message[0..256]);
    verify(rt, &bytes[0..56], &bytes[56..1348], &message);
}
