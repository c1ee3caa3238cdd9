// Runs the cases of standard input through the library and prints what it answers, a case a line. The form of a case is in SOURCE.md.
#![tactic(auto)]

ghost use Rattle.std.specs.Prelude.{◌≤◌, length};

mod adoptions;
mod blocks;
mod chains;
mod fields;
mod issues;
mod orders;
mod pools;
mod print;
mod tables;
mod walks;
mod writes;

use console::{read_full, say};
use fields::Case;
use std::io::Read;

// The longest byte string that a field may stand for, and the byte strings of a line.
const ROOM: usize = 70000;

const STRINGS: usize = 280000;

// The longest line.
const LINE: usize = 262144;

fn main(rt: HostRuntime) {
    let mut line = [0u8; LINE];
    run(&rt, &mut rt.stdin(), &mut line);
}

// Nothing says that the input ends, so the turns are counted, up to more than there can be.
fn run(rt: &impl Print, input: &mut impl Read, line: &mut [u8]) {
    let mut chunk = [0u8; 4096];
    let mut used = 0;
    for _ in 0..u64::MAX {
        let size = read_full(input, &mut chunk).unwrap_or_else(|broken| broken.done);
        if size == 0 {
            break;
        }
        used = taken(rt, line, used, &chunk[..size]);
    }
    // the last line may have no newline
    if used > 0 {
        answered(rt, &line[..used]);
    }
}

// Goes on with a line of which so many bytes are there, answers each that ends, and says how many bytes there are of the next.
fn taken(rt: &impl Print, line: &mut [u8], used: usize, chunk: &[u8]) -> usize
    requires { used ≤ length line.old }
    ensures { result ≤ length line.new }
{
    let mut next = used;
    for byte in chunk {
        if *byte == b'\n' {
            answered(rt, &line[..next]);
            next = 0;
        } else if next < line.len() {
            line[next] = *byte;
            next += 1;
        }
    }
    next
}

// A comment, or an empty line, is printed as it stands.
fn answered(rt: &impl Print, line: &[u8]) {
    match line {
        [] => {}
        [b'#', ..] => {
            let _ = rt.write_all(line);
        }
        _ => answer(rt, line),
    }
    say(rt, "\n");
}

#[derive(Clone, Copy)]
enum Op {
    Valid,
    Take,
    Genesis,
    Turn,
    Depth,
    Key,
    Block,
    Body,
    Write,
    Front,
    Length,
    SlotText,
    Walk,
    Check,
    Held,
    Choose,
    Adopt,
    Drop,
    Add,
    Draft,
    Text,
    Append,
}

// Each op with the least number of its fields.
const OPS: [(&[u8], usize, Op); 22] = [
    (b"valid", 4, Op::Valid),
    (b"take", 4, Op::Take),
    (b"genesis", 1, Op::Genesis),
    (b"turn", 2, Op::Turn),
    (b"depth", 1, Op::Depth),
    (b"key", 2, Op::Key),
    (b"block", 2, Op::Block),
    (b"body", 2, Op::Body),
    (b"write", 7, Op::Write),
    (b"front", 6, Op::Front),
    (b"length", 2, Op::Length),
    (b"slot-text", 2, Op::SlotText),
    (b"walk", 2, Op::Walk),
    (b"check", 4, Op::Check),
    (b"held", 4, Op::Held),
    (b"choose", 5, Op::Choose),
    (b"adopt", 6, Op::Adopt),
    (b"drop", 5, Op::Drop),
    (b"add", 9, Op::Add),
    (b"draft", 8, Op::Draft),
    (b"text", 8, Op::Text),
    (b"append", 8, Op::Append),
];

// A case's op, unless the line can't be read.
fn op_of(case: &Case) -> Option<Op> {
    for (name, least, op) in OPS {
        if case.op == name && case.readable(least) {
            return Some(op);
        }
    }
    None
}

fn answer(rt: &impl Print, line: &[u8]) {
    let mut bytes = [0u8; STRINGS];
    let case = Case::new(line, &mut bytes);
    let mut space = [0u8; ROOM];
    match op_of(&case) {
        Some(op) => run_op(rt, op, &case, &mut space),
        None => say(rt, "bad line"),
    }
}

fn run_op(rt: &impl Print, op: Op, case: &Case, space: &mut [u8]) {
    match op {
        Op::Valid => orders::valid(rt, case),
        Op::Take => orders::take(rt, case),
        Op::Genesis => tables::genesis(rt, case),
        Op::Turn => tables::turn(rt, case),
        Op::Depth => tables::depth(rt, case),
        Op::Key => tables::key(rt, case),
        Op::Block => blocks::block(rt, case),
        Op::Body => blocks::body(rt, case),
        Op::Write => writes::write(rt, case, space),
        Op::Front => writes::front(rt, case, space),
        Op::Length => writes::length(rt, case),
        Op::SlotText => writes::slot_text(rt, case, space),
        Op::Walk => walks::walk(rt, case),
        Op::Check => chains::check(rt, case),
        Op::Held => chains::held(rt, case),
        Op::Choose => adoptions::choose(rt, case),
        Op::Adopt => adoptions::adopt(rt, case, space),
        Op::Drop => pools::drop(rt, case),
        Op::Add => pools::add(rt, case),
        Op::Draft => issues::draft(rt, case, space),
        Op::Text => issues::text(rt, case, space),
        Op::Append => issues::append(rt, case, space),
    }
}
