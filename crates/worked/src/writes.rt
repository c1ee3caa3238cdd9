// Blocks, their fronts and slot texts written into lent buffers: `write`, `front`, `length`, `slot-text`. What is printed ends with every
// byte of the buffer, so that a byte that should have stayed is seen.
use crate::fields::Case;
use crate::print::written;
use block::{Block, Front};
use console::say;

// write BUFFER AT LINK SLOT SLOT-SIGNATURE BLOCK-SIGNATURE COUNT DISPLAY EXPECTED NEW ..
pub fn write(rt: &impl Print, case: &Case, space: &mut [u8]) {
    let buffer = case.buffer(1, space);
    let block = Block {
        front: front_of(case, 7),
        block_signature: case.array(6),
    };
    let next = block::write(buffer, case.place(2), block);
    written(rt, "next", next, buffer);
}

// front BUFFER AT LINK SLOT SLOT-SIGNATURE COUNT DISPLAY EXPECTED NEW ..
pub fn front(rt: &impl Print, case: &Case, space: &mut [u8]) {
    let buffer = case.buffer(1, space);
    let next = block::write_front(buffer, case.place(2), front_of(case, 6));
    written(rt, "next", next, buffer);
}

// slot-text SLOT BUFFER
pub fn slot_text(rt: &impl Print, case: &Case, space: &mut [u8]) {
    let buffer = case.buffer(2, space);
    let next = block::slot_text(buffer, case.slot(1));
    written(rt, "next", next, buffer);
}

// length SLOT COUNT DISPLAY EXPECTED NEW ..
pub fn length(rt: &impl Print, case: &Case) {
    let length = block::length(case.fields(2).orders(), case.slot(1));
    say(rt, format_args!("length {length}"));
}

// The parts that both kinds of writing take. The orders stand last, from this field on.
fn front_of(case: &Case, orders: usize) -> Front {
    Front {
        link: case.array(3),
        orders: case.fields(orders).orders(),
        slot: case.slot(4),
        slot_signature: case.array(5),
    }
}
