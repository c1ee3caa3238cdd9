// The next block, drafted, as the text that a host signs, and appended: `draft`, `text`, `append`. What is printed ends with every byte of
// the buffer, so that a byte that should have stayed is seen.
use crate::fields::Case;
use crate::print::written;

// draft GENESIS NOW HELD LENGTH CONTROLLER SLOT-SIGNATURE BUFFER COUNT DISPLAY EXPECTED NEW SLOT DEPOT ..
pub fn draft(rt: &impl Print, case: &Case, space: &mut [u8]) {
    let buffer = case.buffer(7, space);
    let length = issue::draft(
        case.string(1),
        case.slot(2),
        case.string(3),
        case.place(4),
        &case.fields(8).pool(),
        case.number(5),
        case.array(6),
        buffer,
    );
    written(rt, "length", length, buffer);
}

// text GENESIS NOW HELD LENGTH CONTROLLER SLOT-SIGNATURE BUFFER COUNT DISPLAY EXPECTED NEW SLOT DEPOT ..
pub fn text(rt: &impl Print, case: &Case, space: &mut [u8]) {
    let buffer = case.buffer(7, space);
    let length = issue::block_text(
        case.string(1),
        case.slot(2),
        case.string(3),
        case.place(4),
        &case.fields(8).pool(),
        case.number(5),
        case.array(6),
        buffer,
    );
    written(rt, "length", length, buffer);
}

// append GENESIS NOW BUFFER LENGTH CONTROLLER SLOT-SIGNATURE BLOCK-SIGNATURE COUNT DISPLAY EXPECTED NEW SLOT DEPOT ..
pub fn append(rt: &impl Print, case: &Case, space: &mut [u8]) {
    let buffer = case.buffer(3, space);
    let length = issue::append(
        case.string(1),
        case.slot(2),
        buffer,
        case.place(4),
        &case.fields(8).pool(),
        case.number(5),
        case.array(6),
        case.array(7),
    );
    written(rt, "length", length, buffer);
}
