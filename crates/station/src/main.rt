// The report program (01, "Worked by hand"): it reads its input and writes what `printed::station` makes of it. A read that fails is not the end of the
// input: then there is no report, since what came before might make an older one.
#![tactic(auto)]

use console::read_full;

// The longest genesis length and the longest now are 5 bytes each, the longest genesis 1,315. Of the chain 64,257 bytes are read, so that one that is
// too long is seen to be: what follows these bytes changes nothing (`cut_input` of `printed`).
const ROOM: usize = 5 + 1315 + 5 + 64257;

fn main(rt: HostRuntime) {
    let mut input = [0; ROOM];
    let Ok(size) = read_full(&mut rt.stdin(), &mut input) else {
        let _ = eprintln!(rt; "station: the input could not be read to its end");
        return;
    };
    // no text is longer than the buffer: one that were would not be written at all
    let mut out = [0; printed::LONGEST_TEXT];
    let end = printed::station(&input[..size], &mut out).unwrap_or(0);
    if rt.write_all(&out[..end]).is_err() {
        let _ = eprintln!(rt; "station: the report could not be written");
    }
}
