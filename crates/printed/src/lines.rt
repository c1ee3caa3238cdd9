// The lines of the text, written where there is room for them.
ghost use Rattle.laws.specs.Placed.{Room, Wrote};
ghost use Rattle.printed.specs.Station as spec;
ghost use Rattle.refusal.specs.Answers.{number_of};
ghost use Rattle.printed.specs.Answers.{told_asked};

use crate::{Asked, decimal};
use chain::Refused;
use order::{BlockCount, Release, Slot};

// The whole text of an answer.
pub fn put_text(out: &mut [u8], asked: Result<Asked, Refused>) -> usize
    requires { Room out.old 0 (spec.text_of (told_asked asked)) }
    ensures { Wrote out.old 0 (spec.text_of (told_asked asked)) result out.new }
{
    match asked {
        Ok(asked) => {
            let report = asked.report;
            let at = put_first(out, asked.clock, report.held, report.settled);
            put_displays(out, at, &report.releases)
        }
        Err(refused) => put_refusal(out, refused),
    }
}

fn put_refusal(out: &mut [u8], refused: Refused) -> usize
    requires { Room out.old 0 (spec.refused_text (number_of refused.refusal) refused.place.0) }
    ensures { Wrote out.old 0 (spec.refused_text (number_of refused.refusal) refused.place.0) result out.new }
{
    let at = buffer::put(out, 0, b"refused ").unwrap();
    put_two(out, at, refused.refusal.number(), refused.place.0 as u64)
}

fn put_first(out: &mut [u8], clock: Slot, held: BlockCount, settled: BlockCount) -> usize
    requires { Room out.old 0 (spec.first_line clock.0 held.0 settled.0) }
    ensures { Wrote out.old 0 (spec.first_line clock.0 held.0 settled.0) result out.new }
{
    let at = put_word(out, 0, clock.0 as u64, b' ');
    let at = put_word(out, at, held.0 as u64, b' ');
    put_word(out, at, settled.0 as u64, b'\n')
}

fn put_displays(out: &mut [u8], at: usize, releases: &[Release; 64]) -> usize
    requires { Room out.old at (spec.display_lines releases.now 64) }
    ensures { Wrote out.old at (spec.display_lines releases.now 64) result out.new }
{
    let mut place = at;
    for (display, release) in releases.iter().enumerate() {
        place = put_display(out, place, display as u32, *release);
    }
    place
}

// The line of a display, if its release is not 0.
fn put_display(out: &mut [u8], at: usize, display: u32, release: Release) -> usize
    requires { Room out.old at (spec.line_of display release) }
    ensures { Wrote out.old at (spec.line_of display release) result out.new }
{
    if release == 0 {
        return at;
    }
    put_two(out, at, display, release)
}

fn put_two(out: &mut [u8], at: usize, first: u32, second: u64) -> usize
    requires { Room out.old at (spec.two_numbers first second) }
    ensures { Wrote out.old at (spec.two_numbers first second) result out.new }
{
    let at = put_word(out, at, first as u64, b' ');
    put_word(out, at, second, b'\n')
}

// A number, and a space or a newline behind it.
fn put_word(out: &mut [u8], at: usize, value: u64, behind: u8) -> usize
    requires { Room out.old at (spec.word value behind) }
    ensures { Wrote out.old at (spec.word value behind) result out.new }
{
    let end = decimal::put(out, at, value);
    out[end] = behind;
    end + 1
}
