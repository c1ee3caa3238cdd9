// The depths (02, f), as fitters carry them on a sheet: a row for each n from 1 to 31, in it t from 0 to 10.
ghost use Rattle.std.specs.Prelude.{◌≡◌, ◌<◌, get_or};
ghost use Rattle.genesis.specs.Genesis.{depth_of};
ghost use Rattle.genesis.specs.Depths.{depths};

use number::Number;
use order::within;

const DEPTHS: [u16; 341] = [
    // n = 1
    1, 0, 0, 0, 0, 0, 0, 0, 0, 0, 0,
    // n = 2
    1, 0, 0, 0, 0, 0, 0, 0, 0, 0, 0,
    // n = 3
    1, 0, 0, 0, 0, 0, 0, 0, 0, 0, 0,
    // n = 4
    1, 10, 0, 0, 0, 0, 0, 0, 0, 0, 0,
    // n = 5
    1, 7, 0, 0, 0, 0, 0, 0, 0, 0, 0,
    // n = 6
    1, 4, 0, 0, 0, 0, 0, 0, 0, 0, 0,
    // n = 7
    1, 4, 31, 0, 0, 0, 0, 0, 0, 0, 0,
    // n = 8
    1, 4, 19, 0, 0, 0, 0, 0, 0, 0, 0,
    // n = 9
    1, 4, 13, 0, 0, 0, 0, 0, 0, 0, 0,
    // n = 10
    1, 4, 13, 64, 0, 0, 0, 0, 0, 0, 0,
    // n = 11
    1, 4, 7, 37, 0, 0, 0, 0, 0, 0, 0,
    // n = 12
    1, 4, 7, 28, 0, 0, 0, 0, 0, 0, 0,
    // n = 13
    1, 4, 7, 19, 109, 0, 0, 0, 0, 0, 0,
    // n = 14
    1, 4, 7, 19, 61, 0, 0, 0, 0, 0, 0,
    // n = 15
    1, 4, 7, 19, 37, 0, 0, 0, 0, 0, 0,
    // n = 16
    1, 4, 7, 10, 37, 166, 0, 0, 0, 0, 0,
    // n = 17
    1, 4, 7, 10, 25, 91, 0, 0, 0, 0, 0,
    // n = 18
    1, 4, 7, 10, 25, 61, 0, 0, 0, 0, 0,
    // n = 19
    1, 4, 7, 10, 25, 46, 235, 0, 0, 0, 0,
    // n = 20
    1, 4, 7, 10, 25, 46, 127, 0, 0, 0, 0,
    // n = 21
    1, 4, 7, 10, 13, 31, 91, 0, 0, 0, 0,
    // n = 22
    1, 4, 7, 10, 13, 31, 73, 316, 0, 0, 0,
    // n = 23
    1, 4, 7, 10, 13, 31, 55, 169, 0, 0, 0,
    // n = 24
    1, 4, 7, 10, 13, 31, 55, 106, 0, 0, 0,
    // n = 25
    1, 4, 7, 10, 13, 31, 37, 85, 409, 0, 0,
    // n = 26
    1, 4, 7, 10, 13, 16, 37, 64, 217, 0, 0,
    // n = 27
    1, 4, 7, 10, 13, 16, 37, 64, 145, 0, 0,
    // n = 28
    1, 4, 7, 10, 13, 16, 37, 64, 121, 514, 0,
    // n = 29
    1, 4, 7, 10, 13, 16, 37, 43, 97, 271, 0,
    // n = 30
    1, 4, 7, 10, 13, 16, 37, 43, 73, 190, 0,
    // n = 31
    1, 4, 7, 10, 13, 16, 19, 43, 73, 136, 631,
];

// The depth for n controllers, t of them faulty. 0 where n is below 3t + 1, and for numbers that are not on the sheet.
pub fn depth_of(n: u32, t: u32) -> u16
    ensures { result ≡ depth_of n t }
{
    if !within(1, n as Number, 31) {
        return 0;
    }
    if 10 < t {
        return 0;
    }
    entry(((n - 1) * 11 + t) as usize)
}

// The only place that names the table: it is laid out where it is named.
fn entry(place: usize) -> u16
    requires { place < 341 }
    ensures { result ≡ get_or depths place 0 }
{
    DEPTHS[place]
}
