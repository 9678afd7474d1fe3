// One case each of a block with these samples: a call, and a line with the number that the call gives and the byte order.
ghost use Rattle.std.specs.Prelude.{◌≤◌, length};

use crate::{asks, blocks};
use std::io::Stdout;

// The bits of a gain of 0.5.
const HALF: u32 = 0x3f00_0000;

// Asks for the mark of point k.
pub fn marks(stdout: Stdout, name: &str, samples: &[u8], kind: u16, order: u16, k: u32)
    requires { length samples.now ≤ 12 }
{
    asked(stdout, name, samples, kind, order, HALF, |block| {
        fills::mark_number(points::point(block, 1, 1, k).mark) as u32
    });
}

// Fills the values, and asks how many of them have the mark.
pub fn counts(stdout: Stdout, name: &str, samples: &[u8], kind: u16, order: u16)
    requires { length samples.now ≤ 12 }
{
    asked(stdout, name, samples, kind, order, HALF, |block| {
        let mut out = [0.0f64; 6];
        points::fill(block, 1, 1, &mut out).marks
    });
}

// Asks for the first point at or above a level, of words and a gain: its number, or 99.
pub fn finds(stdout: Stdout, name: &str, samples: &[u8; 8], order: u16, gain: u32, level: f64) {
    asked(stdout, name, samples, 1, order, gain, |block| {
        let t = crossings::tell(crossings::first(block, 1, 1, level));
        if t.found == 0 { 99 } else { t.point }
    });
}

// Draws words in so many columns: the first point that holds the greatest.
pub fn peaks(stdout: Stdout, name: &str, samples: &[u8; 12], order: u16, columns: u32) {
    asked(stdout, name, samples, 1, order, HALF, |block| {
        let mut least = [0i16; 6];
        let mut greatest = [0i16; 6];
        strips::strip(block, 1, 1, columns, &mut least, &mut greatest).peak
    });
}

// Narrows a block with this gain to so many bytes.
pub fn narrows(
    stdout: Stdout,
    name: &str,
    samples: &[u8],
    kind: u16,
    order: u16,
    gain: u32,
    room: usize,
)
    requires { length samples.now ≤ 12 }
{
    asked(stdout, name, samples, kind, order, gain, |block| {
        let mut out = [0u8; 512];
        narrows::narrow(block, &mut out[..room.min(512)]).refusal
    });
}

// Narrows words, and asks whether sample k is this byte: 0 or 1.
pub fn floors(stdout: Stdout, name: &str, samples: &[u8; 12], order: u16, k: usize, byte: u8)
    requires { k ≤ 5 }
{
    asked(stdout, name, samples, 1, order, HALF, |block| {
        let mut out = [0u8; 512];
        narrows::narrow(block, &mut out);
        u32::from(out[11 + 346 + k] == byte)
    });
}

// Asks something of a block with these samples and this gain.
fn asked<F: FnOnce(&[u8]) -> u32>(
    stdout: Stdout,
    name: &str,
    samples: &[u8],
    kind: u16,
    order: u16,
    gain: u32,
    ask: F,
)
    requires room { length samples.now ≤ 12 }
    requires callable { F.IsAlwaysCallable ask }
{
    let mut block = [0u8; 512];
    blocks::make_of(samples, kind, order, &mut block);
    blocks::put_gain(gain, order, &mut block);
    let number = ask(asks::part(&block, 11 + 346 + samples.len()));
    let end = if order == 0 {
        ", HIFIRST\n"
    } else {
        ", LOFIRST\n"
    };
    asks::print_to(stdout, number, name, end);
}
