// One case each of a block of a shape: a call, and a line with the number that the call gives.
ghost use Rattle.std.specs.Prelude.{◌≤◌, length};

use crate::blocks::{self, Shape};
use cuts::Setup;
use std::io::{Stdout, Write};

// Opens a block with numbers stored over it, each at its place.
pub fn opens(stdout: Stdout, name: &str, shape: Shape, stores: &[(usize, u32)]) {
    let slice = 11 + blocks::payload(shape) as usize;
    judge(stdout, name, shape, slice, stores);
}

// Opens the example with numbers stored over it.
pub fn stored(stdout: Stdout, name: &str, stores: &[(usize, u32)]) {
    opens(stdout, name, Shape::Example, stores);
}

// Opens the first `slice` bytes of the example, with numbers stored over it.
pub fn slices(stdout: Stdout, name: &str, slice: usize, stores: &[(usize, u32)]) {
    judge(stdout, name, Shape::Example, slice, stores);
}

// Opens the first `slice` bytes of the example under another header.
pub fn heads(stdout: Stdout, name: &str, header: &[u8], slice: usize)
    requires { length header.now ≤ 11 }
{
    let mut block = [0u8; 512];
    blocks::make_under(header, &mut block);
    print(stdout, block::open(part(&block, slice)).refusal, name);
}

// Cuts all of the example, under another header, to so many bytes.
pub fn cuts_under(stdout: Stdout, name: &str, header: &[u8], slice: usize, room: usize)
    requires { length header.now ≤ 11 }
{
    let mut block = [0u8; 512];
    blocks::make_under(header, &mut block);
    let all = Setup {
        sp: 0,
        np: 0,
        fp: 0,
        sn: 0,
    };
    print(stdout, cut(part(&block, slice), all, 1, room), name);
}

// Asks for a point.
pub fn points(stdout: Stdout, name: &str, shape: Shape, array: u32, segment: u32, k: u32) {
    asked(stdout, name, shape, |block| {
        points::point(block, array, segment, k).refusal
    });
}

// Fills room for so many values.
pub fn fills(stdout: Stdout, name: &str, shape: Shape, array: u32, segment: u32, room: usize) {
    asked(stdout, name, shape, |block| {
        let mut out = [0.0f64; 4];
        points::fill(block, array, segment, &mut out[..room.min(4)]).refusal
    });
}

// Asks where a segment first crosses a level.
pub fn crosses(stdout: Stdout, name: &str, shape: Shape, array: u32, segment: u32, level: f64) {
    asked(stdout, name, shape, |block| {
        crossings::tell(crossings::first(block, array, segment, level)).refusal
    });
}

// Draws a segment in so many columns, with room for two leasts and two greatests.
pub fn draws(stdout: Stdout, name: &str, shape: Shape, array: u32, segment: u32, columns: u32) {
    asked(stdout, name, shape, |block| {
        let mut least = [0i16; 2];
        let mut greatest = [0i16; 2];
        strips::strip(block, array, segment, columns, &mut least, &mut greatest).refusal
    });
}

// Draws the example in so many columns, with room for two leasts and one greatest.
pub fn draws_short(stdout: Stdout, name: &str, columns: u32) {
    asked(stdout, name, Shape::Example, |block| {
        let mut least = [0i16; 2];
        let mut greatest = [0i16; 1];
        strips::strip(block, 1, 1, columns, &mut least, &mut greatest).refusal
    });
}

// Cuts to so many bytes.
pub fn cuts(stdout: Stdout, name: &str, shape: Shape, setup: Setup, order: u32, room: usize) {
    asked(stdout, name, shape, |block| cut(block, setup, order, room));
}

// Combines two cuts, of which the second answered 1.
pub fn combines(stdout: Stdout, name: &str, a: Setup, b: Setup) {
    let number = if cuts::combined(a, b, 1).is_some() {
        0
    } else {
        12
    };
    print(stdout, number, name);
}

// Opens what a cut writes.
pub fn opens_cut(stdout: Stdout, name: &str, shape: Shape, setup: Setup, order: u32) {
    asked(stdout, name, shape, |block| {
        let mut out = [0u8; 512];
        let w = cuts::cut(block, setup, order, &mut out);
        block::open(part(&out, w.length as usize)).refusal
    });
}

// Asks something of a block of a shape.
fn asked<F: FnOnce(&[u8]) -> u32>(stdout: Stdout, name: &str, shape: Shape, ask: F)
    requires { F.IsAlwaysCallable ask }
{
    let mut block = [0u8; 512];
    blocks::make(shape, &mut block);
    let slice = 11 + blocks::payload(shape) as usize;
    print(stdout, ask(part(&block, slice)), name);
}

// The number of a cut of a block to so many bytes.
fn cut(block: &[u8], setup: Setup, order: u32, room: usize) -> u32 {
    let mut out = [0u8; 512];
    cuts::cut(block, setup, order, &mut out[..room.min(512)]).refusal
}

// Opens the first `slice` bytes of a block with numbers stored over it.
fn judge(stdout: Stdout, name: &str, shape: Shape, slice: usize, stores: &[(usize, u32)]) {
    let mut block = [0u8; 512];
    blocks::make(shape, &mut block);
    for (at, value) in stores {
        if *at <= 508 {
            numbers::put_u32(*value, 1, &mut block, *at);
        }
    }
    print(stdout, block::open(part(&block, slice)).refusal, name);
}

// The first n bytes, or all where there are fewer.
pub fn part<'a>(block: &'a [u8], n: usize) -> &'a [u8] {
    &block[..n.min(block.len())]
}

// The number in two digits, and the case.
pub fn print(stdout: Stdout, number: u32, name: &str) {
    print_to(stdout, number, name, "\n");
}

// The number in two digits, the case, and how the line ends: three writes, each made also where the one before it failed, which one line
// of `writeln!` would not do. What the output does not take is lost: a case has no other answer than its line.
pub fn print_to(mut stdout: Stdout, number: u32, name: &str, end: &str) {
    let word = [
        b'0' + (number / 10 % 10) as u8,
        b'0' + (number % 10) as u8,
        b' ',
    ];
    for piece in [&word, name.as_bytes(), end.as_bytes()] {
        let _ = stdout.write_all(piece);
    }
}
