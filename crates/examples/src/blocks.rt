// Blocks to be judged: gain 0.5, offset 0.25, interval 0.25, horizontal offset −1. Those of a shape are all low byte first, with samples of one
// byte and WAVE_ARRAY_COUNT 2.
ghost use Rattle.std.specs.Prelude.{◌≤◌, length};

// The shapes of blocks.
#[derive(Clone, Copy)]
pub enum Shape {
    // the scope document's example
    Example,
    // with two segments and their trigger times
    Segments,
    // with one RIS offset
    Ris,
    // with a second array
    Arrays,
    // with a trigger time and a RIS offset
    TimeAndRis,
    // the example with old bytes behind the zero bytes of its names
    OldBytes,
    // with two segments, and trigger times that run backwards
    Backwards,
}

// The payload's length of a shape.
pub fn payload(shape: Shape) -> u32 {
    match shape {
        Shape::Example | Shape::OldBytes => 348,
        Shape::Segments | Shape::Backwards => 380,
        Shape::Ris => 356,
        Shape::Arrays => 350,
        Shape::TimeAndRis => 372,
    }
}

// A block of a shape, at the start of out.
pub fn make(shape: Shape, out: &mut [u8; 512]) {
    plain(payload(shape), 1, out);
    match shape {
        Shape::Example => {}
        Shape::Segments => put_segments(out),
        Shape::Ris => put_ris(out),
        Shape::Arrays => numbers::put_u32(2, 1, out, 11 + 64),
        Shape::TimeAndRis => {
            numbers::put_u32(16, 1, out, 11 + 48);
            put_ris(out);
        }
        Shape::OldBytes => {
            copies::copy_bytes(b"OLD", 0, 3, out, 11 + 9);
            copies::copy_bytes(b"BYTES", 0, 5, out, 11 + 27);
        }
        Shape::Backwards => {
            put_segments(out);
            numbers::put_u32(0x3ff0_0000, 1, out, 11 + 350);
        }
    }
}

// Two segments, and how long their trigger times are.
fn put_segments(out: &mut [u8; 512]) {
    numbers::put_u32(32, 1, out, 11 + 48);
    numbers::put_u32(2, 1, out, 11 + 144);
}

// One sweep, and how long its RIS offset is.
fn put_ris(out: &mut [u8; 512]) {
    numbers::put_u32(8, 1, out, 11 + 52);
    numbers::put_u16(1, 1, out, 11 + 322);
}

// A block with these samples, of a COMM_TYPE and in a COMM_ORDER, at the start of out.
pub fn make_of(samples: &[u8], kind: u16, order: u16, out: &mut [u8; 512])
    requires { length samples.now ≤ 12 }
{
    let n = samples.len() as u32;
    plain(346 + n, order, out);
    numbers::put_u16(kind, order as u32, out, 11 + 32);
    numbers::put_u32(n, order as u32, out, 11 + 60);
    numbers::put_u32(n / (kind as u32 + 1), order as u32, out, 11 + 116);
    copies::copy_bytes(samples, 0, samples.len(), out, 11 + 346);
}

// The bits of VERTICAL_GAIN stored over a block.
pub fn put_gain(gain: u32, order: u16, out: &mut [u8; 512]) {
    numbers::put_u32(gain, order as u32, out, 11 + 156);
}

// The scope document's example under another header, at the start of out.
pub fn make_under(header: &[u8], out: &mut [u8; 512])
    requires { length header.now ≤ 11 }
{
    let mut block = [0u8; 512];
    make(Shape::Example, &mut block);
    put_under(header, &block, out);
}

// A header and, behind it, the payload of the block.
fn put_under(header: &[u8], block: &[u8; 512], out: &mut [u8; 512])
    requires { length header.now ≤ 11 }
{
    let n = header.len();
    copies::copy_bytes(header, 0, n, out, 0);
    copies::copy_bytes(block, 11, 348, out, n);
}

// The example of the scope document, with another length in its header, in a COMM_ORDER.
fn plain(stated: u32, order: u16, out: &mut [u8; 512]) {
    copies::put_header(stated, out);
    copies::copy_bytes(b"WAVEDESC", 0, 8, out, 11);
    copies::copy_bytes(b"LECROY_2_3", 0, 10, out, 11 + 16);
    numbers::put_u16(order, order as u32, out, 11 + 34);
    numbers::put_u32(346, order as u32, out, 11 + 36);
    calibrate(order as u32, out);
}

// The numbers behind the lengths: two samples, and how they are scaled.
fn calibrate(order: u32, out: &mut [u8; 512]) {
    numbers::put_u32(2, order, out, 11 + 60);
    numbers::put_u32(2, order, out, 11 + 116);
    numbers::put_u32(0x3f00_0000, order, out, 11 + 156);
    numbers::put_u32(0x3e80_0000, order, out, 11 + 160);
    numbers::put_u32(0x3e80_0000, order, out, 11 + 176);
    numbers::put_u64(0xbff0_0000_0000_0000, order, out, 11 + 180);
}
