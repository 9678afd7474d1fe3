// The listing program: a block from standard input, its numbers and its points as text on standard output.
#![tactic(auto)]

mod lines;
mod pages;
mod text;

ghost use Rattle.std.specs.Prelude.{◌≡◌, ◌+◌, ◌^◌, ◌≤◌, ◌<◌, length, OnOk, is_ok};
ghost use Rattle.std.specs.Io.KnownBytes.{Appends};
ghost use Rattle.listing.specs.Inputs.{Behind, Read, TakesBehind, TakesTo};
ghost use Rattle.listing.specs.Listing.{listing};
ghost use Rattle.listing.specs.Outputs.{Next, Printed};

use std::io;

// Not an io::Result, since `Read` counts what was read where a call fails, too.
// What was read: so many bytes at the buffer's start, and how many of them the last call of read moved, `None` where it
// failed.
#[derive(Clone, Copy)]
struct Input {
    count: usize,
    last: Option<usize>,
}

// Prints the listing of the block on standard input.
fn main(rt: HostRuntime) {
    // one byte more than is listed, so that longer input is seen
    let mut buffer = [0u8; 65537];
    let input = read_input(&mut rt.stdin(), &mut buffer);
    if input.last.is_none() {
        let _ = rt.eprintln("listing: standard input cannot be read");
        return;
    }
    let count = input.count;
    let mut sent = 0;
    if print(&buffer[..count], &mut rt.stdout(), &mut sent).is_err() {
        let _ = rt.eprintln("listing: standard output cannot be written");
    }
}

// Reads the input to its end, or until the buffer is full or a read fails.
fn read_input<R: io::Read>(reader: &mut R, buffer: &mut [u8]) -> Input
    ensures read { Read buffer.new result }
    ensures bytes { TakesTo (R.remaining reader.old) (R.remaining reader.new) buffer.new result }
{
    // no call yet: as if the last one had moved a byte
    let mut input = Input {
        count: 0,
        last: Some(1),
    };
    while input.last.unwrap_or(0) > 0 && input.count < buffer.len() {
        let at = input.count;
        input = read_behind(reader, buffer, at);
    }
    input
}

// Reads some of the input to the buffer from `at` on: no bytes at its end.
fn read_behind<R: io::Read>(reader: &mut R, buffer: &mut [u8], at: usize) -> Input
    requires { at ≤ length buffer.old }
    ensures behind { Behind buffer.old at buffer.new result }
    ensures bytes { TakesBehind (R.remaining reader.old) (R.remaining reader.new) at buffer.new result }
{
    match reader.read(&mut buffer[at..]) {
        Ok(more) => Input {
            count: at + more,
            last: Some(more),
        },
        Err(_) => Input {
            count: at,
            last: None,
        },
    }
}

// Writes the listing of a block to the output, page by page, until all of it was taken or a write fails. `sent` counts the
// bytes handed on.
fn print<W: io::Write>(block: &[u8], writer: &mut W, sent: &mut usize) -> io::Result<()>
    requires { sent.old ≡ 0 }
    ensures printed { Printed block.now sent.new (is_ok result) }
    ensures bytes { OnOk result (Appends (W.contents writer.old) (W.contents writer.new) (listing block.now)) }
{
    let mut page = [0u8; 4096];
    let first = pages::put_front(block, &mut page);
    let mut spot = pages::begin(block);
    write_next(block, &page[..first], writer, sent)?;
    while spot.place.refusal == 0 {
        let written = pages::put_page(block, spot, &mut page);
        write_next(block, &page[..written.count], writer, sent)?;
        spot = written.spot;
    }
    Ok(())
}

// Hands the next bytes of a block's listing to the output and counts them, also where the write fails. Nothing else writes
// there.
fn write_next<W: io::Write>(
    block: &[u8],
    bytes: &[u8],
    writer: &mut W,
    sent: &mut usize,
) -> io::Result<()>
    requires next { Next block.now sent.old bytes.now }
    requires bytes_bound { sent.old + length bytes.now < 2 ^ 64 }
    ensures sent { sent.new ≡ sent.old + length bytes.now }
    ensures taken { OnOk result (Appends (W.contents writer.old) (W.contents writer.new) bytes.now) }
{
    *sent += bytes.len();
    writer.write_all(bytes)
}
