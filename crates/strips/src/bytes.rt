// A strip for a host in C: each number as eight bytes, two's complement, the high byte first.
ghost use Rattle.std.specs.Prelude.{◌≡◌, ◌/◌, length};
ghost use Rattle.rules.specs.Rules.{opened};
ghost use Rattle.fills.specs.Fills.{over};
ghost use Rattle.strips.specs.Strips.{strip_of};
ghost use Rattle.strips.specs.Answers.{drawn_by, unsigned as unsigned_in, signed_bytes, Drawable};

use crate::Drawn;
use block::Opened;

// A strip of an opened block that is not refused: the least sample of each column at the start of least, the greatest at the start of greatest.
pub fn put_columns(
    block: &[u8],
    o: Opened,
    array: u32,
    segment: u32,
    columns: u32,
    least: &mut [u8],
    greatest: &mut [u8],
) -> Drawn
    requires { Drawable block.now o array segment columns (length least.old / 8) (length greatest.old / 8) }
    ensures value { result ≡ drawn_by 0 (strip_of (opened block.now) array segment columns) }
    ensures least_after { least.new ≡ over least.old 0 (signed_bytes (strip_of (opened block.now) array segment columns).leasts) }
    ensures greatest_after { greatest.new ≡ over greatest.old 0 (signed_bytes (strip_of (opened block.now) array segment columns).greatests) }
{
    crate::columns_of(block, o, array, segment, columns, least, greatest)
}

// The number of eight bytes that is read as the signed one.
pub fn unsigned(z: i64) -> u64
    ensures { result ≡ unsigned_in 8 z }
{
    numbers::unsigned(z)
}
