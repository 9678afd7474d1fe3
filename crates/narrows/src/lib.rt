// Narrows a WORD block to BYTE: the high byte of each sample, and 256 times the gain. A BYTE block is rewritten.
#![tactic(auto)]

mod bytes;
mod gains;
mod words;
mod writes;

ghost use Rattle.std.specs.Prelude.{◌≡◌, length};
ghost use Rattle.narrows.specs.Narrows.{refused_as, narrowed_as, out_as};

// What a narrowing answers: 0 and the bytes written; or its refusal's number and 0.
#[derive(Clone, Copy)]
pub struct Narrowed {
    pub refusal: u32,
    pub length: u32,
}

// Writes the narrowed block to out's start. Refused, it writes nothing.
pub fn narrow(block: &[u8], out: &mut [u8]) -> Narrowed
    ensures value { result ≡ narrowed_as block.now (length out.old) }
    ensures out_after { out.new ≡ out_as block.now out.old }
{
    let o = block::open(block);
    let number = o.refusal;
    if number != 0 {
        return refused(number);
    }
    if o.kind == 0 {
        return bytes::narrow_byte(block, o, out);
    }
    words::narrow_word(block, o, out)
}

// The answer of a refused narrowing.
pub(crate) fn refused(number: u32) -> Narrowed
    ensures { result ≡ refused_as number }
{
    Narrowed {
        refusal: number,
        length: 0,
    }
}
