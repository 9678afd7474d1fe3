// A BYTE block rewritten: its payload as it is.
ghost use Rattle.std.specs.Prelude.{◌≡◌, length};
ghost use Rattle.rules.specs.Rules.{refusal, opened};
ghost use Rattle.block.specs.Opened.{opened_as};
ghost use Rattle.narrowing.specs.Narrow.{comm_type};
ghost use Rattle.narrows.specs.Narrows.{narrowed_as, out_as};

use crate::Narrowed;
use block::Opened;

// An accepted BYTE block, to out's start; refused for room alone.
pub(crate) fn narrow_byte(block: &[u8], o: Opened, out: &mut [u8]) -> Narrowed
    requires { (o ≡ opened_as block.now) × (refusal block.now ≡ 0) × (comm_type (opened block.now).head ≡ 0) }
    ensures value { result ≡ narrowed_as block.now (length out.old) }
    ensures out_after { out.new ≡ out_as block.now out.old }
{
    let l = o.layout;
    let lengths = l.lengths;
    let starts = l.starts;
    let total = starts[7] as usize + lengths[7] as usize;
    if out.len() < 11 + total {
        return crate::refused(13);
    }
    crate::writes::write_byte(block, o.start, total, out);
    Narrowed {
        refusal: 0,
        length: (11 + total) as u32,
    }
}
