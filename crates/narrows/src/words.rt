// A WORD block narrowed.
ghost use Rattle.std.specs.Prelude.{◌≡◌, length};
ghost use Rattle.rules.specs.Rules.{refusal, opened};
ghost use Rattle.block.specs.Opened.{opened_as};
ghost use Rattle.narrowing.specs.Narrow.{comm_type};
ghost use Rattle.narrows.specs.Narrows.{narrowed_as, out_as};

use crate::Narrowed;
use block::Opened;

// An accepted WORD block, to out's start; refused for its gain or for room.
pub(crate) fn narrow_word(block: &[u8], o: Opened, out: &mut [u8]) -> Narrowed
    requires { (o ≡ opened_as block.now) × (refusal block.now ≡ 0) × (comm_type (opened block.now).head ≡ 1) }
    ensures value { result ≡ narrowed_as block.now (length out.old) }
    ensures out_after { out.new ≡ out_as block.now out.old }
{
    let gain = o.calibration.gain.to_bits();
    if !crate::gains::is_narrow(gain) {
        return crate::refused(19);
    }
    let l = o.layout;
    let lengths = l.lengths;
    let starts = l.starts;
    let front = starts[6] as usize;
    let one = (lengths[6] / 2) as usize;
    let two = (lengths[7] / 2) as usize;
    let total = front + one + two;
    if out.len() < 11 + total {
        return crate::refused(13);
    }
    let gain = crate::gains::times_256(gain);
    crate::writes::write_word(block, o.start, o.order, front, one, two, gain, out);
    Narrowed {
        refusal: 0,
        length: (11 + total) as u32,
    }
}
