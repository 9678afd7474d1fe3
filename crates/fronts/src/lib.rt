// The front of a joined block: its header, the descriptor with the fields that follow from the number of parts, and the user text.
#![tactic(auto)]

ghost use Rattle.std.specs.Prelude.{◌≡◌, ◌++◌, ◌+◌, ◌≤◌, length, get_or};
ghost use Rattle.rules.specs.Numbers.{splice};
ghost use Rattle.rules.specs.Template.{template, laid};
ghost use Rattle.rules.specs.Rules.{refusal, opened};
ghost use Rattle.rules.specs.Cut.{changed};
ghost use Rattle.copies.specs.Copies.{header};
ghost use Rattle.heads.specs.Heads.{changes_by};
ghost use Rattle.fronts.specs.Fronts.{lead_of, changes_for, Fronting};

use heads::Changes;

// Where a part's payload starts, its byte order and its ten lengths: a third of what an opening answers.
#[derive(Clone, Copy)]
pub struct Lead {
    pub start: usize,
    pub order: u32,
    pub lengths: [u32; 10],
}

// Those of a good part.
pub fn lead_of(part: &[u8]) -> Lead
    requires { refusal part.now ≡ 0 }
    ensures { result ≡ lead_of part.now }
{
    let start = parts::payload_at(part, 0);
    let order = part[start + 34] as u32;
    Lead {
        start,
        order,
        lengths: descriptor::lengths_of(part, start, order),
    }
}

// The front of a block of `count` segments and `total` bytes under its header, by one of the parts. SPARSING_FACTOR stays as it is, 0 included.
pub fn write_front(part: &[u8], lead: Lead, count: u32, total: u32, out: &mut [u8])
    requires fronting { Fronting part.now lead count }
    requires lengths_in_bounds { 357 + get_or lead.lengths 1 0 ≤ length out.old }
    ensures { out.new ≡ splice out.old 0 (header total ++ laid ((opened part.now).head 34) template (changed (changes_by ((opened part.now).head 34) (changes_for count (opened part.now).head)) (opened part.now).head) ++ (opened part.now).text) }
{
    let start = lead.start;
    let order = lead.order;
    let lengths = lead.lengths;
    let text = lengths[1] as usize;
    let points = numbers::u32_at(part, start + 116, order);
    let first = numbers::u32_at(part, start + 132, order);
    let sparsing = numbers::u32_at(part, start + 136, order);
    let trig = count * lengths[3];
    let one = count * lengths[6];
    let two = count * lengths[7];
    let all = count * points;
    let changes = Changes {
        trig,
        one,
        two,
        count: all,
        first,
        sparsing,
        index: 0,
        subarrays: count,
    };
    copies::put_header(total, out);
    heads::write_head(part, start, order, order, changes, out, 11);
    copies::copy_bytes(part, start + 346, text, out, 357);
}
