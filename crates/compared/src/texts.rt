// The user text and the label, copied. Each answers how long the part is; an out that is shorter holds what it held.
ghost use Rattle.std.specs.Prelude.{◌≡◌, length};
ghost use Rattle.block.specs.Texts.{text_of, label_of};
ghost use Rattle.compared.specs.Tested.{copied};

// The user text of a block, at the start of out.
pub fn compared_user_text(block: &[u8], out: &mut [u8]) -> usize
    ensures value { result ≡ length (text_of block.now) }
    ensures out_after { out.new ≡ copied (text_of block.now) out.old }
{
    let text = block::user_text(block);
    copy_part(text, out)
}

// The label of a block, or the fallback, at the start of out.
pub fn compared_label<'a>(block: &'a [u8], fallback: &'a [u8], out: &mut [u8]) -> usize
    ensures value { result ≡ length (label_of block.now fallback.now) }
    ensures out_after { out.new ≡ copied (label_of block.now fallback.now) out.old }
{
    let label = block::label(block, fallback);
    copy_part(label, out)
}

// How long a part is; where out has room for it, its bytes at the start of out.
fn copy_part(part: &[u8], out: &mut [u8]) -> usize
    ensures value { result ≡ length part.now }
    ensures out_after { out.new ≡ copied part.now out.old }
{
    let n = part.len();
    if out.len() < n {
        return n;
    }
    copies::copy_bytes(part, 0, n, out, 0);
    n
}
