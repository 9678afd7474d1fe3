// Numbers as text, written over a lent buffer.
ghost use Rattle.std.specs.Prelude.{◌≡◌, [], ◌∷◌, ◌++◌, ◌+◌, ◌≤◌, ◌<◌, length};
ghost use Rattle.rules.specs.Points.{mark_number};
ghost use Rattle.digits.specs.Digits.{spelled, decimal, hex};
ghost use Rattle.copies.specs.Copies.{Wrote};

// n in decimal and the byte `end`, from `at`; and where they end.
pub fn put_decimal(n: u32, end: u8, out: &mut [u8], at: usize) -> usize
    requires { at + 11 ≤ length out.old }
    ensures wrote { Wrote out.old at (decimal n ++ (end ∷ [])) out.new result }
    ensures lower_bound { (at < result) × (result ≤ at + 11) }
{
    let n = u64::from(n);
    put_word(n, 10, digits::places(n), end, out, at)
}

// n as 16 hexadecimal digits and the byte `end`, from `at`; and where they end.
pub fn put_hex(n: u64, end: u8, out: &mut [u8], at: usize) -> usize
    requires { at + 17 ≤ length out.old }
    ensures wrote { Wrote out.old at (hex n ++ (end ∷ [])) out.new result }
    ensures value { result ≡ at + 17 }
{
    put_word(n, 16, 16, end, out, at)
}

// A mark as 0 or 1 and the byte `end`, from `at`; and where they end.
pub fn put_mark(mark: bool, end: u8, out: &mut [u8], at: usize) -> usize
    requires { at + 2 ≤ length out.old }
    ensures wrote { Wrote out.old at (decimal (mark_number mark) ++ (end ∷ [])) out.new result }
    ensures value { result ≡ at + 2 }
{
    put_word(u64::from(mark), 10, 1, end, out, at)
}

// The `width` lowest digits of n and the byte `end`, from `at`; and where they end.
fn put_word(n: u64, base: u64, width: usize, end: u8, out: &mut [u8], at: usize) -> usize
    requires base_nonzero { (0 < base) × (base ≤ 16) }
    requires width_in_bounds { at + width + 1 ≤ length out.old }
    ensures wrote { Wrote out.old at (spelled base width n ++ (end ∷ [])) out.new result }
    ensures value { result ≡ at + width + 1 }
{
    digits::put_digits(n, base, width, out, at);
    out[at + width] = end;
    at + width + 1
}
