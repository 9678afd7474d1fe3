// Digits of a text: decimal ones read, and a number's digits written over a lent buffer.
#![tactic(auto)]

ghost use Rattle.std.specs.Prelude.{◌≡◌, ◌+◌, ◌-◌, ◌≤◌, ◌<◌, length, take, drop};
ghost use Rattle.rules.specs.Numbers.{splice};
ghost use Rattle.rules.specs.Rules.{digit?};
ghost use Rattle.digits.specs.Digits.{sign, spelled, run_of};
ghost use Rattle.digits.specs.Digits.{places as Digits·places};

// Decimal digits one behind the other: where they end, and their number.
#[derive(Clone, Copy)]
pub struct Run {
    pub end: usize,
    pub value: u64,
}

// The decimal digits that stand first from `from` on, up to `to`: nineteen at most, which fit 64 bits.
pub fn read(s: &[u8], from: usize, to: usize) -> Run
    requires { (from ≤ to) × (to ≤ from + 19) × (to ≤ length s.now) }
    ensures { result ≡ run_of from (take (to - from) (drop from s.now)) }
{
    let mut value: u64 = 0;
    for at in from..to {
        let b = u64::from(s[at]);
        if !is_digit(b) {
            return Run { end: at, value };
        }
        value = value * 10 + (b - 48);
    }
    Run { end: to, value }
}

// Whether a byte is a decimal digit, judged in the 64 bits in which it is added: judged as a byte it costs an instruction more.
fn is_digit(b: u64) -> bool
    ensures { result ≡ digit? b }
{
    (48 <= b) & (b <= 57)
}

// How many decimal digits n has.
pub fn places(n: u64) -> usize
    ensures { result ≡ Digits·places n }
{
    n.max(1).ilog10() as usize + 1
}

// The `width` lowest digits of n, the highest first, from `at`.
pub fn put_digits(n: u64, base: u64, width: usize, out: &mut [u8], at: usize)
    requires base_nonzero { (0 < base) × (base ≤ 16) }
    requires width_in_bounds { at + width ≤ length out.old }
    ensures { out.new ≡ splice out.old at (spelled base width n) }
{
    let mut rest = n;
    for k in (0..width).rev() {
        out[at + k] = sign_of(rest % base);
        rest /= base;
    }
}

// The sign of a digit: 0 to 9, then A to F.
fn sign_of(d: u64) -> u8
    requires { d < 16 }
    ensures { result ≡ sign d }
{
    if d < 10 {
        b'0' + d as u8
    } else {
        b'A' + (d - 10) as u8
    }
}
