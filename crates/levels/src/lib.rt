// A level turned into bounds on the sample. Values rise with the samples, or fall with them where the gain is below 0: so the samples whose
// values reach the level are all those between two numbers.
#![tactic(auto)]

ghost use Rattle.std.specs.Prelude.{◌≡◌, ◌^◌, ◌<◌, T, ℤ};
ghost use Rattle.std.specs.Int.Signed.{mag};
ghost use Rattle.std.specs.Float.Ieee.{le};
ghost use Rattle.std.specs.Float.Ieee.Scale.{finite};
ghost use Rattle.rules.specs.Points.{value_of};
ghost use Rattle.scale.specs.Scale.{FiniteValue};
ghost use Rattle.levels.specs.Levels.{between, raised, ranked, Rises, Edge};

use scale::Calibration;

// The lowest and the highest sample whose value reaches a level. Where none does, the lowest is above the highest.
// Two numbers also where there is none: `bounds_of` promises a test between them.
#[derive(Clone, Copy)]
pub struct Bounds {
    pub low: i16,
    pub high: i16,
}

// The bounds of the samples whose values are at or above a level.
pub fn bounds_of(c: Calibration, level: f64) -> Bounds
    requires finite_value { FiniteValue c }
    requires t { T (finite level) }
    ensures { (z : ℤ) → mag z < 2 ^ 15 → le level (value_of c.gain c.offset z) ≡ between result.low result.high z }
{
    let falling = c.gain < 0.0;
    let k = edge(c, level, falling);
    if k == 65536 {
        return Bounds {
            low: i16::MAX,
            high: i16::MIN,
        };
    }
    let z = ranked(falling, k);
    if falling {
        return Bounds {
            low: i16::MIN,
            high: z,
        };
    }
    Bounds {
        low: z,
        high: i16::MAX,
    }
}

// The rank from which on samples reach the level, or their end, 65,536, where none does. It is found by halves, so at most 17 values are tried.
fn edge(c: Calibration, level: f64, falling: bool) -> u32
    requires finite_value { FiniteValue c }
    requires rises { Rises (λ j. le level (value_of c.gain c.offset (ranked falling j))) 65536 }
    ensures { Edge (λ j. le level (value_of c.gain c.offset (ranked falling j))) 65536 result }
{
    let mut low = 0;
    let mut high = 65536;
    while low < high {
        let mid = (low + high) / 2;
        if level <= scale::value(c, ranked(falling, mid)) {
            high = mid;
        } else {
            low = mid + 1;
        }
    }
    low
}

// The sample of rank j: the j-th from −32,768 up, or from 32,767 down.
fn ranked(falling: bool, j: u32) -> i16
    requires { j < 65536 }
    ensures { result ≡ ranked falling j }
{
    if falling {
        return raised(65535 - j);
    }
    raised(j)
}

// The n-th sample from −32,768 up.
fn raised(n: u32) -> i16
    requires { n < 65536 }
    ensures { result ≡ raised n }
{
    (n as i32 - 32768) as i16
}
