// Where a segment first crosses a level: refusals 1 to 8, 20, 9 and 10, then the first point whose value is at or above it.
#![tactic(auto)]

mod scan;

ghost use Rattle.std.specs.Prelude.{◌≡◌, T};
ghost use Rattle.std.specs.Float.Ieee.Scale.{finite};
ghost use Rattle.rules.specs.Rules.{opened};
ghost use Rattle.rules.specs.Points.{value};
ghost use Rattle.points.specs.Steps.{Lent};
ghost use Rattle.crossings.specs.Crossings.{reaches};
ghost use Rattle.crossings.specs.Answers.{crossing_as, told_by, First};

use block::Opened;
pub use scan::first_behind;

// The first point at or above a level, or that there is none, or the number of the refusal.
#[derive(Clone, Copy)]
pub enum Crossing {
    At { point: u32 },
    Nowhere,
    Refused { number: u32 },
}

// An answer by its numbers: the refusal's, 1 for a point and 0 for none, and the point's. A flag beside its number, since the C interface
// hands on these three.
#[derive(Clone, Copy)]
pub struct Told {
    pub refusal: u32,
    pub found: u32,
    pub point: u32,
}

// The first point of a segment of an array whose value is at or above a level.
pub fn first(block: &[u8], array: u32, segment: u32, level: f64) -> Crossing
    ensures { result ≡ crossing_as block.now array segment level }
{
    let o = block::open(block);
    if o.refusal != 0 {
        return Crossing::Refused { number: o.refusal };
    }
    if !scale::is_finite_double(level) {
        return Crossing::Refused { number: 9 };
    }
    let number = points::chosen(o, array, segment);
    if number != 0 {
        return Crossing::Refused { number };
    }
    let point = below(block, o, array, segment, level);
    if point < o.points {
        return Crossing::At { point };
    }
    Crossing::Nowhere
}

// An answer by its numbers.
pub fn tell(x: Crossing) -> Told
    ensures { result ≡ told_by x }
{
    match x {
        Crossing::At { point } => Told {
            refusal: 0,
            found: 1,
            point,
        },
        Crossing::Nowhere => Told {
            refusal: 0,
            found: 0,
            point: 0,
        },
        Crossing::Refused { number } => Told {
            refusal: number,
            found: 0,
            point: 0,
        },
    }
}

// How many points of a segment that is not refused are below a finite level before the first that is not: all of them where none is, and
// no Option, since `first_behind` answers so by its contract.
fn below(block: &[u8], o: Opened, array: u32, segment: u32, level: f64) -> u32
    requires lent { Lent block.now o array segment 0 }
    requires t { T (finite level) }
    ensures { First (λ k. reaches level (value (opened block.now) array segment k)) o.points result }
{
    let from = points::samples_from(o, array, segment);
    let b = levels::bounds_of(o.calibration, level);
    let size = o.kind as usize + 1;
    let count = o.points as usize;
    scan::first_between(block, from, count, size, o.order, b.low, b.high) as u32
}
