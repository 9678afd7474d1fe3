// What a value is written as: a float, or the eight bytes of its bits.
ghost use Rattle.std.specs.Prelude.{◌≡◌, ℕ, ◌+◌, ◌≤◌, List, [], ◌∷◌, length, T, not, Float, refl};
ghost use Rattle.std.specs.Float.Ieee.{is_nan};
ghost use Rattle.fills.specs.Fills.{bits_of, over};
ghost use Rattle.rules.proofs.Numbers.{length-bytes};

// An item of which a fixed number stands for a value.
pub(crate) trait Slot: Copy {
    // The items that a value becomes, and how many they are.
    ghost items: { Float → List Self };

    ghost WIDTH: { ℕ };

    const WIDTH: usize;

    // The items of a value that is no NaN, from `at` on.
    fn put(value: f64, out: &mut [Self], at: usize)
        requires no_nan { T (not (is_nan value)) }
        requires at_in_bounds { at + WIDTH ≤ length out.old }
        ensures { out.new ≡ over out.old at (items value) };

    ghost each: { (v : Float) → length (items v) ≡ WIDTH };
}

impl Slot for f64 {
    ghost items = { λ v. v ∷ [] };

    ghost WIDTH = { 1 };

    ghost each = { λ v. refl };

    const WIDTH: usize = 1;

    fn put(value: f64, out: &mut [f64], at: usize) {
        out[at] = value;
    }
}

impl Slot for u8 {
    ghost items = { bits_of };

    ghost WIDTH = { 8 };

    ghost each = { λ v. length-bytes 0 8 _ };

    const WIDTH: usize = 8;

    fn put(value: f64, out: &mut [u8], at: usize) {
        numbers::put_u64(scale::bits(value), 0, out, at);
    }
}
