// What a column's number is written as: an element of its own, or eight bytes.
ghost use Rattle.std.specs.Prelude.{◌≡◌, refl, ℕ, ℤ, List, [], ◌∷◌, ◌+◌, ◌*◌, ◌≤◌, length};
ghost use Rattle.rules.specs.Numbers.{bytes, unsigned};
ghost use Rattle.rules.proofs.Numbers.{length-bytes};
ghost use Rattle.fills.specs.Fills.{over};

// An element of the slices that columns are written to.
pub(crate) trait Element: Copy {
    // How many elements a number takes, and which they are.
    ghost width: { ℕ };

    ghost written: { ℤ → List Self };

    // Writes z as the number q of a slice.
    fn put(z: i16, q: usize, out: &mut [Self])
        requires { q * width + width ≤ length out.old }
        ensures { out.new ≡ over out.old (q * width) (written z) };

    // The number takes so many elements.
    ghost written_width: { (z : ℤ) → length (written z) ≡ width };
}

// A number of 16 bits.
impl Element for i16 {
    ghost width = { 1 };

    ghost written = { λ z. z ∷ [] };

    ghost written_width = { λ z. refl };

    fn put(z: i16, q: usize, out: &mut [i16]) {
        out[q] = z;
    }
}

// Eight bytes, two's complement, the high byte first.
impl Element for u8 {
    ghost width = { 8 };

    ghost written = { λ z. bytes 0 8 (unsigned 8 z) };

    ghost written_width = { λ z. length-bytes 0 8 (unsigned 8 z) };

    fn put(z: i16, q: usize, out: &mut [u8]) {
        numbers::put_signed(z, out, q * 8);
    }
}
