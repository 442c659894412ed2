// Enclosures, and matrices of them.
ghost use Rattle.std.specs.Prelude.{pos, ◌≤ℤ◌};
ghost use Rattle.mat_int.specs.Enclosures.{AreEnclosures};

use mat_int::Mat;

/// A midpoint and a radius, both over `2^40`: it encloses the fractions within the radius of the midpoint.
#[derive(Clone, Copy)]
pub struct Enc {
    pub mid: i128,
    pub rad: i128,
    ghost nonnegative: { pos 0 ≤ℤ rad },
}

/// A matrix of enclosures, as the matrix of their midpoints and that of their radii, both over `2^40`.
#[derive(Drop)]
pub struct EncMat {
    pub mid: Mat,
    pub rad: Mat,
    ghost sound: { AreEnclosures mid rad },
}
