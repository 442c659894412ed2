// The power of two that the factors of a row share.
ghost use Rattle.std.specs.Prelude.{◌≡◌, ◌<◌, ◌≤◌, ◌+◌, ◌^◌, ◌%◌, ◌==◌, if◌then◌else◌, length, unsigned_abs};
ghost use Rattle.c_program.specs.Of.{are_multiples, shared_bits, row_bits};
ghost use Rattle.c_writer.specs.Measured.{controller_in, row_count};

use crate::measured::Measured;
use crate::opposite::both;

// Whether `2^k` divides a number.
fn is_multiple(x: i128, k: u32) -> bool
    requires { k ≤ 126 }
    ensures { result ≡ (unsigned_abs x % 2 ^ k == 0) }
{
    x.unsigned_abs() % (1 << k) == 0
}

// Whether it divides each number of a row.
fn are_multiples(row: &[i128], k: u32) -> bool
    requires { k ≤ 126 }
    ensures { result ≡ are_multiples row.now k (length row.now) }
{
    let mut multiples = true;
    for j in 0..row.len() {
        let next = is_multiple(row[j], k);
        multiples = both(multiples, next);
    }
    multiples
}

// The next power where it divides all of them, else the last that did.
fn next_bits(row: &[i128], bits: u32, k: u32) -> u32
    requires { k ≤ 125 }
    ensures { result ≡ (if are_multiples row.now (k + 1) (length row.now) then k + 1 else bits) }
{
    if are_multiples(row, k + 1) {
        k + 1
    } else {
        bits
    }
}

// The greatest up to `2^most` that divides all of them.
fn shared_bits(row: &[i128], most: u32) -> u32
    requires { most ≤ 126 }
    ensures { result ≡ shared_bits row.now (length row.now) most }
{
    let mut bits = 0;
    for k in 0..most {
        bits = next_bits(row, bits, k);
    }
    bits
}

// That of row `i`, by whose power of two its sum is made without.
pub fn row_bits_at(from: &Measured, i: usize) -> u32
    requires in_range { i < row_count from.now }
    ensures value { result ≡ row_bits (controller_in from.now) i }
    ensures few { result ≤ from.now.c.now.f }
{
    shared_bits(from.c.g_mat.row(i), from.c.f)
}
