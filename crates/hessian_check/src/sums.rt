// The products of the columns of a form's rows, each as often as its row counts, before they are rounded: midpoints and radii over `row_den^2`.
ghost use Rattle.std.specs.Prelude.{◌≡◌, ◌+◌, ◌*◌, ◌<◌, ◌^◌, pos, unsigned_abs, length, IfOk};
ghost use Rattle.frac_scaled.specs.Enclosures.{multiple, sum_of, whole_product};
ghost use Rattle.mat_int.specs.Enclosures.{AreEnclosures, enclosure_at, HasEnclosures};
ghost use Rattle.enclosure.specs.Values.{pair};
ghost use Rattle.condensed_form.specs.Form.{IsSomeForm};
ghost use Rattle.hessian_check.specs.RowSums.{AreRowSums, HasRoomFor, more_sum};
ghost use Rattle.hessian_check.specs.Filling.{HasFirstEnclosures};

use condensed_form::Condensed;
use enclosure::{Enc, EncMat, magnitude};
use mat_int::Mat;
use std::alloc::{AllocError, Global};

/// Those of rows that each count once.
pub fn sums_once(alloc: Global, c: &Condensed) -> Result<EncMat, AllocError>
    requires { IsSomeForm c.now }
    ensures { IfOk result (λ m. AreRowSums c.now (λ l. 1) m.mid m.rad) }
{
    let mut sums = EncMat::zero(alloc, c.g.cols(), c.g.cols())?;
    for i in 0..c.g.rows() {
        sums = with_row(alloc, &sums, &c.g, &c.g_rad, i, 1)?;
    }
    Ok(sums)
}

/// The same where row i counts so many times more.
pub fn with_row(
    alloc: Global,
    sums: &EncMat,
    mid: &Mat,
    rad: &Mat,
    i: usize,
    count: u32,
) -> Result<EncMat, AllocError>
    requires enclosures { AreEnclosures mid.now rad.now }
    requires room { HasRoomFor sums.now.mid sums.now.rad mid.now rad.now i count }
    ensures { let n = mid.now.cols in IfOk result (λ m.
        HasEnclosures n n (more_sum sums.now.mid sums.now.rad (enclosure_at mid.now rad.now i) count) m.mid m.rad) }
{
    let mut more = EncMat::zero(alloc, mid.cols(), mid.cols())?;
    for j in 0..mid.cols() {
        add_products(sums, mid, rad, i, count, &mut more, j);
    }
    Ok(more)
}

// Row j of it, where the rows before it are made.
fn add_products(
    sums: &EncMat,
    mid: &Mat,
    rad: &Mat,
    i: usize,
    count: u32,
    more: &mut EncMat,
    j: usize,
)
    requires enclosures { AreEnclosures mid.now rad.now }
    requires room { HasRoomFor sums.now.mid sums.now.rad mid.now rad.now i count }
    requires inside { j < mid.now.cols }
    requires before { HasFirstEnclosures mid.now.cols (more_sum sums.now.mid sums.now.rad (enclosure_at mid.now rad.now i) count) more.old.mid more.old.rad j }
    ensures { HasFirstEnclosures mid.now.cols (more_sum sums.now.mid sums.now.rad (enclosure_at mid.now rad.now i) count) more.new.mid more.new.rad (j + 1) }
{
    let own = times(count, entry(mid, rad, i, j));
    for l in 0..mid.cols() {
        let other = entry(mid, rad, i, l);
        more.set(j, l, plus_product(sums.at(j, l), own, other));
    }
}

// The enclosure in row i and column j.
fn entry(mid: &Mat, rad: &Mat, i: usize, j: usize) -> Enc
    requires enclosures { AreEnclosures mid.now rad.now }
    requires row_in { i < length mid.now.rows }
    requires col_in { j < mid.now.cols }
    ensures { pair result ≡ enclosure_at mid.now rad.now i j }
{
    Enc {
        mid: mid.at(i, j),
        rad: rad.at(i, j),
    }
}

// `count * a`.
fn times(count: u32, a: Enc) -> Enc
    requires { count * (unsigned_abs a.mid + unsigned_abs a.rad) < 2 ^ 127 }
    ensures { pair result ≡ multiple (pos count) (pair a) }
{
    Enc {
        mid: count as i128 * a.mid,
        rad: count as i128 * a.rad,
    }
}

// `sum + a * b`, where `a * b` is over what the sum is over.
fn plus_product(sum: Enc, a: Enc, b: Enc) -> Enc
    requires { unsigned_abs sum.mid + unsigned_abs sum.rad + (unsigned_abs a.mid + unsigned_abs a.rad) * (unsigned_abs b.mid + unsigned_abs b.rad) < 2 ^ 127 }
    ensures { pair result ≡ sum_of (pair sum) (whole_product (pair a) (pair b)) }
{
    let mid = a.mid * b.mid;
    let rad = (magnitude(a) * magnitude(b) - mid.unsigned_abs()) as i128;
    Enc {
        mid: sum.mid + mid,
        rad: sum.rad + rad,
    }
}
