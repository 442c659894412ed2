// Whether a controller's factors fit half a word of 64 bits.
ghost use Rattle.std.specs.Prelude.{◌<◌, ◌^◌, ◌↔◌, IsTrue, All, unsigned_abs};
ghost use Rattle.qp_model.specs.machine.Controller.{numbers, IsSized};
ghost use Rattle.overflow_check.specs.FastController.{with_last_version};
ghost use Rattle.fixed_kernel.specs.WordForm.{IsHalf, HasHalfFactors};

use mat_int::Mat;
use qp_model::ControllerParts;

// Whether each number does.
fn are_half(xs: &[i128]) -> bool
    ensures { IsTrue result ↔ All IsHalf xs.now }
{
    xs.iter().all(|x| x.unsigned_abs() < 1 << 31)
}

// Whether each entry of a matrix does.
fn is_half_matrix(a: &Mat) -> bool
    ensures { IsTrue result ↔ All (All IsHalf) a.now.rows }
{
    for i in 0..a.rows() {
        if !are_half(a.row(i)) {
            return false;
        }
    }
    true
}

// Whether each factor of the products of a step in words of 64 bits does.
pub fn has_half_factors(c: &ControllerParts) -> bool
    requires { IsSized (with_last_version (numbers c.now)) }
    ensures { IsTrue result ↔ HasHalfFactors (numbers c.now) }
{
    c.w <= c.f + c.s + 31
        && c.clamp.unsigned_abs() < 1 << 31
        && is_half_matrix(&c.w_mat)
        && is_half_matrix(&c.g_mat)
}
