// Products of the columns of a matrix. Expected values are those of exact integers in another program.
ghost use Rattle.std.specs.Prelude.{◌≡◌, length, map, IfOk};

use mat_int::Mat;
use mat_products::{MatFault, gram};
use std::alloc::Global;
use std::test::Fail;

// The rows of `cols` entries.
fn matrix(alloc: Global, cols: usize, rows: &[&[i128]]) -> Result<Mat, Fail>
    ensures { IfOk result (λ m. m ≡ record { cols = cols; rows = map (λ row. row.now) rows.now }) }
{
    match Mat::from_rows(alloc, cols, rows)? {
        Some(mat) => Ok(mat),
        None => Err("rows of several lengths".into()),
    }
}

// The products of the columns of two rows with these weights.
fn weighted(alloc: Global, g: &Mat, weights: [i128; 2]) -> Result<Result<Mat, MatFault>, Fail>
    requires { length g.now.rows ≡ 2 }
{
    if weights[0] < 0 || weights[1] < 0 {
        return Err("a weight below 0".into());
    }
    Ok(gram(alloc, g, &weights))
}

// Whether the second row of the products is this.
fn has_row(made: &Mat, row: &[i128]) -> bool {
    made.rows() == 3 && made.row(1) == row
}

// Whether that of two rows of three columns is.
fn is_row(alloc: Global, weights: [i128; 2], row: &[i128]) -> Result<bool, Fail> {
    let g = matrix(alloc, 3, &[&[1, -2, 3], &[0, 4, -1]])?;
    Ok(has_row(&weighted(alloc, &g, weights)??, row))
}

#[test]
fn weighted_columns(rt: HostRuntime) -> Result<(), Fail> {
    assert!(rt; is_row(rt.alloc(), [3, 5], &[-6, 92, -38])?);
    Ok(())
}
