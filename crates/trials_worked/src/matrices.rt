// Matrices beside the rows that are expected.
use mat_int::Mat;

/// Whether a matrix has these rows.
pub fn has_rows(mat: &Mat, rows: &[&[i128]]) -> bool {
    if mat.rows() != rows.len() {
        return false;
    }
    for i in 0..rows.len() {
        if mat.row(i) != rows[i] {
            return false;
        }
    }
    true
}
