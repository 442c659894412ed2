//! The numbers at a place of a design text: one, a list, or a list of lists.
ghost use Rattle.std.specs.Prelude.{All, IsSome, IsSomeAnd, ◌≡◌, ◌<◌, ◌≤◌, ◌+◌, Some, [], ◌∷◌, length, slice_set, slice_index_or};
ghost use Rattle.mat_int.specs.Matrix.{row_of};
ghost use Rattle.toml.specs.View.{view, items_view};
ghost use Rattle.qp_model.specs.problem.Range.{LiesIn};
ghost use Rattle.qp_model.specs.problem.Rules.{shape};
ghost use Rattle.design_files.specs.Numbers.{number_in, integers_of, list_in, rows_of, IsMatrix, IsNumber, IsIntegerList, IsLists};
ghost use Rattle.design_files.specs.Keys.{found};
ghost use Rattle.design_files.specs.DesignText.{Reads};

use crate::keys::Keys;
use mat_int::Mat;
use number_text::TextFault;
use qp_model::range::lies_in;
use qp_model::rules::in_shape;
use std::alloc::Global;
use toml::Value;

// The integer that a place's value is.
fn integer(place: u32, value: &Value) -> Result<i128, TextFault>
    ensures { let seen = Some (view value.now) in
        Reads result (λ z. number_in seen ≡ Some z) (shape place (IsNumber seen) ∷ []) }
{
    match value.as_integer() {
        Some(z) => Ok(i128::from(z)),
        None => Err(TextFault::Shape { place }),
    }
}

/// The integer at a place.
pub fn number(keys: &Keys, place: u32) -> Result<i128, TextFault>
    requires { LiesIn 1 21 place }
    ensures { let seen = found keys.now place in
        Reads result (λ z. number_in seen ≡ Some z) (shape place (IsNumber seen) ∷ []) }
{
    integer(place, keys.at(place))
}

// The integers that a place's items are.
fn integers(alloc: Global, place: u32, items: &[Value]) -> Result<Vec<i128>, TextFault>
    ensures { let seen = integers_of (items_view items.now) in
        Reads result (λ zs. seen ≡ Some zs.items) (shape place (IsSome seen) ∷ []) }
{
    let mut numbers = Vec::new(alloc);
    for item in items {
        numbers.push(integer(place, item)?)?;
    }
    Ok(numbers)
}

// The list of so many integers that a place's value is.
fn integer_list(
    alloc: Global,
    place: u32,
    value: &Value,
    count: usize,
) -> Result<Vec<i128>, TextFault>
    ensures { let seen = Some (view value.now) in
        Reads result (λ zs. list_in seen ≡ Some zs.items) (shape place (IsIntegerList count seen) ∷ []) }
{
    let Some(items) = value.as_array() else {
        return Err(TextFault::Shape { place });
    };
    in_shape(place, items.len() == count)?;
    integers(alloc, place, items)
}

/// The list of so many integers at a place.
pub fn list(alloc: Global, keys: &Keys, place: u32, count: usize) -> Result<Vec<i128>, TextFault>
    requires { LiesIn 1 21 place }
    ensures { let seen = found keys.now place in
        Reads result (λ zs. list_in seen ≡ Some zs.items) (shape place (IsIntegerList count seen) ∷ []) }
{
    integer_list(alloc, place, keys.at(place), count)
}

// Writes a row of a matrix.
fn set_row(matrix: &mut Mat, i: usize, numbers: &[i128])
    requires in_range { i < length matrix.old.rows }
    requires width { length numbers.now ≡ matrix.old.cols }
    requires row_width { length (row_of matrix.old i) ≡ matrix.old.cols }
    ensures { matrix.new ≡ record matrix.old { rows = slice_set matrix.old.rows i numbers.now } }
{
    for (j, z) in numbers.iter().enumerate() {
        matrix.set(i, j, *z);
    }
}

// The matrix whose rows are a place's items, lists of so many integers each.
fn rows(alloc: Global, place: u32, items: &[Value], width: usize) -> Result<Mat, TextFault>
    ensures { let seen = rows_of (items_view items.now) in
        Reads result (λ m. (m.cols ≡ width) × (seen ≡ Some m.rows) × All (λ row. length row ≡ m.cols) m.rows)
        (shape place (IsSomeAnd seen (All (λ row. length row ≡ width))) ∷ []) }
{
    let mut matrix = Mat::zero(alloc, items.len(), width)?;
    for (i, item) in items.iter().enumerate() {
        set_row(&mut matrix, i, &integer_list(alloc, place, item, width)?);
    }
    Ok(matrix)
}

/// The list of low to high lists, each of so many integers, at a place.
pub fn lists(
    alloc: Global,
    keys: &Keys,
    place: u32,
    low: usize,
    high: usize,
    width: usize,
) -> Result<Mat, TextFault>
    requires { LiesIn 1 21 place }
    ensures { let seen = found keys.now place in
        Reads result (λ m. (m.cols ≡ width) × IsMatrix seen m) (shape place (IsLists low high width seen) ∷ []) }
{
    let Some(items) = keys.at(place).as_array() else {
        return Err(TextFault::Shape { place });
    };
    in_shape(place, lies_in(low, high, items.len()))?;
    rows(alloc, place, items, width)
}
