// Enclosures. Expected values are those of exact integers in another program.
ghost use Rattle.std.specs.Prelude.{◌≡◌, ◌≤ℤ◌, pos};

use enclosure::{Enc, EncMat, add, combine, contains, enclose, gram, mul};
use mat_products::MatFault;
use std::alloc::{AllocError, Global};
use std::test::Fail;

const MAX: i128 = i128::MAX;

const MIN: i128 = i128::MIN;
// 2^126
const LIMIT: i128 = 85070591730234615865843651857942052864;
// 2^125
const HALF: i128 = 42535295865117307932921825928971026432;
// 2^86
const LAST: i128 = 77371252455336267181195264;
// 2^63
const ROOT: i128 = 9223372036854775808;
// 2^40
const SCALE: i128 = 1099511627776;

// A midpoint and a radius.
type Numbers = (i128, i128);

// The enclosure of these numbers.
fn enc(mid: i128, rad: i128) -> Enc
    requires { pos 0 ≤ℤ rad }
{
    Enc { mid, rad }
}

fn numbers(e: Enc) -> Numbers {
    (e.mid, e.rad)
}

// Fractions, and what encloses them, none where there is no room.
static FRACTIONS: [(i128, i128, Option<Numbers>); 12] = [
    (1, 3, Some((366503875925, 1))),
    (-1, 3, Some((-366503875925, 1))),
    (1, 4, Some((274877906944, 0))),
    // a tie, upward
    (1, 2199023255552, Some((1, 1))),
    (-1, 2199023255552, Some((0, 1))),
    (0, MAX, Some((0, 0))),
    (7, MAX, Some((0, 1))),
    (LAST, 1, Some((LIMIT, 0))),
    (LAST + 1, 1, None),
    (-LAST, 3, Some((-28356863910078205288614550619314017621, 1))),
    (-LAST - 1, 3, None),
    (MIN, 1, None),
];

fn is_enclosed(num: i128, den: i128, made: Option<Numbers>) -> bool {
    den >= 1 && enclose(num, den).map(numbers) == made
}

#[test]
fn fractions(rt: HostRuntime) {
    for &(num, den, made) in &FRACTIONS {
        assert!(rt; is_enclosed(num, den, made));
    }
}

// Two enclosures and their sum.
static SUMS: [(Numbers, Numbers, Option<Numbers>); 7] = [
    ((3, 1), (-5, 2), Some((-2, 3))),
    ((LIMIT - 3, 1), (-1, 1), Some((LIMIT - 4, 2))),
    ((LIMIT - 3, 1), (-1, 2), None),
    ((-LIMIT, 0), (0, 0), Some((-LIMIT, 0))),
    ((0, LIMIT), (0, 0), Some((0, LIMIT))),
    ((0, LIMIT), (1, 0), None),
    ((MIN, MAX), (0, 0), None),
];

fn is_sum(a: Numbers, b: Numbers, sum: Option<Numbers>) -> bool {
    a.1 >= 0 && b.1 >= 0 && add(enc(a.0, a.1), enc(b.0, b.1)).map(numbers) == sum
}

#[test]
fn sums(rt: HostRuntime) {
    for &(a, b, sum) in &SUMS {
        assert!(rt; is_sum(a, b, sum));
    }
}

// Two enclosures and their product.
static PRODUCTS: [(Numbers, Numbers, Option<Numbers>); 9] = [
    (
        (366503875925, 1),
        (366503875925, 1),
        Some((122167958642, 2)),
    ),
    ((1048576, 0), (524288, 0), Some((1, 1))),
    ((-1048576, 0), (524288, 0), Some((0, 1))),
    (
        (-3298534883328, 5),
        (549755813888, 7),
        Some((-1649267441664, 24)),
    ),
    ((ROOT, 0), (ROOT, 0), Some((LAST, 0))),
    ((ROOT, 0), (ROOT, 1), None),
    (
        (ROOT / 2, ROOT / 2),
        (1 - ROOT, 1),
        Some((-38685626227668133586403328, 38685626227668133594791936)),
    ),
    ((MIN, MAX), (0, 0), Some((0, 0))),
    ((0, 0), (MAX, MAX), Some((0, 0))),
];

fn is_product(a: Numbers, b: Numbers, product: Option<Numbers>) -> bool {
    a.1 >= 0 && b.1 >= 0 && mul(enc(a.0, a.1), enc(b.0, b.1)).map(numbers) == product
}

#[test]
fn products(rt: HostRuntime) {
    for &(a, b, product) in &PRODUCTS {
        assert!(rt; is_product(a, b, product));
    }
}

// An enclosure, a fraction, and whether it lies inside, none where there is no room.
static CONTENTS: [(Numbers, i128, i128, Option<bool>); 12] = [
    ((122167958642, 2), 1, 9, Some(true)),
    ((122167958642, 2), 1, 8, Some(false)),
    ((10, 3), 13, SCALE, Some(true)),
    ((10, 3), 14, SCALE, Some(false)),
    ((10, 3), 7, SCALE, Some(true)),
    ((10, 3), 6, SCALE, Some(false)),
    ((HALF, 0), LAST / 2, 1, Some(true)),
    ((HALF, 1), LAST / 2, 1, None),
    ((0, HALF), -(LAST / 2), 1, Some(true)),
    ((0, 0), LAST, MAX, Some(false)),
    ((0, 0), LAST + 1, 1, None),
    ((MIN, 0), 0, 1, None),
];

fn is_content(a: Numbers, num: i128, den: i128, answer: Option<bool>) -> bool {
    den >= 1 && a.1 >= 0 && contains(enc(a.0, a.1), num, den) == answer
}

#[test]
fn contents(rt: HostRuntime) {
    for &(a, num, den, answer) in &CONTENTS {
        assert!(rt; is_content(a, num, den, answer));
    }
}

// Two coefficients, two enclosures, a divisor, and what they make.
static COMBINATIONS: [([i128; 2], Numbers, Numbers, i128, Option<Numbers>); 7] = [
    ([3, -2], (10, 1), (4, 2), 4, Some((6, 3))),
    ([0, 7], (MIN, MAX), (-3, 1), 2, Some((-10, 5))),
    ([MIN, 1], (0, 0), (SCALE, 0), 3, Some((366503875925, 1))),
    (
        [ROOT, -1],
        (ROOT / 2, ROOT / 2),
        (0, 0),
        ROOT,
        Some((ROOT / 2, ROOT / 2)),
    ),
    ([ROOT, -1], (ROOT / 2, ROOT / 2), (1, 0), ROOT, None),
    // also where the terms cancel
    ([1, -1], (HALF, 0), (HALF, 0), 1, Some((0, 0))),
    ([1, -1], (HALF, 1), (HALF, 0), 1, None),
];

// What two coefficients make of two enclosures.
fn combined(coeffs: [i128; 2], a: Enc, b: Enc, den: i128) -> Option<Numbers>
    requires { pos 1 ≤ℤ den }
{
    combine(&coeffs, &[a, b], den).map(numbers)
}

fn is_combination(
    coeffs: [i128; 2],
    a: Numbers,
    b: Numbers,
    den: i128,
    made: Option<Numbers>,
) -> bool {
    den >= 1 && a.1 >= 0 && b.1 >= 0 && combined(coeffs, enc(a.0, a.1), enc(b.0, b.1), den) == made
}

#[test]
fn combinations(rt: HostRuntime) {
    for &(coeffs, a, b, den, made) in &COMBINATIONS {
        assert!(rt; is_combination(coeffs, a, b, den, made));
    }
}

// A row of two columns.
type Row = (Numbers, Numbers);

// Two rows of two columns.
type Square = (Row, Row);

// Puts an enclosure into row i and column j.
fn set(made: &mut EncMat, i: usize, j: usize, (mid, rad): Numbers) -> Result<(), Fail> {
    if made.mid.rows() <= i || made.mid.cols() <= j || rad < 0 {
        return Err("no such place".into());
    }
    made.set(i, j, enc(mid, rad));
    Ok(())
}

// Puts enclosures into row i.
fn set_row(made: &mut EncMat, i: usize, row: Row) -> Result<(), Fail> {
    set(made, i, 0, row.0)?;
    set(made, i, 1, row.1)
}

// The matrix of two rows and two columns.
fn matrix(alloc: Global, rows: Square) -> Result<EncMat, Fail> {
    let mut made = EncMat::zero(alloc, 2, 2)?;
    set_row(&mut made, 0, rows.0)?;
    set_row(&mut made, 1, rows.1)?;
    Ok(made)
}

// The entries of a matrix of two rows and two columns.
fn entries(made: &EncMat) -> Result<Square, Fail> {
    if made.mid.rows() != 2 || made.mid.cols() != 2 {
        return Err("another shape".into());
    }
    Ok((
        (numbers(made.at(0, 0)), numbers(made.at(0, 1))),
        (numbers(made.at(1, 0)), numbers(made.at(1, 1))),
    ))
}

// The entries of products, none where one is above the limit.
fn entries_within(made: Result<EncMat, MatFault>) -> Result<Option<Square>, Fail> {
    match made {
        Ok(products) => Ok(Some(entries(&products)?)),
        Err(MatFault::Wide) => Ok(None),
        Err(MatFault::Memory) => Err(AllocError.into()),
    }
}

// The weighted products of the columns of two rows.
fn weighted(
    alloc: Global,
    x: &EncMat,
    weights: [i128; 2],
) -> Result<Result<EncMat, MatFault>, Fail> {
    if x.mid.rows() != 2 || weights[0] < 0 || weights[1] < 0 {
        return Err("another shape, or a weight below 0".into());
    }
    Ok(gram(alloc, x, &weights))
}

// The weighted products of two columns of two. None where one is above the limit.
fn products_of_columns(
    alloc: Global,
    rows: Square,
    weights: [i128; 2],
) -> Result<Option<Square>, Fail> {
    let x = matrix(alloc, rows)?;
    entries_within(weighted(alloc, &x, weights)?)
}

// Two columns, their weights, and the products.
static GRAMS: [(Square, [i128; 2], Option<Square>); 4] = [
    (
        (((SCALE, 0), (SCALE / 2, 1)), ((-3 * SCALE, 2), (7, 0))),
        [2, 5],
        Some((
            ((51677046505472, 61), (1099511627671, 3)),
            ((1099511627671, 3), (549755813888, 4)),
        )),
    ),
    (
        (((ROOT / 2, 0), (0, ROOT)), ((MIN, MAX), (MAX, 1))),
        [1, 0],
        Some((
            (
                (19342813113834066795298816, 0),
                (0, 38685626227668133590597632),
            ),
            ((0, 38685626227668133590597632), (0, LAST)),
        )),
    ),
    ((((ROOT / 2, 0), (0, ROOT)), ((0, 0), (1, 0))), [1, 1], None),
    ((((0, 0), (0, ROOT)), ((0, 0), (0, 0))), [2, 1], None),
];

// Whether these are the products of two columns.
fn are_products(
    alloc: Global,
    rows: Square,
    weights: [i128; 2],
    made: Option<Square>,
) -> Result<bool, Fail> {
    Ok(products_of_columns(alloc, rows, weights)? == made)
}

#[test]
fn grams(rt: HostRuntime) -> Result<(), Fail> {
    for &(rows, weights, made) in &GRAMS {
        assert!(rt; are_products(rt.alloc(), rows, weights, made)?);
    }
    Ok(())
}
