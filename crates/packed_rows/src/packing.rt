// Whole numbers in few bytes.
ghost use Rattle.std.specs.Prelude.{◌≡◌, ◌++◌, List, ℕ, OnOk, All, FitsSigned};
ghost use Rattle.std.specs.Int.{w128};
ghost use Rattle.packed_rows.specs.Packing.{zigzag as zigzag_of, packed, packed_row};

use std::alloc::AllocError;

// The number without a sign that stands for one with a sign.
fn zigzag(z: i128) -> u128
    ensures { result ≡ zigzag_of z }
{
    if z < 0 {
        2 * (-(z + 1)) as u128 + 1
    } else {
        2 * z as u128
    }
}

// A number more. Where memory runs out, some of its bytes.
fn push_number(bytes: &mut Vec<u8>, z: i128) -> Result<(), AllocError>
    ensures ok { OnOk result (bytes.new.items ≡ bytes.old.items ++ packed z) }
    ensures begins { (more : List ℕ) × (bytes.new.items ≡ bytes.old.items ++ more) }
{
    let mut rest = zigzag(z);
    while rest >= 128 {
        bytes.push((rest % 128) as u8 + 128)?;
        rest /= 128;
    }
    bytes.push(rest as u8)?;
    Ok(())
}

// The numbers of a row more. Where memory runs out, some of their bytes.
pub fn push_numbers(bytes: &mut Vec<u8>, row: &[i128]) -> Result<(), AllocError>
    ensures ok { OnOk result (bytes.new.items ≡ bytes.old.items ++ packed_row row.now) }
    ensures word { OnOk result (All (FitsSigned w128) row.now) }
    ensures begins { (more : List ℕ) × (bytes.new.items ≡ bytes.old.items ++ more) }
{
    for z in row {
        push_number(bytes, *z)?;
    }
    Ok(())
}
