// Records that begin with a number of their own.
ghost use Rattle.std.specs.Prelude.{◌≡◌, ◌⊎◌, ◌<◌, ◌^◌, length, IfOk, IfErr};
ghost use Rattle.number_text.specs.declared.text_fault.TextFault.TheVariants.{Memory};
ghost use Rattle.policy_file.specs.Layout.{rule_of};
ghost use Rattle.policy_file.specs.HeadedText.{IsHeadedText, IsHeadedFault};

use crate::record::{Layout, numbers_of};
use crate::text::all_records;
use mat_int::Mat;
use number_text::TextFault;
use std::alloc::Global;

/// The first number of each record, and a row of those behind it.
#[derive(Drop)]
pub struct Headed {
    pub heads: Vec<i128>,
    pub rows: Mat,
}

/// The numbers of a text of `number` records, of a first number and `width` others each. The text has fewer than `2^32` bytes.
///
/// # Errors
/// The first fault: for the records in turn `Fields` where one has another number of fields, then `Number` for its first field that
/// holds no number of the layout. After all records `Count` where there aren't so many.
pub fn read_headed(
    alloc: Global,
    bytes: &[u8],
    layout: Layout,
    width: usize,
    number: usize,
) -> Result<Headed, TextFault>
    requires small { length bytes.now < 2 ^ 32 }
    requires narrow { width < 2 ^ 32 }
    ensures found { IfOk result (λ h. IsHeadedText (rule_of layout.entry) bytes.now width number h.heads.items h.rows) }
    ensures fault { IfErr result (λ e. (e ≡ Memory) ⊎ IsHeadedFault (rule_of layout.entry) bytes.now width number e) }
{
    let records = all_records(alloc, bytes)?;
    let mut heads = Vec::new(alloc);
    let mut rows = Mat::zero(alloc, 0, width)?;
    for (i, record) in records.iter().enumerate() {
        let numbers = numbers_of(alloc, record, layout, width + 1, i as u32 + 1)?;
        if heads.push(numbers[0]).is_err() {
            return Err(TextFault::Memory);
        }
        rows.push_row(alloc, &numbers[1..])?;
    }
    if records.len() != number {
        return Err(TextFault::Count {
            entries: records.len() as u32,
        });
    }
    Ok(Headed { heads, rows })
}
