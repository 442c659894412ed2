// The text of cuts.
ghost use Rattle.std.specs.Prelude.{◌≡◌, ◌⊎◌, ℤ, List, ◌^◌, ◌<◌, length, map, IfOk, IfErr, MatchResult};
ghost use Rattle.csv.specs.Records.{fields_of};
ghost use Rattle.mat_int.specs.Lines.{lists};
ghost use Rattle.qp_model.specs.problem.Parts.{IsDesign, design_of};
ghost use Rattle.number_text.specs.declared.text_fault.TextFault.{TextFault};
ghost use Rattle.number_text.specs.declared.text_fault.TextFault.TheVariants.{Memory};
ghost use Rattle.cell_split.specs.Cells.{AreCutsFor};
ghost use Rattle.cell_split.specs.CutsText.{IsCutRecordFault, IsCutsText, IsCutsTextFault};
ghost use Rattle.cell_split.specs.ReadLists.{AreCutsRead};

use crate::cuts::Cuts;
use crate::record::cuts_in;
use csv::ByteRecord;
use number_text::TextFault;
use policy_file::all_records;
use qp_model::{Design, DesignParts};
use std::alloc::Global;

// The cuts of the records that the coordinates ask for, one after the other, as far as there are any.
fn lists_in(
    alloc: Global,
    records: &[ByteRecord],
    parts: &DesignParts,
) -> Result<Vec<Vec<i128>>, TextFault>
    requires { IsDesign parts.now }
    ensures found { IfOk result (λ v. AreCutsRead (design_of parts.now) (map fields_of records.now) (lists v.items)) }
    ensures fault { IfErr result (λ e. (e ≡ Memory) ⊎ IsCutRecordFault (design_of parts.now) (map fields_of records.now) e) }
{
    let mut read = Vec::new(alloc);
    for i in 0..parts.states {
        if i == records.len() {
            return Ok(read);
        }
        let cuts = cuts_in(alloc, &records[i], parts.lo[i], parts.hi[i], i as u32 + 1)?;
        read.push(cuts)?;
    }
    Ok(read)
}

// The cuts of a text, said one way.
fn cuts_of_text(alloc: Global, bytes: &[u8], parts: &DesignParts) -> Result<Cuts, TextFault>
    requires small { length bytes.now < 2 ^ 32 }
    requires design { IsDesign parts.now }
    ensures found { IfOk result (IsCutsText bytes.now (design_of parts.now)) }
    ensures fault { IfErr result (λ e. (e ≡ Memory) ⊎ IsCutsTextFault bytes.now (design_of parts.now) e) }
{
    let records = all_records(alloc, bytes)?;
    let cuts = lists_in(alloc, &records, parts)?;
    if records.len() != parts.states {
        return Err(TextFault::Count {
            entries: records.len() as u32,
        });
    }
    Cuts::counted(cuts)
}

/// The cuts of a text with a record for each coordinate of a design's box: the number of its cuts, 0 to 63, and then the cuts, each above the
/// one before it, from `lo` to `hi - 1`. The text has fewer than `2^32` bytes.
///
/// # Errors
/// The first fault: for the coordinates' records in turn `Number` with field 1 where that holds no number of cuts, then `Fields` where there isn't
/// a field for each cut behind it, then `Number` for the first cut that is no number or breaks the order. After these `Count` where there isn't one
/// record for each coordinate, and last `Range` with place 0 where there are more than 64 cells.
pub fn read_cuts(alloc: Global, bytes: &[u8], design: &Design) -> Result<Cuts, TextFault>
    requires { length bytes.now < 2 ^ 32 }
    ensures found { IfOk result (IsCutsText bytes.now (design_of design.now)) }
    ensures split { IfOk result (AreCutsFor (design_of design.now)) }
    ensures fault { IfErr result (λ e. (e ≡ Memory) ⊎ IsCutsTextFault bytes.now (design_of design.now) e) }

    // The other way round, with nothing but out of memory in between.
    ensures right { (cuts : List (List ℤ)) → IsCutsText bytes.now (design_of design.now) cuts →
        MatchResult result (λ c. c ≡ cuts) (λ e. e ≡ Memory) }
    ensures first { (told : TextFault) → IsCutsTextFault bytes.now (design_of design.now) told →
        MatchResult result (λ _. ⊥) (λ e. (e ≡ told) ⊎ (e ≡ Memory)) }
{
    cuts_of_text(alloc, bytes, design.parts())
}
