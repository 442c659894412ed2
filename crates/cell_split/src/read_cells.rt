// The records of a text as the policies of cells.
ghost use Rattle.std.specs.Prelude.{◌≡◌, ◌⊎◌, ◌+◌, ◌≤◌, length, map, IfOk, IfErr};
ghost use Rattle.std.specs.Option.{option_map};
ghost use Rattle.csv.specs.Records.{fields_of};
ghost use Rattle.number_text.specs.declared.text_fault.TextFault.TheVariants.{Memory};
ghost use Rattle.qp_model.specs.problem.Parts.{IsDesign, design_of};
ghost use Rattle.qp_model.specs.problem.Policy.{plans_of};
ghost use Rattle.policy_file.specs.Records.{record_at};
ghost use Rattle.cell_split.specs.PoliciesText.{says_none, HoldPlans, IsPlanFault, IsSpanFault};
ghost use Rattle.cell_split.specs.ReadCells.{AreReadable, IsFaultBetween, IsCellAt, IsLeftFault, IsCellFault, HoldCells};

use csv::ByteRecord;
use mat_int::Mat;
use number_text::TextFault;
use policy_file::{Layout, corner_count, numbers_of};
use qp_model::{DesignParts, Policy};
use std::alloc::Global;

// The policy of a cell, if it has one, and the record at which the next begins.
#[derive(Drop)]
struct ReadCell {
    policy: Option<Policy>,
    end: usize,
}

/// The policies of the first cells, and the record behind theirs.
#[derive(Drop)]
pub(crate) struct ReadCells {
    pub policies: Vec<Option<Policy>>,
    pub end: usize,
}

// Whether a record says that its cell has no controller.
fn is_none_record(row: &ByteRecord) -> bool
    ensures { result ≡ says_none (fields_of row.now) }
{
    match row.get(0) {
        Some(field) => row.len() == 1 && field == b"none".as_slice(),
        None => false,
    }
}

// The plans of so many records, from one of them on.
fn plans_from(
    alloc: Global,
    records: &[ByteRecord],
    parts: &DesignParts,
    start: usize,
    number: usize,
) -> Result<Policy, TextFault>
    requires readable { AreReadable records.now }
    requires design { IsDesign parts.now }
    requires inside { start + number ≤ length records.now }
    ensures found { IfOk result (λ p. HoldPlans (map fields_of records.now) (design_of parts.now) start number (plans_of p)) }
    ensures fault { IfErr result (λ e. (e ≡ Memory) ⊎ IsFaultBetween (map fields_of records.now) (design_of parts.now) start number e) }
{
    let entries = parts.stages * parts.inputs;
    let mut dens = Vec::new(alloc);
    let mut plans = Mat::zero(alloc, 0, entries)?;
    for e in 0..number {
        let i = start + e;
        let numbers = numbers_of(
            alloc,
            &records[i],
            Layout::Policy,
            entries + 1,
            i as u32 + 1,
        )?;
        if dens.push(numbers[0]).is_err() {
            return Err(TextFault::Memory);
        }
        plans.push_row(alloc, &numbers[1..])?;
    }
    Ok(Policy { dens, plans })
}

// Whether one does so at this place.
fn is_none_at(records: &[ByteRecord], start: usize) -> bool
    ensures { result ≡ says_none (record_at (map fields_of records.now) start) }
{
    match records.get(start) {
        Some(row) => is_none_record(row),
        None => false,
    }
}

/// The fault of the records from one of them on, which are too few or too many: that of the first that holds no plan, and else their count.
pub(crate) fn count_fault(
    alloc: Global,
    records: &[ByteRecord],
    parts: &DesignParts,
    start: usize,
) -> TextFault
    requires readable { AreReadable records.now }
    requires design { IsDesign parts.now }
    requires inside { start ≤ length records.now }
    ensures { (result ≡ Memory) ⊎ IsLeftFault (map fields_of records.now) (design_of parts.now) start result }
{
    let Err(fault) = plans_from(alloc, records, parts, start, records.len() - start) else {
        return TextFault::Count {
            entries: records.len() as u32,
        };
    };
    fault
}

// The cell that begins at a record.
fn cell_from(
    alloc: Global,
    records: &[ByteRecord],
    parts: &DesignParts,
    start: usize,
) -> Result<ReadCell, TextFault>
    requires readable { AreReadable records.now }
    requires design { IsDesign parts.now }
    requires inside { start ≤ length records.now }
    ensures found { IfOk result (λ c. IsCellAt (map fields_of records.now) (design_of parts.now) start (option_map plans_of c.policy) c.end) }
    ensures fault { IfErr result (λ e. (e ≡ Memory) ⊎ IsCellFault (map fields_of records.now) (design_of parts.now) start e) }
{
    if is_none_at(records, start) {
        return Ok(ReadCell {
            policy: None,
            end: start + 1,
        });
    }
    let corners = corner_count(parts.states);
    if records.len() - start < corners {
        return Err(count_fault(alloc, records, parts, start));
    }
    let policy = plans_from(alloc, records, parts, start, corners)?;
    Ok(ReadCell {
        policy: Some(policy),
        end: start + corners,
    })
}

/// The policies of so many cells, the first of which begins at the first record.
pub(crate) fn cells_in(
    alloc: Global,
    records: &[ByteRecord],
    parts: &DesignParts,
    cells: usize,
) -> Result<ReadCells, TextFault>
    requires readable { AreReadable records.now }
    requires design { IsDesign parts.now }
    ensures found { IfOk result (λ r. HoldCells (map fields_of records.now) (design_of parts.now) cells (map (option_map plans_of) r.policies.items) r.end) }
    ensures fault { IfErr result (λ e. (e ≡ Memory)
        ⊎ (IsPlanFault (map fields_of records.now) (design_of parts.now) cells e ⊎ IsSpanFault (map fields_of records.now) (design_of parts.now) cells e)) }
{
    let mut policies = Vec::new(alloc);
    let mut end = 0;
    for _ in 0..cells {
        let cell = cell_from(alloc, records, parts, end)?;
        end = cell.end;
        if policies.push(cell.policy).is_err() {
            return Err(TextFault::Memory);
        }
    }
    Ok(ReadCells { policies, end })
}
