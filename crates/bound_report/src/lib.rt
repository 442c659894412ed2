//! What a report says of a controller, as lines of text or as JSON.
#![tactic(auto)]

ghost use Rattle.std.specs.Prelude.{◌≡◌, ◌++◌, ◌∷◌, [], map, fold, IfOk, OnOk, string_bytes};
ghost use Rattle.std.specs.Fmt.{signed_decimal};
ghost use Rattle.number_text.specs.Lines.{text_of};
ghost use Rattle.qp_model.specs.bounds.Printed.{printed};
ghost use Rattle.bound_report.specs.Report.{One, cost_line, cost_key, report_head, bound_lines, violation_lines, numbered_violations, report_text, first_members, last_members, json_members, report_json};
ghost use Rattle.bound_report.specs.Document.{strings_of, members_of, object_of, IsJsonLine};
ghost use Rattle.serde_json.specs.Data.{string, put};
ghost use Rattle.serde_json.specs.View.{view, items_view, members_view};

use number_text::push_line;
use qp_model::Bounds;
use serde_json::{Map, Value, put};
use std::alloc::{AllocError, Global};

/// The text of a report: lines of a word and its numbers, the header `mpc-report` with the version first and `end` last. A number that is over a
/// power of two has that power beside it. A lean controller has the line `excess`, over `2^16`, in place of `cost`. Version 1 has one line `violation`;
/// any other has one for each of the m rows, with the row's number from 1 on before it.
pub fn report_text(alloc: Global, b: &Bounds) -> Result<Vec<u8>, AllocError>
    ensures { IfOk result (λ v. v.items ≡ report_text (printed b.now)) }
{
    let mut text = head_text(alloc, b)?;
    push_bounds(alloc, &mut text, b)?;
    text.push_str("end\n")?;
    Ok(text.into_bytes())
}

/// The report as one JSON object with no space in it, and a line feed. Each value is a string, the number in decimal, since a reader of JSON may
/// keep no more of a number than a float does. `margin` is over `2^16`, and so is `excess`, which a lean controller has in place of `cost`; `gap`,
/// `undercut` and `violation`, the greatest of all rows, are over `2^40`. Any version but 1 has `violations` too: an array of m such strings, over `2^40`,
/// from the first row on.
pub fn report_json(alloc: Global, b: &Bounds) -> Result<Vec<u8>, AllocError>
    ensures bytes { IfOk result (λ v. v.items ≡ report_json (printed b.now)) }
    ensures document { IfOk result (λ v. IsJsonLine v.items (object_of (json_members (printed b.now)))) }
{
    let report = Value::Object(report_members(alloc, b)?);
    let mut text = report.to_vec(alloc)?;
    text.push(b'\n')?;
    Ok(text)
}

// The members of the object. A `Map` keeps them in the order of their keys.
fn report_members(alloc: Global, b: &Bounds) -> Result<Map<String, Value>, AllocError>
    ensures { IfOk result (λ m. members_view m.entries ≡ members_of (json_members (printed b.now))) }
{
    let mut members = number_members(alloc, b)?;
    if b.version == 1 {
        return Ok(members);
    }
    let rows = number_strings(alloc, &b.rows)?;
    put(&mut members, alloc, "violations", Value::Array(rows))?;
    Ok(members)
}

// A number and its key.
#[derive(Clone, Copy)]
struct KeyedNumber {
    key: &'static str,
    number: i128,
}

// Those of one number.
fn number_members(alloc: Global, b: &Bounds) -> Result<Map<String, Value>, AllocError>
    ensures { IfOk result (λ m. members_view m.entries ≡ members_of (first_members (printed b.now) ++ last_members (printed b.now))) }
{
    let mut members = Map::new(alloc);
    put_numbers(alloc, &mut members, &figures_of(b))?;
    Ok(members)
}

// The key of the cost, or of the excess.
fn cost_key(lean: bool) -> &'static str
    ensures { result.now ≡ cost_key lean }
{
    if lean { "excess" } else { "cost" }
}

// The numbers under their keys, in the order of the keys.
fn figures_of(b: &Bounds) -> [KeyedNumber; 12]
    ensures { let p = printed b.now in
        map (λ f. (f.key.now, One f.number)) result ≡ first_members p ++ last_members p }
{
    [
        KeyedNumber {
            key: "bits",
            number: i128::from(b.bits),
        },
        KeyedNumber {
            key: cost_key(b.lean),
            number: b.cost,
        },
        KeyedNumber {
            key: "gap",
            number: b.gap,
        },
        KeyedNumber {
            key: "margin",
            number: b.margin,
        },
        KeyedNumber {
            key: "multiplier",
            number: b.multiplier,
        },
        KeyedNumber {
            key: "step",
            number: i128::from(b.step),
        },
        KeyedNumber {
            key: "steps",
            number: i128::from(b.steps),
        },
        KeyedNumber {
            key: "undercut",
            number: b.undercut,
        },
        KeyedNumber {
            key: "version",
            number: i128::from(b.version),
        },
        KeyedNumber {
            key: "violation",
            number: b.violation,
        },
        KeyedNumber {
            key: "width",
            number: i128::from(b.width),
        },
        KeyedNumber {
            key: "words",
            number: b.words as i128,
        },
    ]
}

// Numbers under their keys, one by one.
fn put_numbers(
    alloc: Global,
    members: &mut Map<String, Value>,
    figures: &[KeyedNumber],
) -> Result<(), AllocError>
    ensures { OnOk result (members_view members.new.entries
        ≡ fold (λ m f. put f.key.now (string (signed_decimal f.number)) m) (members_view members.old.entries) figures.now) }
{
    for figure in figures {
        put_number(alloc, members, figure.key, figure.number)?;
    }
    Ok(())
}

// A number under its key, as a string.
fn put_number(
    alloc: Global,
    members: &mut Map<String, Value>,
    key: &str,
    number: i128,
) -> Result<(), AllocError>
    ensures { OnOk result (members_view members.new.entries
        ≡ put key.now (string (signed_decimal number)) (members_view members.old.entries)) }
{
    let text = number.to_string(alloc)?;
    put(members, alloc, key, Value::String(text))
}

// Each number as a string.
fn number_strings(alloc: Global, numbers: &[i128]) -> Result<Vec<Value>, AllocError>
    ensures { IfOk result (λ v. items_view v.items ≡ strings_of numbers.now) }
{
    let mut strings = Vec::new(alloc);
    for number in numbers {
        push_string(alloc, &mut strings, *number)?;
    }
    Ok(strings)
}

// One more number as a string.
fn push_string(alloc: Global, strings: &mut Vec<Value>, number: i128) -> Result<(), AllocError>
    ensures { OnOk result (map view strings.new.items ≡ map view strings.old.items ++ string (signed_decimal number) ∷ []) }
{
    let text = number.to_string(alloc)?;
    strings.push(Value::String(text))?;
    Ok(())
}

// The header, the margin and what was chosen.
fn head_text(alloc: Global, b: &Bounds) -> Result<String, AllocError>
    ensures { IfOk result (λ text. string_bytes text ≡ text_of (report_head (printed b.now))) }
{
    let mut text = String::new(alloc);
    push_line(alloc, &mut text, "mpc-report", &[i128::from(b.version)])?;
    push_line(alloc, &mut text, "margin", &[b.margin, 1 << 16])?;
    push_cost(alloc, &mut text, b)?;
    push_line(alloc, &mut text, "multiplier", &[b.multiplier])?;
    push_line(alloc, &mut text, "step", &[i128::from(b.step)])?;
    push_line(alloc, &mut text, "steps", &[i128::from(b.steps)])?;
    push_line(alloc, &mut text, "bits", &[i128::from(b.bits)])?;
    push_line(alloc, &mut text, "width", &[i128::from(b.width)])?;
    push_line(alloc, &mut text, "words", &[b.words as i128])?;
    Ok(text)
}

// The greatest cost, or the greatest excess.
fn push_cost(alloc: Global, text: &mut String, b: &Bounds) -> Result<(), AllocError>
    ensures { OnOk result (string_bytes text.new ≡ string_bytes text.old ++ text_of (cost_line (printed b.now) ∷ [])) }
{
    if b.lean {
        return push_line(alloc, text, "excess", &[b.cost, 1 << 16]);
    }
    push_line(alloc, text, "cost", &[b.cost])
}

// What is promised, at the end.
fn push_bounds(alloc: Global, text: &mut String, b: &Bounds) -> Result<(), AllocError>
    ensures { OnOk result (string_bytes text.new ≡ string_bytes text.old ++ text_of (bound_lines (printed b.now))) }
{
    push_violations(alloc, text, b)?;
    push_line(alloc, text, "gap", &[b.gap, 1 << 40])?;
    push_line(alloc, text, "undercut", &[b.undercut, 1 << 40])
}

// The violation of all rows in version 1, and else that of each.
fn push_violations(alloc: Global, text: &mut String, b: &Bounds) -> Result<(), AllocError>
    ensures { OnOk result (string_bytes text.new ≡ string_bytes text.old ++ text_of (violation_lines (printed b.now))) }
{
    if b.version == 1 {
        return push_line(alloc, text, "violation", &[b.violation, 1 << 40]);
    }
    push_rows(alloc, text, b)
}

// A line for each row, counted from 1.
fn push_rows(alloc: Global, text: &mut String, b: &Bounds) -> Result<(), AllocError>
    ensures { OnOk result (string_bytes text.new ≡ string_bytes text.old ++ text_of (numbered_violations 1 b.now.rows.items)) }
{
    for (i, row) in b.rows.iter().enumerate() {
        push_line(alloc, text, "violation", &[i as i128 + 1, *row, 1 << 40])?;
    }
    Ok(())
}
