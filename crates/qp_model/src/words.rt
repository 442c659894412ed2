// The words that say a refusal.
ghost use Rattle.std.specs.Prelude.{◌≡◌, IfOk, string_bytes, codes, [], ◌∷◌};
ghost use Rattle.std.specs.List.{join_with_byte};
ghost use Rattle.std.specs.Fmt.{decimal, signed_decimal};
ghost use Rattle.qp_model.specs.refusal.Words.{quantity_name, refusal_words};

use crate::quantity::Quantity;
use crate::refusal::Refusal;
use frac_scaled::Frac;
use std::alloc::{AllocError, Global};

// The name of a quantity.
fn quantity_name(quantity: &Quantity) -> &'static str
    ensures { result.now ≡ quantity_name quantity.now }
{
    match quantity {
        Quantity::Prediction => "prediction",
        Quantity::CornerSlack => "corner_slack",
        Quantity::CornerCost => "corner_cost",
        Quantity::Multiplier => "multiplier",
        Quantity::Hessian => "hessian",
        Quantity::Rows => "rows",
        Quantity::Curvature => "curvature",
        Quantity::Error => "error",
        Quantity::Descent => "descent",
        Quantity::Width => "width",
        Quantity::Turn => "turn",
        Quantity::Excess => "excess",
        Quantity::Stay => "stay",
        Quantity::Settle => "settle",
    }
}

// A slack that is less than the margin, and where it is.
fn margin_words(alloc: Global, corner: u32, row: u32, slack: &Frac) -> Result<String, AllocError>
    ensures { IfOk result (λ text. string_bytes text
        ≡ join_with_byte 32 (codes "no-margin" ∷ decimal corner ∷ decimal row ∷ signed_decimal slack.now.num ∷ signed_decimal slack.now.den ∷ [])) }
{
    let (num, den) = (slack.num, slack.den);
    format!(in alloc; "no-margin {corner} {row} {num} {den}")
}

// The quantity that is too large.
fn wide_words(alloc: Global, quantity: &Quantity) -> Result<String, AllocError>
    ensures { IfOk result (λ text. string_bytes text ≡ join_with_byte 32 (codes "too-wide" ∷ quantity_name quantity.now ∷ [])) }
{
    let name = quantity_name(quantity);
    format!(in alloc; "too-wide {name}")
}

/// The name of a refusal, and its numbers.
pub fn refusal_words(alloc: Global, refusal: &Refusal) -> Result<String, AllocError>
    ensures { IfOk result (λ text. string_bytes text ≡ join_with_byte 32 (refusal_words refusal.now)) }
{
    match refusal {
        Refusal::Memory => format!(in alloc; "memory"),
        Refusal::NoMargin { corner, row, slack } => margin_words(alloc, *corner, *row, slack),
        Refusal::Curvature => format!(in alloc; "curvature"),
        Refusal::TooManySteps { k } => format!(in alloc; "too-many-steps {k}"),
        Refusal::TooFine { eps } => format!(in alloc; "too-fine {eps}"),
        Refusal::TooWide { quantity } => wide_words(alloc, quantity),
    }
}
