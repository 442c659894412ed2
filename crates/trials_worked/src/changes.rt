// Texts that differ from a worked one in a few parts.
use crate::texts::{CONTROLLER, DESIGN};
use std::alloc::Global;
use std::test::Fail;

/// A text, and what is changed in it: the first of each two parts into the second, one after the other, each where it first stands.
pub type Changed<'a> = (&'a str, &'a [(&'a str, &'a str)]);

/// The limits of the first worked design.
pub const LIMITS: &str = "den = 4\nstage = [[0, 4, 4], [0, -4, 4]]\nfinal = [[4, 1]]";

// Its plant.
const PLANT: &str = "den = 1\na = [[1]]\nb = [[1]]";

/// The first worked design at two stages, over denominators so large that its exact numbers are above the limit. The state neither grows nor shrinks.
pub const FINE_STILL: Changed = (
    DESIGN,
    &[
        ("stages = 1", "stages = 2"),
        (PLANT, "den = 1048576\na = [[1048576]]\nb = [[1048576]]"),
        (
            LIMITS,
            "den = 131072\nstage = [[0, 131072, 131072], [0, -131072, 131072]]\nfinal = [[131072, 32768]]",
        ),
    ],
);

/// A state that stays 0, and an input that is to be far above what costs nothing: the plan without limits breaks the row by 3.9.
pub const FORCED: Changed = (
    DESIGN,
    &[
        (PLANT, "den = 1\na = [[0]]\nb = [[0]]"),
        ("stage = [[1, 0, 1]]", "stage = []"),
        (LIMITS, "den = 10\nstage = [[0, -10, -39]]\nfinal = []"),
        ("hi = [1]", "hi = [0]"),
    ],
);

/// The controller of the first worked design with the box 1 .. 1.
pub const HIGH: Changed = (CONTROLLER, &[("lo 0\n", "lo 1\n")]);

// A text with one part in place of another, which is to stand there.
fn with_part(alloc: Global, text: &str, old: &str, new: &str) -> Result<String, Fail> {
    let (before, after) = text.split_once(old).ok_or("absent")?;
    Ok(format!(in alloc; "{before}{new}{after}")?)
}

/// The changed text; an error where a part does not stand there.
pub fn changed_text(alloc: Global, (text, changes): Changed) -> Result<String, Fail> {
    let mut changed = String::from_str(alloc, text)?;
    for &(old, new) in changes {
        changed = with_part(alloc, &changed, old, new)?;
    }
    Ok(changed)
}

/// A text of cells: its first line, and the texts of their controllers.
pub fn cells_text(alloc: Global, head: &str, cells: &[Changed]) -> Result<String, Fail> {
    let mut text = String::from_str(alloc, head)?;
    for &cell in cells {
        text.push_str(&changed_text(alloc, cell)?)?;
    }
    text.push_str("end\n")?;
    Ok(text)
}
