// The cuts of a box.
ghost use Rattle.std.specs.Prelude.{◌≡◌, ◌≤◌, ◌<◌, length, All, IfOk, IfErr};
ghost use Rattle.std.specs.Option.{SomeIff};
ghost use Rattle.mat_int.specs.Lines.{lists};
ghost use Rattle.cell_split.specs.Cells.{cell_count};

use number_text::TextFault;
use std::marker::Model;

/// The most cells of a box.
const MOST_CELLS: usize = 64;

/// A list of cuts for each coordinate of a box, which make 64 cells at most. A cut ends a part of its coordinate, and the next part begins one
/// above; the cells are all combinations of parts.
#[derive(Drop)]
pub struct Cuts {
    cuts: Vec<Vec<i128>>,
    cells: u32,
}

impl Model for Cuts {
    ghost use Rattle.std.specs.Prelude.{◌≡◌, ◌≤◌, List, ℤ};
    ghost use Rattle.mat_int.specs.Lines.{lists};
    ghost use Rattle.cell_split.specs.Cells.{cell_count};

    ghost Value = { List (List ℤ) };

    ghost view = { λ c. lists c.cuts.items };

    ghost invariant = { λ c. (c.cells ≡ cell_count (lists c.cuts.items)) × (c.cells ≤ 64) };
}

impl Cuts {
    /// How many cells there are: 1 to 64.
    pub fn cells(&self) -> u32
        ensures value { result ≡ cell_count self.now }
        ensures some { 1 ≤ result }
        ensures few { result ≤ 64 }
    {
        self.cells
    }

    // Each coordinate's.
    pub(crate) fn each(&self) -> &[Vec<i128>]
        ensures { lists result.now ≡ self.now }
    {
        &self.cuts
    }

    // These, counted.
    pub(crate) fn counted(cuts: Vec<Vec<i128>>) -> Result<Cuts, TextFault>
        requires { All (λ list. length list.items ≤ 63) cuts.items }
        ensures made { IfOk result (λ c. c ≡ lists cuts.items) }
        ensures few { IfOk result (λ c. cell_count c ≤ 64) }
        ensures many { IfErr result (λ e. (e ≡ TextFault.Range 0) × (64 < cell_count (lists cuts.items))) }
    {
        match count_cells(&cuts) {
            Some(cells) => Ok(Cuts { cuts, cells }),
            None => Err(TextFault::Range { place: 0 }),
        }
    }
}

// How many cells such lists make. None where there are more than 64.
fn count_cells(cuts: &[Vec<i128>]) -> Option<u32>
    requires { All (λ list. length list.items ≤ 63) cuts.now }
    ensures { let cells = cell_count (lists cuts.now) in SomeIff result (cells ≤ 64) cells }
{
    let mut cells = 1;
    for i in 0..cuts.len() {
        cells *= cuts[i].len() + 1;
        if cells > MOST_CELLS {
            return None;
        }
    }
    Some(cells as u32)
}
