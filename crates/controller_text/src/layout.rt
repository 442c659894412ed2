// The lines of a text, by its version and its sizes: their words, how many there are of each, and how many numbers each has.
ghost use Rattle.std.specs.Prelude.{◌≡◌, map};
ghost use Rattle.text_lines.specs.Blocks.{total_rows};
ghost use Rattle.controller_text.specs.Table.{text_table, AreSizesSmall};
ghost use Rattle.controller_text.specs.TextForm.{exponent_rows};

use qp_model::FIRST_VERSION;
use text_lines::rows_before;

/// The version of a text, and its numbers of states, of inputs a stage, of stages and of rows.
#[derive(Clone, Copy)]
pub struct Sizes {
    pub version: u32,
    pub n: usize,
    pub p: usize,
    pub stages: usize,
    pub m: usize,
}

/// Blocks of lines in their order, each a word, how many lines have it, and how many numbers each of them has.
pub fn table(sizes: Sizes) -> [(&'static str, usize, usize); 16]
    requires { AreSizesSmall sizes }
    ensures { map (λ block. (block.0.now, block.1, block.2)) result ≡ text_table sizes }
{
    let Sizes {
        version,
        n,
        p,
        stages,
        m,
    } = sizes;
    let nu = p * stages;
    [
        ("mpc-controller", 1, 1),
        ("size", 1, 4),
        ("bits", 1, 4),
        ("steps", 1, 1),
        ("clamp", 1, 1),
        ("words", 1, 1),
        ("exps", exponent_rows(version), m),
        ("lo", 1, n),
        ("hi", 1, n),
        ("P", nu, n),
        ("T", 1, nu),
        ("W", nu, m),
        ("G", m, nu),
        ("E", m, n),
        ("b", 1, m),
        ("end", 1, 0),
    ]
}

// How many lines say the exponents of the rows.
fn exponent_rows(version: u32) -> usize
    ensures { result ≡ exponent_rows version }
{
    if version == FIRST_VERSION { 0 } else { 1 }
}

/// How many lines a text of such sizes has.
pub fn line_count(sizes: Sizes) -> usize
    requires { AreSizesSmall sizes }
    ensures { result ≡ total_rows (text_table sizes) }
{
    let blocks = table(sizes);
    rows_before(&blocks, blocks.len())
}
