//! The laws of two commands: what is written is read back, and its plans keep what was printed.
#![tactic(auto)]

ghost use Rattle.command_laws.specs.Laws.{GenerateSolveLaw, FastGenerateSolveLaw, LeanSolveLaw, FastSolveLaw, SplitServeLaw};

/// After `generate` was done, `solve` of its controller and grid states of the design's box refuses nothing: all is done, but for want of memory and faults of files or the output.
/// Each line is that of a plan that exceeds no constraint by more than the printed violation, and costs at most the printed gap more than any feasible plan. So it is for designs of
/// versions 1 and 2, and of version 3.
pub fn generate_solve_law()
    ensures plain { GenerateSolveLaw }
    ensures fast { FastGenerateSolveLaw }
{}

/// The same of `lean` and `solve`.
pub fn lean_solve_law()
    ensures plain { LeanSolveLaw }
    ensures fast { FastSolveLaw }
{}

/// After `split` was done, `serve` of its cells and grid states of cells that have plans refuses nothing, either, and each line is that of such a plan, of the one controller whose cell has
/// the state. Where every cell has plans, so it is at all grid states of the design's box.
pub fn split_serve_law()
    ensures { SplitServeLaw }
{}
