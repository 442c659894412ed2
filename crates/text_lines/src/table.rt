// Blocks of lines: their words, how many lines there are of each, and how many numbers each has.
ghost use Rattle.std.specs.Prelude.{◌≡◌, ◌<◌, ◌≤◌, ◌^◌, None, Some, MatchOption, length, take, slice_get};
ghost use Rattle.text_lines.specs.Lines.{place};
ghost use Rattle.text_lines.specs.Blocks.{blocks_of, spread, total_rows};

/// The word of the line with this index, and how many numbers it has. None past the last line of the blocks.
pub fn place_in(
    blocks: &[(&'static str, usize, usize)],
    index: usize,
) -> Option<(&'static str, usize)>
    ensures { MatchOption result (slice_get (spread (blocks_of blocks.now)) index ≡ None) (λ p.
        slice_get (spread (blocks_of blocks.now)) index ≡ Some (place p.0.now p.1)) }
{
    let mut left = index;
    for (key, rows, count) in blocks {
        if left < *rows {
            return Some((*key, *count));
        }
        left -= *rows;
    }
    None
}

/// How many lines are before those of a block.
pub fn rows_before(blocks: &[(&'static str, usize, usize)], block: usize) -> usize
    requires inside { block ≤ length blocks.now }
    requires few { total_rows (blocks_of blocks.now) < 2 ^ 64 }
    ensures { result ≡ total_rows (take block (blocks_of blocks.now)) }
{
    let mut rows = 0;
    for i in 0..block {
        rows += blocks[i].1;
    }
    rows
}
