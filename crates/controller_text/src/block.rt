// The blocks of a controller's lines.
ghost use Rattle.std.specs.Prelude.{◌≡◌, ◌<◌};
ghost use Rattle.controller_text.specs.BlockPlace.{place_in_table};

/// A block of lines of one word, in the order of the text.
#[derive(Clone, Copy)]
pub enum Block {
    Version,
    Size,
    Bits,
    Steps,
    Clamp,
    Words,
    Exponents,
    Low,
    High,
    StateGains,
    Offsets,
    DualGains,
    PlanRows,
    StateRows,
    Bounds,
    End,
}

/// The blocks in their order.
pub const BLOCKS: [Block; 16] = [
    Block::Version,
    Block::Size,
    Block::Bits,
    Block::Steps,
    Block::Clamp,
    Block::Words,
    Block::Exponents,
    Block::Low,
    Block::High,
    Block::StateGains,
    Block::Offsets,
    Block::DualGains,
    Block::PlanRows,
    Block::StateRows,
    Block::Bounds,
    Block::End,
];

/// How many blocks are before this one.
pub fn place_of(block: Block) -> usize
    ensures value { result ≡ place_in_table block }
    ensures inside { result < 16 }
{
    block as usize
}
