use crate::instruction::Op;

/// The numbers of a listing, of any sizes.
#[derive(Drop)]
pub struct ListingParts {
    /// The width of a word, in bits.
    pub word: u32,
    /// Numbers of a state.
    pub inputs: usize,
    /// The bits by which a state is shifted up before it is put into the first words.
    pub shift: u32,
    /// The least state of the box.
    pub lo: Vec<i128>,
    /// The greatest state of the box.
    pub hi: Vec<i128>,
    /// Words of memory.
    pub words: usize,
    /// The address of the first word that is put out.
    pub first: usize,
    /// How many words are put out.
    pub outputs: usize,
    /// What the words that are put out are over.
    pub den: i128,
    /// How often the body is run.
    pub repeat: u32,
    /// The instructions of one step.
    pub body: Vec<Op>,
}
