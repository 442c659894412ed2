// The machines that a controller can be for.

/// The machine that runs a controller.
#[derive(Clone, Copy)]
pub enum Machine {
    /// The dual gradient projection method, of versions 1 and 2.
    Plain,
    /// Its accelerated form, of version 3.
    Accelerated,
}
