// What is said of the first coordinate outside the box.
ghost use Rattle.fixed_kernel.specs.OneOutside.{OneOutsideLaw};

/// A state has at most one first coordinate outside the box of its controller, and none where it lies in the box.
pub fn one_outside_law()
    ensures { OneOutsideLaw }
{}
