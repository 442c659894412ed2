// The calls of a store and a sink in memory that are to fail.
ghost use Rattle.std.specs.Prelude.{◌≡◌, ◌↔◌, IsTrue, Contains};
ghost use Rattle.trials_stores.specs.Failing.{keep_of};

// A write that is to fail, and how many bytes it keeps.
#[derive(Clone, Copy)]
pub struct FailingWrite {
    pub call: usize,
    pub keep: usize,
}

// How many bytes the write of this number is to keep, where it is listed.
pub fn keep_of(failing: &[FailingWrite], call: usize) -> Option<usize>
    ensures { result ≡ keep_of failing.now call }
{
    failing.iter().find(|w| w.call == call).map(|w| w.keep)
}

// Whether a call is among those that are to fail.
pub fn is_listed(calls: &[usize], call: usize) -> bool
    ensures { IsTrue result ↔ Contains calls.now call }
{
    calls.contains(&call)
}
