// The laws of an accelerated projected dual gradient method with inexact steps, for any quadratic program.
ghost use Rattle.fast_machine.specs.Fast.{WeightsLaw, StartLaw, CarryLaw, FastStepLaw, FastRunLaw, FastEvenLaw};

/// The weights of n steps come to n (n + 3) / 2, no weight's square is above twice all weights with it, and by how much an error accumulates.
pub fn weights_law()
    ensures sum { WeightsLaw }
    ensures start { StartLaw }
    ensures carry { CarryLaw }
{}

/// One inexact step of the accelerated method bounds the Lagrangian at the mean of the multipliers reached, for every plan.
pub fn fast_step_law()
    ensures { FastStepLaw }
{}

/// A run of such steps from 0 bounds the Lagrangian at the average of its plans by their weights.
pub fn fast_run_law()
    ensures { FastRunLaw }
{}

/// Where the errors of all its steps have the same bounds, so does a run with one number for them.
pub fn fast_even_law()
    ensures { FastEvenLaw }
{}
