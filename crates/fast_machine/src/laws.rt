// What is said of the machine's weights, of its runs and of what they promise.
ghost use Rattle.overflow_check.specs.FastMachine.{WeightSumLaw};
ghost use Rattle.fast_machine.specs.FastReady.{FastReadyLaw};
ghost use Rattle.fast_machine.specs.FastValues.{FastValuesLaw};
ghost use Rattle.fast_machine.specs.FastErrors.{FastMachineStepLaw, FastAverageLaw, FastMachineRunLaw, FastMachineEvenLaw, FastCostLaw};

/// The weights of n steps come to n (n + 3) / 2, and a mean is divided by twice those with its step's.
pub fn weight_sum_law()
    ensures { WeightSumLaw }
{}

/// In a run from a state of the box each multiplier stays between 0 and the greatest of its row, and what is summed by the weights stays within so many
/// times the greatest.
pub fn fast_ready_law()
    ensures { FastReadyLaw }
{}

/// No value that the machine of a controller meets in a run from a state of its box leaves its width.
pub fn fast_values_law()
    ensures { FastValuesLaw }
{}

/// A step of the machine is an inexact step of the accelerated method, whose gradient misses besides what rounding the means adds.
pub fn fast_machine_step_law()
    ensures { FastMachineStepLaw }
{}

/// The plans of a run, by the weights of their steps, come to its sums: these are the numerators of the averaged plan.
pub fn fast_average_law()
    ensures { FastAverageLaw }
{}

/// A run bounds the Lagrangian at the averaged plan, against every feasible plan and all multipliers in 0 .. 2 r.
pub fn fast_machine_run_law()
    ensures { FastMachineRunLaw }
{}

/// Where the errors of all steps have the same bounds, a run has that bound with one number for them.
pub fn fast_machine_even_law()
    ensures { FastMachineEvenLaw }
{}

/// And its averaged plan costs at most that number more than any feasible plan.
pub fn fast_cost_law()
    ensures { FastCostLaw }
{}
