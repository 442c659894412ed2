// What follows from a margin.
use dual_bounds::{TooManySteps, fast_multiplier, fast_steps, multiplier, steps};
use qp_model::{Margin, Quantity, Wide};

// Units and costs, and the multiplier.
static MULTIPLIERS: [(i128, i128, Result<i128, Wide>); 10] = [
    (8192, 1, Ok(8)),
    (16384, 0, Ok(1)),
    (1, 1, Ok(65536)),
    (65536, 1600, Ok(1600)),
    (65536, 159, Ok(159)),
    (16384, 63, Ok(252)),
    (1, 1 << 28, Ok(1 << 44)),
    (1, (1 << 28) + 1, Err(Wide(Quantity::Multiplier))),
    // the greatest cost whose quantity is within its limit, and the one above
    (1 << 90, 1 << 110, Ok(1 << 36)),
    (1 << 90, (1 << 110) + 1, Err(Wide(Quantity::Multiplier))),
];

fn is_multiplier(units: i128, cost: i128, bound: Result<i128, Wide>) -> bool {
    units >= 1 && cost >= 0 && multiplier(&Margin { units, cost }) == bound
}

#[test]
fn multipliers(rt: HostRuntime) {
    for &(units, cost, bound) in &MULTIPLIERS {
        assert!(rt; is_multiplier(units, cost, bound));
    }
}

// Step exponents, multipliers and half targets, and the count of steps.
static STEPS: [(u32, i128, i128, Result<u32, TooManySteps>); 8] = [
    (1, 8, 8796093022208, Ok(4)),
    (1, 8, 54975581388, Ok(641)),
    (1, 8, 8388608, Ok(4194304)),
    (1, 8, 4194304, Err(TooManySteps { k: 8388608 })),
    (1, 65536, 8796093022208, Ok(32768)),
    (40, 1, 576460752303423488, Ok(4194304)),
    (2, 1600, 8796093022208, Ok(1600)),
    (1, 159, 34359738368, Ok(20352)),
];

fn is_count(s: u32, r: i128, step_target: i128, count: Result<u32, TooManySteps>) -> bool {
    s <= 40 && r >= 1 && r <= 1 << 44 && step_target >= 1 && steps(s, r, step_target) == count
}

#[test]
fn run_steps(rt: HostRuntime) {
    for &(s, r, step_target, count) in &STEPS {
        assert!(rt; is_count(s, r, step_target, count));
    }
}

// The same for the accelerated machine: among them the most steps that it may have, and the least that it may not.
static FAST_STEPS: [(u32, i128, i128, Result<u32, TooManySteps>); 8] = [
    (1, 8, 8796093022208, Ok(3)),
    (1, 8, 54975581388, Ok(50)),
    (1, 1, 1030792151040, Ok(3)),
    (0, 1, 8796093022208, Ok(1)),
    (0, 5, 8796093022208, Ok(2)),
    (0, 4294901758, 8796093022208, Ok(65534)),
    (0, 4294901759, 8796093022208, Err(TooManySteps { k: 65535 })),
    (
        40,
        1 << 42,
        1,
        Err(TooManySteps {
            k: 6521908912666391105,
        }),
    ),
];

fn is_fast_count(s: u32, r: i128, step_target: i128, count: Result<u32, TooManySteps>) -> bool {
    s <= 40 && r >= 1 && r <= 1 << 42 && step_target >= 1 && fast_steps(s, r, step_target) == count
}

#[test]
fn fast_run_steps(rt: HostRuntime) {
    for &(s, r, step_target, count) in &FAST_STEPS {
        assert!(rt; is_fast_count(s, r, step_target, count));
    }
}

// The greatest multiplier whose quantity is within its limit there, and the one above.
#[test]
fn fast_multipliers(rt: HostRuntime) {
    assert!(rt;
        fast_multiplier(1, 1 << 43, 1) == Ok(1 << 42)
            && fast_multiplier(1, (1 << 43) + 1, 1) == Err(Wide(Quantity::Multiplier))
    );
}
