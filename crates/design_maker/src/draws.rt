// The numbers that a made design draws.
ghost use Rattle.std.specs.Prelude.{◌≡◌, ◌≤◌, ◌<◌, ◌^◌, unsigned_abs};
ghost use Rattle.design_maker.specs.Draws.{chosen, drawn, following};

/// What a made design draws: entries of its plant over 4, weights of its two inputs, and the target and the weight of its two cost rows.
#[derive(Clone, Copy)]
pub(crate) struct Drawn {
    pub a11: i128,
    pub a12: i128,
    pub a21: i128,
    pub a22: i128,
    pub first_input: i128,
    pub second_input: i128,
    pub first_target: i128,
    pub first_weight: i128,
    pub second_target: i128,
    pub second_weight: i128,
}

// Numbers of 31 bits, one after another.
#[derive(Drop)]
struct Draws {
    number: u64,
    ghost small: { number < 2 ^ 31 },
}

impl Draws {
    // Goes on to the next number, and draws one of `count` numbers from `least` on by its high bits.
    fn draw(&mut self, least: i128, count: u64) -> i128
        requires small { unsigned_abs least ≤ 1 }
        requires some { 1 ≤ count }
        ensures number { self.new.number ≡ following self.old.number }
        ensures value { result ≡ chosen least count self.new.number }
    {
        self.number = (1103515245 * self.number + 12345) % (1 << 31);
        least + i128::from(self.number / 65536 % count)
    }
}

/// The ten draws from a seed.
pub(crate) fn draw_numbers(seed: u32) -> Drawn
    ensures { result ≡ drawn seed }
{
    let mut draws = Draws {
        number: u64::from(seed) % (1 << 31),
    };
    Drawn {
        a11: draws.draw(1, 3),
        a12: draws.draw(-1, 3),
        a21: draws.draw(-1, 3),
        a22: draws.draw(1, 3),
        first_input: draws.draw(1, 4),
        second_input: draws.draw(1, 4),
        first_target: draws.draw(0, 3),
        first_weight: draws.draw(1, 4),
        second_target: draws.draw(0, 3),
        second_weight: draws.draw(1, 4),
    }
}
