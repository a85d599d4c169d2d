ghost use Rattle.std.specs.Prelude.{◌≡◌, ◌+◌, ◌<◌, ◌^◌};
ghost use Rattle.made_model.specs.Draw.{after_draws, draw};

/// The numbers that are drawn from a seed, one after another.
#[derive(Debug, Drop)]
pub(crate) struct Draws {
    seed: u32,
    /// How many were drawn.
    drawn: u32,
    /// The last of them, or the seed.
    number: u32,
    ghost arrived: { number ≡ after_draws seed drawn },
}

impl Draws {
    /// None is drawn yet.
    #[tactic(auto, unfolding(made_model::specs::Draw::after_draws))]
    pub(crate) fn from_seed(seed: u32) -> Draws
        ensures seed { result.seed ≡ seed }
        ensures drawn { result.drawn ≡ 0 }
    {
        Draws {
            seed,
            drawn: 0,
            number: seed,
        }
    }

    /// Draws one of so many numbers from 0.
    #[tactic(auto, unfolding(made_model::specs::Draw::after_draws))]
    pub(crate) fn draw(&mut self, most: u32) -> u32
        requires some { 0 < most }
        requires few { self.old.drawn < 2 ^ 31 }
        ensures number { result ≡ draw self.old.seed self.old.drawn most }
        ensures below { result < most }
        ensures seed { self.new.seed ≡ self.old.seed }
        ensures drawn { self.new.drawn ≡ self.old.drawn + 1 }
    {
        let number = (u64::from(self.number) * 16_807 % 2_147_483_647) as u32;
        self.drawn += 1;
        self.number = number;
        number % most
    }
}
