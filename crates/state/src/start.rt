// A start that is refused: the all-zero state, which itself is out of shape.
ghost use Rattle.std.specs.Prelude.{◌≡◌};
ghost use Rattle.basics.specs.declared.Refusal.TheVariants.{BadStart};

use basics::Refusal;

#[derive(Clone, Copy, PartialEq, Eq)]
pub struct RefusedStart<S> {
    pub zero: S,
}

impl<S: Drop> From<RefusedStart<S>> for Refusal {
    ghost from_gives = { λ _ refusal. refusal ≡ BadStart };

    fn from(_start: RefusedStart<S>) -> Refusal {
        Refusal::BadStart
    }
}
