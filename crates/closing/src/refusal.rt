// Why a grid or a layer of one is not closed, and the number of each reason in the documents.
ghost use Rattle.std.specs.Prelude.{◌≡◌};
ghost use Rattle.closing.specs.Refused.{number_of};

// Which condition is the first that holds. No box comes with these calls, so that document 01's condition 2 is none of them.
#[derive(Clone, Copy, Debug, PartialEq, Eq)]
pub enum Refusal {
    Dimensions,
    Length,
    Height,
    Wall,
    ClosedDimensions,
    Room,
}

impl From<Refusal> for u32 {
    ghost from_gives = { λ refusal number. number ≡ number_of refusal };

    fn from(refusal: Refusal) -> u32 {
        match refusal {
            Refusal::Dimensions => 1,
            Refusal::Length => 3,
            Refusal::Height => 71,
            Refusal::Wall => 72,
            Refusal::ClosedDimensions => 73,
            Refusal::Room => 74,
        }
    }
}
