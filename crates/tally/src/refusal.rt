// Why a call is refused, and what the levels' refusals of two layers mean here.
ghost use Rattle.std.specs.Prelude.{◌≡◌};
ghost use Rattle.tally.specs.Answers.{number_of, unless_room};

use grid::checks::Fault;

// Document 01's conditions 1, 2, 3 and 5, a z that is no layer of the box, and counts so far that no box has.
#[derive(Clone, Copy, Debug, PartialEq, Eq)]
pub enum Refusal {
    Grid(Fault),
    Distance,
    Outside,
    TooMany,
}

impl From<Fault> for Refusal {
    ghost use Rattle.tally.specs.declared.refusal.Refusal.TheVariants.{Grid};

    ghost from_gives = { λ fault refusal. refusal ≡ Grid fault };

    fn from(fault: Fault) -> Refusal {
        Refusal::Grid(fault)
    }
}

impl From<Refusal> for u32 {
    ghost from_gives = { λ refusal number. number ≡ number_of refusal };

    fn from(refusal: Refusal) -> u32 {
        match refusal {
            Refusal::Grid(fault) => u32::from(fault),
            Refusal::Distance => 5,
            Refusal::Outside => 91,
            Refusal::TooMany => 92,
        }
    }
}

// What was found of two layers by a call of the levels: that there is no room is no refusal here.
pub(crate) fn unless_room(found: Result<(), levels::Refusal>) -> Result<(), Refusal>
    ensures { result ≡ unless_room found }
{
    match found {
        Ok(()) => Ok(()),
        Err(levels::Refusal::Grid(fault)) => Err(Refusal::Grid(fault)),
        Err(levels::Refusal::Distance) => Err(Refusal::Distance),
        Err(levels::Refusal::Outside) => Err(Refusal::Outside),
        Err(levels::Refusal::Room) => Ok(()),
    }
}
