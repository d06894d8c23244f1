// Why a mesh or a file of one is refused (document 02, request 2): one enum, and the request's numbers for it, 21 to 30. Numbers are for the edge:
// the crates below it answer by `Result` and pass a refusal on with `?`.
ghost use Rattle.std.specs.Prelude.{◌≡◌};
ghost use Rattle.mesh_record.specs.Refusal.{number_of_refusal};

#[derive(Clone, Copy, Debug, PartialEq, Eq)]
pub enum Refusal {
    CutFile,
    BadSum,
    BadKind,
    NotZero,
    WrongCounts,
    IndexWithoutVertex,
    FloatNotFinite,
    BytesAfterClosing,
    ShortRoom,
    BadLists,
}

impl From<Refusal> for u32 {
    ghost from_gives = { λ refusal number. number ≡ number_of_refusal refusal };

    fn from(refusal: Refusal) -> u32 {
        match refusal {
            Refusal::CutFile => 21,
            Refusal::BadSum => 22,
            Refusal::BadKind => 23,
            Refusal::NotZero => 24,
            Refusal::WrongCounts => 25,
            Refusal::IndexWithoutVertex => 26,
            Refusal::FloatNotFinite => 27,
            Refusal::BytesAfterClosing => 28,
            Refusal::ShortRoom => 29,
            Refusal::BadLists => 30,
        }
    }
}
