// The refusals, one case for each number, with the place where one is told.
ghost use Rattle.std.specs.Prelude.{◌≡◌};
ghost use Rattle.refusal.specs.Refusal.{with_place, without_place, told_of};

// Rows and columns count from 0.
#[derive(Clone, Copy, Debug, PartialEq, Eq)]
pub struct Place {
    pub row: usize,
    pub col: usize,
}

#[derive(Clone, Copy, Debug, PartialEq, Eq)]
pub enum Refusal {
    OrderZero,
    OrderTooLarge,
    WrongLength,
    ToleranceOutside,
    BudgetOutside,
    EntryNotFinite(Place),
    BudgetReached,
    ResultNotFinite(Place),
    ShapeSpoiled(Place),
    ComplexEigenvalues,
    BlockNotComplex(Place),
    InputCutShort,
    UnknownKind,
    InputLengthWrong,
}

// Document 01's number, and the place, as C and the program's text have them; row 0 and column 0 where none is told.
#[derive(Clone, Copy, Debug, PartialEq, Eq)]
pub struct Told {
    pub number: u64,
    pub row: usize,
    pub col: usize,
}

impl Told {
    fn at(number: u64, place: Place) -> Told
        ensures { result ≡ with_place number place }
    {
        let Place { row, col } = place;
        Told { number, row, col }
    }

    fn nowhere(number: u64) -> Told
        ensures { result ≡ without_place number }
    {
        Told::at(number, Place { row: 0, col: 0 })
    }
}

#[tactic(auto, unfolding(crate::specs::Refusal::told_of))]
impl From<Refusal> for Told {
    ghost from_gives = { λ refusal told. told ≡ told_of refusal };

    fn from(refusal: Refusal) -> Told {
        match refusal {
            Refusal::OrderZero => Told::nowhere(1),
            Refusal::OrderTooLarge => Told::nowhere(2),
            Refusal::WrongLength => Told::nowhere(3),
            Refusal::ToleranceOutside => Told::nowhere(4),
            Refusal::BudgetOutside => Told::nowhere(5),
            Refusal::EntryNotFinite(place) => Told::at(6, place),
            Refusal::BudgetReached => Told::nowhere(7),
            Refusal::ResultNotFinite(place) => Told::at(8, place),
            Refusal::ShapeSpoiled(place) => Told::at(9, place),
            Refusal::ComplexEigenvalues => Told::nowhere(10),
            Refusal::BlockNotComplex(place) => Told::at(11, place),
            Refusal::InputCutShort => Told::nowhere(12),
            Refusal::UnknownKind => Told::nowhere(13),
            Refusal::InputLengthWrong => Told::nowhere(14),
        }
    }
}
