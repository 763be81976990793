ghost use Rattle.std.specs.Prelude.{◌≡◌};
ghost use Rattle.grade.specs.Told.{told};
ghost use Rattle.grade.specs.Kinds.{cable_number, made_cable};

use crate::refusal::Refusal;

// What a line is made of, the lowest rank first.
#[derive(Clone, Copy, PartialEq, Eq, PartialOrd, Ord, Debug)]
pub enum Cable {
    SharedCopper,
    PointToPointCopper,
    Fibre,
}

impl TryFrom<u8> for Cable {
    type Error = Refusal;

    ghost try_from_gives = { λ class result. told cable_number result ≡ made_cable class };

    fn try_from(class: u8) -> Result<Cable, Refusal> {
        match class {
            1 => Ok(Cable::SharedCopper),
            2 => Ok(Cable::PointToPointCopper),
            3 => Ok(Cable::Fibre),
            _ => Err(Refusal::WrongGrade { record: 0 }),
        }
    }
}

impl From<Cable> for u8 {
    ghost from_gives = { λ cable result. result ≡ cable_number cable };

    fn from(cable: Cable) -> u8 {
        match cable {
            Cable::SharedCopper => 1,
            Cable::PointToPointCopper => 2,
            Cable::Fibre => 3,
        }
    }
}
