ghost use Rattle.std.specs.Prelude.{◌≡◌, Some};
ghost use Rattle.grade.specs.Told.{refusal};
ghost use Rattle.grade.specs.Texts.{refusal_text};

use std::fmt;

// Why a call refuses. `refusal` of the specification tells each one's number and places. A place of 0 is none, as users know it, and no Option.
#[derive(Clone, Copy, PartialEq, Eq, Debug)]
pub enum Refusal {
    NotLawful,
    MemoryTooShort,
    BridgeOutOfRange,
    SameBridge,
    NoRoute,
    PairStands,
    PairAbsent,
    NoFreeSlot,
    SurveyOverflows { bridge: u16, position: u16 },
    SilentBridge { bridge: u16, cause: u16 },
    WrongFar { bridge: u16, position: u16 },
    NotARoute,
    WiderRouteExists,
    WrongSurveyShape,
    BrokenChains { record: u16 },
    WrongGrade { record: u16 },
    WrongSize,
    WrongScriptLine { place: usize },
}

impl Refusal {
    // The number by which users know the refusal. No `From`, since a number does not tell the places.
    pub fn number(self) -> u8
        ensures { result ≡ (refusal self).0 }
    {
        match self {
            Refusal::NotLawful => 1,
            Refusal::MemoryTooShort => 2,
            Refusal::BridgeOutOfRange => 3,
            Refusal::SameBridge => 4,
            Refusal::NoRoute => 5,
            Refusal::PairStands => 6,
            Refusal::PairAbsent => 7,
            Refusal::NoFreeSlot => 8,
            Refusal::SurveyOverflows { .. } => 8,
            Refusal::SilentBridge { .. } => 9,
            Refusal::WrongFar { .. } => 10,
            Refusal::NotARoute => 11,
            Refusal::WiderRouteExists => 12,
            Refusal::WrongSurveyShape => 13,
            Refusal::BrokenChains { .. } => 14,
            Refusal::WrongGrade { .. } => 15,
            Refusal::WrongSize => 16,
            Refusal::WrongScriptLine { .. } => 17,
        }
    }
}

// Its number, and its places by what they are.
impl fmt::Display for Refusal {
    ghost output = { λ r. Some (refusal_text r) };

    fn fmt<W: fmt::Write>(&self, f: &mut fmt::Formatter<W>) -> fmt::Result {
        let number = self.number();
        write!(f, "refused {number}")?;
        match *self {
            Refusal::SurveyOverflows { bridge, position }
            | Refusal::WrongFar { bridge, position } => {
                write!(f, ", bridge {bridge}, line {position}")
            }
            Refusal::SilentBridge { bridge, cause } => {
                write!(f, ", bridge {bridge}, cause {cause}")
            }
            Refusal::BrokenChains { record } => write!(f, ", record {record}"),
            Refusal::WrongGrade { record } if record > 0 => write!(f, ", record {record}"),
            _ => Ok(()),
        }
    }
}
