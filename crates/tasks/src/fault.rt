ghost use Rattle.std.specs.Prelude.{◌≡◌, Some};
ghost use Rattle.tasks.specs.Faults.{number_of, layer_of, place_of, inside_of, shown};
ghost use Rattle.tasks.specs.Mapped.{InputMapped};

use std::fmt;

// Why a call was refused.
#[derive(Clone, Copy, PartialEq, Debug)]
pub enum Fault {
    // no slot is vacant
    NoVacantSlot { capacity: usize },
    // as many elements are held as there are parking places
    ParkingFull { places: usize },
    // the address is no slot that the call can work on
    NoSuchSlot { address: usize },
    // no more tokens can be handed out
    TooManyTokens { out: usize },
    // the token is one of another set
    OtherName { name: u32 },
    // no token is out, so none can come back
    NoTokenOut,
    // tokens are still out
    TokensOut { count: usize },
    // the last group, of this capacity, is full, and the next group does not fit
    NoNextGroup { group: usize, capacity: usize },
}

impl Fault {
    // The numbers of faults, layers and places belong to the rules: recordings know faults by them.
    pub fn number(self) -> u32
        ensures { result ≡ number_of self }
    {
        match self {
            Fault::NoVacantSlot { .. } => 1,
            Fault::ParkingFull { .. } => 2,
            Fault::NoSuchSlot { .. } => 3,
            Fault::TooManyTokens { .. } => 4,
            Fault::OtherName { .. } => 5,
            Fault::NoTokenOut => 6,
            Fault::TokensOut { .. } => 7,
            Fault::NoNextGroup { .. } => 8,
        }
    }

    pub fn layer(self) -> u32
        ensures { result ≡ layer_of self }
    {
        match self {
            Fault::NoVacantSlot { .. } => 1,
            Fault::ParkingFull { .. } => 3,
            Fault::NoSuchSlot { .. } => 1,
            Fault::TooManyTokens { .. } => 2,
            Fault::OtherName { .. } => 2,
            Fault::NoTokenOut => 2,
            Fault::TokensOut { .. } => 2,
            Fault::NoNextGroup { .. } => 4,
        }
    }

    pub fn place(self) -> u64
        ensures { result ≡ place_of self }
    {
        match self {
            Fault::NoVacantSlot { capacity } => capacity as u64,
            Fault::ParkingFull { places } => places as u64,
            Fault::NoSuchSlot { address } => address as u64,
            Fault::TooManyTokens { out } => out as u64,
            Fault::OtherName { name } => name as u64,
            Fault::NoTokenOut => 0,
            Fault::TokensOut { count } => count as u64,
            Fault::NoNextGroup { group, .. } => group as u64,
        }
    }

    // The fault of the layer below that led to this one.
    pub fn inside(self) -> Option<Fault>
        ensures { result ≡ inside_of self }
    {
        match self {
            Fault::NoNextGroup { capacity, .. } => Some(Fault::NoVacantSlot { capacity }),
            _ => None,
        }
    }
}

impl fmt::Display for Fault {
    ghost output = { λ f. Some (shown f) };

    fn fmt<W: fmt::Write>(&self, f: &mut fmt::Formatter<W>) -> fmt::Result {
        let number = self.number();
        let layer = self.layer();
        let place = self.place();
        write!(f, "fault {number}, layer {layer}, place {place}")
    }
}

// A refusal: the fault, and the very input that the call was given.
#[derive(Clone, Copy, PartialEq, Debug)]
pub struct Refused<T> {
    pub fault: Fault,
    pub input: T,
}

impl<T> Refused<T> {
    // The same refusal of what the function makes of the input.
    pub fn map<U, F: FnOnce(T) -> U>(self, f: F) -> Refused<U>
        requires { F.pre f self.input }
        ensures { InputMapped (F.post f) self result }
    {
        Refused {
            fault: self.fault,
            input: f(self.input),
        }
    }
}
