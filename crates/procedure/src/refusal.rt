// What turns a call away: the table of refusals by its names, and what SUSPECT names.

ghost use Rattle.std.specs.Prelude.{◌≡◌};
ghost use Rattle.procedure.specs.Refused.{number_of, quantity_number, names_of};

// What of a set is suspect.
#[derive(Clone, Copy, PartialEq, Eq)]
pub enum Quantity {
    Distance,
    Height,
}

impl Quantity {
    // The paper's number.
    pub fn number(self) -> u64
        ensures { result ≡ quantity_number self }
    {
        match self {
            Quantity::Distance => 1,
            Quantity::Height => 2,
        }
    }
}

// A suspect quantity of a set.
#[derive(Clone, Copy, PartialEq, Eq)]
pub struct Suspect {
    pub series: u64,
    pub set: u64,
    pub quantity: Quantity,
}

// Why a call is turned away, in the table's order.
#[derive(Clone, Copy, PartialEq, Eq)]
pub enum Refusal {
    Register,
    Place,
    Open,
    Terms,
    Closed,
    Filled,
    Empty,
    Far,
    Nothing,
    Short,
    Suspect(Suspect),
    Zero,
    Room,
    Form,
}

impl Refusal {
    // The table's number.
    pub fn number(self) -> u64
        ensures { result ≡ number_of self }
    {
        match self {
            Refusal::Register => 1,
            Refusal::Place => 2,
            Refusal::Open => 3,
            Refusal::Terms => 4,
            Refusal::Closed => 5,
            Refusal::Filled => 6,
            Refusal::Empty => 7,
            Refusal::Far => 8,
            Refusal::Nothing => 9,
            Refusal::Short => 10,
            Refusal::Suspect(_) => 11,
            Refusal::Zero => 12,
            Refusal::Room => 13,
            Refusal::Form => 14,
        }
    }
    // What it names: SUSPECT a set and a quantity in it, every other nothing.
    pub fn names(self) -> Named
        ensures { result ≡ names_of self }
    {
        match self {
            Refusal::Suspect(s) => Named {
                series: s.series,
                set: s.set,
                quantity: s.quantity.number(),
            },
            _ => Named::NONE,
        }
    }
}

// What a refusal names, in numbers; zeros for nothing.
#[derive(Clone, Copy)]
pub struct Named {
    pub series: u64,
    pub set: u64,
    pub quantity: u64,
}

impl Named {
    // What an accepted call names, and every refusal but SUSPECT.
    pub const NONE: Named = Named {
        series: 0,
        set: 0,
        quantity: 0,
    };
}
