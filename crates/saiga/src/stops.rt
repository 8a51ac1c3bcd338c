// The stops of a call and of its run (document 01, "Stops by origin"), with their numbers.
ghost use Rattle.std.specs.Prelude.{◌≡◌};
ghost use Rattle.saiga.specs.Stops.{stop_number};

#[derive(Clone, Copy)]
pub enum Stop {
    // Of the sheet: its length; a command that is cut, unknown or out of order; too many attributes or nodes; a number or a byte out of
    // range; a second definition of one kind; a piece that is no expression, or not of its type; a pair without definition.
    SheetTooLong = 1,
    Malformed = 2,
    TooMany = 3,
    OutOfRange = 4,
    Repeated = 5,
    NoPiece = 6,
    PieceType = 7,
    Missing = 8,
    // Of the store: its shape, and an entry.
    StoreShape = 9,
    BadEntry = 10,
    // Of the question: its budget, its form and its type.
    BudgetTooHigh = 11,
    NoQuestion = 12,
    QuestionType = 13,
    // Of the run: null, the budget spent, the depth of open forms, overflow, and a circle.
    OnNull = 14,
    Spent = 15,
    TooDeep = 16,
    Overflow = 17,
    Circle = 20,
}

impl Stop {
    pub fn number(self) -> u32
        ensures { result ≡ stop_number self }
    {
        self as u32
    }

    // The refusal of a call with this stop, at a place.
    pub fn at(self, place: usize) -> Refusal
        ensures { (result.stop ≡ self) × (result.place ≡ place) }
    {
        Refusal { stop: self, place }
    }
}

// A stop of 1 to 13 with its place.
#[derive(Clone, Copy)]
pub struct Refusal {
    pub stop: Stop,
    pub place: usize,
}
