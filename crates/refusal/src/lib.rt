// What a call refuses: why, by the refusal numbers of documents 01 and 02, and at which place.
#![tactic(auto)]

ghost use Rattle.std.specs.Prelude.{◌≡◌};
ghost use Rattle.refusal.specs.Number.{number_of};

// Why, in the order of the refusal numbers; 22 is none's.
#[derive(Clone, Copy, Debug, PartialEq, Eq)]
pub enum Why {
    Cut = 1,
    TooLarge = 2,
    Overlong = 3,
    Zero = 4,
    TooMany = 5,
    SumOutside = 6,
    DifferenceOutside = 7,
    BadList = 8,
    TooFewSlots = 9,
    OutputTooShort = 10,
    TooManyColumns = 11,
    OutOfOrder = 12,
    Compressed = 13,
    ColumnsTooLong = 14,
    ColumnsTooShort = 15,
    NoSuchColumn = 16,
    NotServed = 17,
    BadRange = 18,
    IdTooLarge = 19,
    NotUtf8 = 20,
    NothingDue = 21,
    BadEntry = 23,
    BadCursor = 24,
    OtherTable = 25,
}

// Why, and the place that 01 names for it.
#[derive(Clone, Copy, Debug, PartialEq, Eq)]
pub struct Refusal(pub Why, pub usize);

impl From<Why> for u8 {
    ghost from_gives = { λ why number. number ≡ number_of why };

    fn from(why: Why) -> u8 {
        why as u8
    }
}
