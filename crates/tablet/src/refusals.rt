// The refusals of documents 01 and 02 in words. Each text stands here once.
use refusal::Why;
use std::fmt;

// A refusal of the library. `of_name`: the bytes end inside a name and not inside a number.
#[derive(Clone, Copy)]
pub struct Refusal {
    pub why: Why,
    pub place: usize,
    of_name: bool,
}

impl From<refusal::Refusal> for Refusal {
    fn from(refusal: refusal::Refusal) -> Refusal {
        Refusal::new(refusal.0, refusal.1)
    }
}

// A refusal of a table. What is amiss in its bytes is said to be the table's.
#[derive(Clone, Copy)]
pub struct OfTable(pub Refusal);

impl Refusal {
    pub fn new(why: Why, place: usize) -> Refusal {
        Refusal {
            why,
            place,
            of_name: false,
        }
    }

    // The same at another place.
    pub fn at(self, place: usize) -> Refusal {
        Refusal { place, ..self }
    }

    // A refusal of a column of names: of one whose length number reads, the bytes themselves are short.
    pub fn in_names(self, part: &[u8]) -> Refusal {
        self.in_name(leb128::leb128_u64(part, self.place).is_ok())
    }

    // The same where it is known whether a name is at fault.
    pub fn in_name(self, name: bool) -> Refusal {
        Refusal {
            of_name: name && self.why == Why::Cut,
            ..self
        }
    }

    // Is it a refusal of what stands in some bytes?
    fn is_of_bytes(self) -> bool {
        matches!(
            self.why,
            Why::Cut
                | Why::TooLarge
                | Why::Overlong
                | Why::Zero
                | Why::TooMany
                | Why::SumOutside
                | Why::NotUtf8
                | Why::NothingDue
                | Why::BadEntry
        )
    }

    fn words(self) -> &'static str {
        match self.why {
            Why::Cut if self.of_name => "the bytes end inside the name whose length stands",
            Why::Cut => "the bytes end inside the number",
            Why::TooLarge => "a number is too large for its type",
            Why::Overlong => "a number is longer than it need be",
            Why::Zero => "a zero stands where none may be",
            Why::TooMany => "the list passes 4,294,967,295 readings",
            Why::SumOutside => "the sum of the differences leaves 64 bits",
            Why::DifferenceOutside => "the step from the reading before is too large to be written",
            Why::BadList => "the lists do not fit together",
            Why::TooFewSlots =>
                "the column has more than the 32,768 readings that this tool has room for",
            Why::OutputTooShort =>
                "the new block is larger than the 524,288 bytes that this tool takes",
            Why::TooManyColumns => "there are more than 64 columns",
            Why::OutOfOrder => "the columns are not in order: by id, then by type",
            Why::Compressed => "a column is compressed",
            Why::ColumnsTooLong => "the columns are longer than the data",
            Why::ColumnsTooShort => "the columns are shorter than the data",
            Why::NoSuchColumn => "there is no column at this position",
            Why::NotServed => "columns of this type are not read here",
            Why::BadRange => "the range ends before it starts, or reaches past the list",
            Why::IdTooLarge => "an id is at most 268,435,455",
            Why::NotUtf8 => "bytes that are not UTF-8 are in the name whose length stands",
            Why::NothingDue => "the bytes end between numbers, with the next due",
            Why::BadEntry => "an entry is cut, of no kind, or at no place of the list,",
            Why::BadCursor | Why::OtherTable => "",
        }
    }
}

// In words, with its place and its number. Places inside bytes are bytes, and those inside a list are indices; the other refusals have none.
impl fmt::Display for Refusal {
    fn fmt<W: fmt::Write>(&self, f: &mut fmt::Formatter<W>) -> fmt::Result {
        f.write_str(self.words())?;
        let number = u8::from(self.why);
        let place = self.place;
        if self.is_of_bytes() {
            return write!(f, " at byte {place} (refusal {number})");
        }
        if self.why == Why::DifferenceOutside {
            return write!(f, ", at reading {place} (refusal {number})");
        }
        write!(f, " (refusal {number})")
    }
}

impl fmt::Display for OfTable {
    fn fmt<W: fmt::Write>(&self, f: &mut fmt::Formatter<W>) -> fmt::Result {
        if self.0.is_of_bytes() {
            f.write_str("in the table ")?;
        }
        write!(f, "{}", self.0)
    }
}
