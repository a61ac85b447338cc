// Column specifications: one u32 holds a column's id, whether the column is compressed, and the column's type.
#![tactic(auto)]

ghost use Rattle.std.specs.Prelude.{◌≡◌};
ghost use Rattle.column_specification.specs.Cases.{packing_of};
ghost use Rattle.column_specification.specs.TypeNumber.{type_number};
ghost use Rattle.column_specification.specs.Specification.{pack, id_of, type_of, compressed_of};
ghost use Rattle.column_specification.specs.Key.{key};

use refusal::{Refusal, Why};

// The types, each with its number.
#[derive(Clone, Copy, Debug, PartialEq, Eq)]
pub enum ColumnType {
    Group = 0,
    Actor = 1,
    Integer = 2,
    DeltaInteger = 3,
    Boolean = 4,
    String = 5,
    ValueMetadata = 6,
    Value = 7,
}

#[derive(Clone, Copy, Debug, PartialEq, Eq)]
pub struct ColumnSpec(pub u32);

impl ColumnType {
    // The type that the low three bits of a byte name. It is no `From`: bytes that differ in the other bits name one type.
    pub fn from_u8(val: u8) -> ColumnType
        ensures { type_number result ≡ type_of val }
    {
        match val % 8 {
            0 => ColumnType::Group,
            1 => ColumnType::Actor,
            2 => ColumnType::Integer,
            3 => ColumnType::DeltaInteger,
            4 => ColumnType::Boolean,
            5 => ColumnType::String,
            6 => ColumnType::ValueMetadata,
            _ => ColumnType::Value,
        }
    }

    pub fn as_u8(self) -> u8
        ensures { result ≡ type_number self }
    {
        self as u8
    }
}

impl ColumnSpec {
    // Every id below 2^28 is kept whole; the Rust loses ids from 16 up where the compressed bit is not set.
    pub fn new(id: u32, col_type: ColumnType, deflate: bool) -> Result<ColumnSpec, Refusal>
        ensures { packing_of result ≡ pack id (type_number col_type) deflate }
    {
        if 268435456 <= id {
            return Err(Refusal(Why::IdTooLarge, 0));
        }
        let raw = id * 16 + u32::from(deflate) * 8 + u32::from(col_type.as_u8());
        Ok(ColumnSpec(raw))
    }

    pub fn col_type(self) -> ColumnType
        ensures { type_number result ≡ type_of self.0 }
    {
        ColumnType::from_u8((self.0 % 256) as u8)
    }

    pub fn id(self) -> u32
        ensures { result ≡ id_of self.0 }
    {
        self.0 / 16
    }

    pub fn deflate(self) -> bool
        ensures { result ≡ compressed_of self.0 }
    {
        self.0 / 8 % 2 == 1
    }

    // The sorting key. The Rust's mask keeps the low byte alone, so that ids from 16 up meet those below.
    pub fn normalize(self) -> u32
        ensures { result ≡ key self.0 }
    {
        self.0 % 8 + self.0 / 16 * 16
    }
}
