// What a column holds, by its type.
use column_specification::{ColumnSpec, ColumnType};

#[derive(Clone, Copy, PartialEq, Eq)]
pub enum Kind {
    // optional i64
    Signed,
    // optional u64
    Unsigned,
    YesNo,
    // optional names
    Text,
    // a type that no column reader serves
    Unserved,
}

impl From<ColumnType> for Kind {
    fn from(t: ColumnType) -> Kind {
        match t {
            ColumnType::DeltaInteger => Kind::Signed,
            ColumnType::Actor | ColumnType::Integer => Kind::Unsigned,
            ColumnType::Boolean => Kind::YesNo,
            ColumnType::String => Kind::Text,
            ColumnType::Group | ColumnType::ValueMetadata | ColumnType::Value => Kind::Unserved,
        }
    }
}

// The number of a type.
pub fn number(spec: u32) -> u8 {
    ColumnSpec(spec).col_type().as_u8()
}

pub fn of_spec(spec: u32) -> Kind {
    Kind::from(ColumnSpec(spec).col_type())
}

// The type in words.
pub fn name(spec: u32) -> &'static str {
    match ColumnSpec(spec).col_type() {
        ColumnType::Group => "group",
        ColumnType::Actor => "actor",
        ColumnType::Integer => "integer",
        ColumnType::DeltaInteger => "delta integer",
        ColumnType::Boolean => "boolean",
        ColumnType::String => "text",
        ColumnType::ValueMetadata => "value metadata",
        ColumnType::Value => "value",
    }
}

pub fn id(spec: u32) -> u32 {
    ColumnSpec(spec).id()
}
