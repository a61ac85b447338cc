// Specifications. A specification is its number, and a column type its number, of which the low three bits count.
ghost use Rattle.std.specs.Prelude.{◌≡◌};
ghost use Rattle.column_specification.specs.Key.{key};
ghost use Rattle.column_specification.specs.Specification.{pack, id_of, type_of, compressed_of};
ghost use Rattle.capi.specs.Cases.{specification};

use crate::Specification;
use column_specification::{ColumnSpec, ColumnType};

#[unsafe(no_mangle)]
pub extern "C" fn grundavok_spec_new(id: u32, col_type: u8, deflate: bool) -> Specification
    ensures { result ≡ specification (pack id (type_of col_type) deflate) }
{
    Specification::from(ColumnSpec::new(id, ColumnType::from_u8(col_type), deflate))
}

#[unsafe(no_mangle)]
pub extern "C" fn grundavok_spec_id(spec: u32) -> u32
    ensures { result ≡ id_of spec }
{
    ColumnSpec::id(ColumnSpec(spec))
}

#[unsafe(no_mangle)]
pub extern "C" fn grundavok_spec_col_type(spec: u32) -> u8
    ensures { result ≡ type_of spec }
{
    ColumnType::as_u8(ColumnSpec::col_type(ColumnSpec(spec)))
}

#[unsafe(no_mangle)]
pub extern "C" fn grundavok_spec_deflate(spec: u32) -> bool
    ensures { result ≡ compressed_of spec }
{
    ColumnSpec::deflate(ColumnSpec(spec))
}

#[unsafe(no_mangle)]
pub extern "C" fn grundavok_spec_normalize(spec: u32) -> u32
    ensures { result ≡ key spec }
{
    ColumnSpec::normalize(ColumnSpec(spec))
}
