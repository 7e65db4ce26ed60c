// The quantizer tables of VP9. A compiled constant is stored anew wherever it is named, so a table is made once by its
// depth and lent to each look-up.
#![tactic(auto)]

ghost use Rattle.std.specs.Prelude.{◌≡◌};
ghost use Rattle.segment_tables.specs.Tables.{dc_table, ac_table, entry};

mod lookups;

use base_enums::BitDepth;

pub type Table = [i16; 256];

pub fn dc_table(depth: BitDepth) -> Table
    ensures { result ≡ dc_table depth }
{
    match depth {
        BitDepth::Depth8 => lookups::DC_QLOOKUP,
        BitDepth::Depth10 => lookups::DC_QLOOKUP_10,
        BitDepth::Depth12 => lookups::DC_QLOOKUP_12,
    }
}

pub fn ac_table(depth: BitDepth) -> Table
    ensures { result ≡ ac_table depth }
{
    match depth {
        BitDepth::Depth8 => lookups::AC_QLOOKUP,
        BitDepth::Depth10 => lookups::AC_QLOOKUP_10,
        BitDepth::Depth12 => lookups::AC_QLOOKUP_12,
    }
}

// Every byte is an index.
pub fn at(table: &Table, i: u8) -> i16
    ensures { result ≡ entry table.now i }
{
    table[i as usize]
}
