// Prints the six quantizer tables as the look-up gives them: a line for each, with its name and its 256 scales.
#![tactic(auto)]

use base_enums::BitDepth;
use segment_tables::Table;
use std::io;

fn print_table(rt: &impl Print, name: &str, table: Table) -> io::Result<()> {
    print!(rt; "{name}")?;
    for i in 0..=255u8 {
        // A negative scale, which no table has, would print as 0.
        let scale = segment_tables::at(&table, i).max(0);
        print!(rt; " {scale}")?;
    }
    println!(rt)
}

fn main(rt: HostRuntime) -> io::Result<()> {
    print_table(
        &rt,
        "DC_QLOOKUP",
        segment_tables::dc_table(BitDepth::Depth8),
    )?;
    print_table(
        &rt,
        "DC_QLOOKUP_10",
        segment_tables::dc_table(BitDepth::Depth10),
    )?;
    print_table(
        &rt,
        "DC_QLOOKUP_12",
        segment_tables::dc_table(BitDepth::Depth12),
    )?;
    print_table(
        &rt,
        "AC_QLOOKUP",
        segment_tables::ac_table(BitDepth::Depth8),
    )?;
    print_table(
        &rt,
        "AC_QLOOKUP_10",
        segment_tables::ac_table(BitDepth::Depth10),
    )?;
    print_table(
        &rt,
        "AC_QLOOKUP_12",
        segment_tables::ac_table(BitDepth::Depth12),
    )
}
