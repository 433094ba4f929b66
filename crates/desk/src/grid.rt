// The grid of a card: for each rollover, folder and kind a row, in it a character for each hundred frames.
use super::script::Kind;
use super::show;
use super::show::Count;
use std::alloc::Global;
use std::io;

// The row of a kind, for keys of one folder: a character for each hundred, up to the last that has a frame.
fn row(rt: &impl Print, alloc: Global, keys: &[u64], kind: Kind) -> io::Result<()> {
    let mut hundreds = [0usize; 100];
    for f in keys.iter().filter_map(|key| show::fields_of(*key)) {
        if f.kind.0 == kind.code() {
            if let Some(many) = hundreds.get_mut((f.frame.0 / 100) as usize) {
                *many = many.saturating_add(1);
            }
        }
    }
    let many = hundreds
        .iter()
        .fold(0usize, |sum, n| sum.saturating_add(*n));
    let Some(f) = keys.first().and_then(|key| show::fields_of(*key)) else {
        return Ok(());
    };
    if many == 0 {
        return Ok(());
    }
    let row: String = hundreds
        .iter()
        .map(|n| match n {
            0 => '.',
            100 => '#',
            _ => '+',
        })
        .collect(alloc)?;
    let row = row.trim_end_matches('.');
    println!(rt;
        "  rollover {}, folder {}, {kind:<9}{row}  {many}",
        f.rollover.0, f.folder.0
    )
}

// What a card opens with: its keys, ascending. Above frame (14 bits) and kind (1 bit) stands the folder, and a raw and its sidecar differ in the last bit only.
pub fn opens(rt: &impl Print, alloc: Global, card: u64, keys: &[u64]) -> io::Result<()> {
    let frames = keys.chunk_by(|a, b| a >> 1 == b >> 1).count();
    println!(rt; "card {card} opens with {}", Count(frames, "frame"))?;
    for folder in keys.chunk_by(|a, b| a >> 15 == b >> 15) {
        row(rt, alloc, folder, Kind::Raw)?;
        row(rt, alloc, folder, Kind::Sidecar)?;
    }
    Ok(())
}
