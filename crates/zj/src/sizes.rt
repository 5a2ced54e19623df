//! Words of `make` that give no image its sizes, told to a person.

use std::io;
use zj_block::{Sizes, SizesField, VERSION};
use zj_script::read_number;

/// Tells on standard error which of the numbers behind `make` is wrong, and what it may be. Of other words nothing is told.
pub fn tell_sizes(rt: &HostRuntime, words: &[String]) -> io::Result<()> {
    if let Some(text) = wrong_sizes(words) {
        eprintln!(rt; "{text}")?;
    }
    Ok(())
}

/// What is wrong with the words behind `make`, if the words begin with it.
fn wrong_sizes(words: &[String]) -> Option<&'static str> {
    let (command, sizes) = words.split_first()?;
    match (command.as_str(), sizes) {
        ("make", [blocks, nodes, cores, area]) => wrong_number(blocks, nodes, cores, area).and_then(
            may_be,
        ),
        ("make", _) => Some("make stands alone, or with four numbers: BLOCKS NODES CORES AREA"),
        _ => None,
    }
}

/// The first of the four words that is no number that sizes may have, if one is.
fn wrong_number(blocks: &str, nodes: &str, cores: &str, area: &str) -> Option<SizesField> {
    let Some(blocks) = read_number(blocks.as_bytes()) else {
        return Some(SizesField::Blocks);
    };
    let Some(nodes) = read_number(nodes.as_bytes()) else {
        return Some(SizesField::Nodes);
    };
    let Some(cores) = read_number(cores.as_bytes()) else {
        return Some(SizesField::Cores);
    };
    let Some(area) = read_number(area.as_bytes()) else {
        return Some(SizesField::Area);
    };
    Sizes::out_of_range(VERSION, blocks, nodes, cores, u64::from(area))
}

/// What a number may be that is a word of `make`.
fn may_be(field: SizesField) -> Option<&'static str> {
    match field {
        SizesField::Version => None,
        SizesField::Blocks => Some(
            "BLOCKS is a number from 16 to 4096, and leaves a block behind those of the map and of the nodes",
        ),
        SizesField::Nodes => Some("NODES is a number from 8 to 1024, a multiple of 8"),
        SizesField::Cores => Some("CORES is a number from 1 to 8"),
        SizesField::Area => Some(
            "AREA is a number from 50736, and 16 more for each core, to 16777216",
        ),
    }
}
