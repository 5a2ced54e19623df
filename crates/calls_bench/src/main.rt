//! Makes the calls of a script on the blocks of a new image and on the plain service's tree, and compares the replies. The script
//! is read from standard input; the words are how many blocks and nodes the image has. The time that each side took is told on
//! standard error.
#![tactic(auto)]

use anyhow::Context;
use std::alloc::Global;
use std::env;
use std::io::Read;
use std::time::Instant;
use zj_block::{Sizes, VERSION};
use zj_layout::format;
use zj_script::{Act, Line, read_script};
use zj_tree::{Call, Reply, Tree};
use zj_volume::Volume;

/// The cores of the image, which scripts may name.
const CORES: u32 = 4;

/// The bytes of each journal, which stays empty.
const AREA: u64 = 1_048_576;

/// The call of a line.
fn call_of(line: &Line) -> Option<&Call> {
    match &line.act {
        Act::Call(call) => Some(call),
        _ => None,
    }
}

/// The replies of the plain service's tree.
fn on_tree(alloc: Global, sizes: &Sizes, lines: &[Line]) -> anyhow::Result<Vec<Reply>> {
    let mut tree = Tree::new(alloc, sizes.nodes(), sizes.room(), sizes.version())?;
    let mut replies = Vec::new(alloc);
    for call in lines.iter().filter_map(call_of) {
        replies.push(tree.apply(call)?)?;
    }
    Ok(replies)
}

/// The replies of the blocks of a new image.
fn on_blocks(alloc: Global, sizes: &Sizes, lines: &[Line]) -> anyhow::Result<Vec<Reply>> {
    let mut volume = Volume::new(*sizes, format(alloc, sizes)?);
    let mut replies = Vec::new(alloc);
    for call in lines.iter().filter_map(call_of) {
        replies.push(volume.apply(alloc, call)?)?;
    }
    Ok(replies)
}

/// All that standard input has.
fn read_input(rt: &HostRuntime) -> anyhow::Result<Vec<u8>> {
    let mut text = Vec::new(rt.alloc());
    rt.reader().read_to_end(&mut text)?;
    Ok(text)
}

fn main(rt: HostRuntime) -> anyhow::Result<()> {
    let alloc = rt.alloc();
    let words: Vec<String> = env::args(&rt)?.skip(1).collect(alloc)?;
    let [blocks, nodes] = words.as_slice() else {
        anyhow::bail!("the words are how many blocks and nodes the image has");
    };
    let sizes = Sizes::new(VERSION, blocks.parse()?, nodes.parse()?, CORES, AREA).context(
        "no image has such sizes",
    )?;
    let script = read_script(alloc, CORES, &read_input(&rt)?)?;
    let begin = Instant::now(&rt)?;
    let plain = on_tree(alloc, &sizes, script.as_slice())?;
    let on_tree = begin.elapsed(&rt)?;
    let begin = Instant::now(&rt)?;
    let replies = on_blocks(alloc, &sizes, script.as_slice())?;
    let on_blocks = begin.elapsed(&rt)?;
    println!(rt;
        "{} calls, {}",
        script.len(),
        if plain == replies {
            "the same replies"
        } else {
            "other replies"
        }
    )?;
    eprintln!(rt;
        "tree {} us, blocks {} us",
        on_tree.as_micros(),
        on_blocks.as_micros()
    )?;
    Ok(())
}
