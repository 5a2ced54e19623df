//! A service over a new image that starts and ends, and the places of its journals.

use anyhow::{Context, bail};
use std::alloc::Global;
use zj_block::Sizes;
use zj_dev::{Disk, MemDisk, MemShelf, Torn};
use zj_home::{Home, home_len};
use zj_layout::format;
use zj_mount::{Areas, Set, close_all, mount, open_all};
use zj_session::Service;

/// How long a journal is.
const AREA: usize = 50_768;

/// The bytes of a new home of an image of 64 blocks, 8 nodes and two cores.
fn home_bytes(alloc: Global) -> anyhow::Result<Vec<u8>> {
    let sizes = Sizes::new(1, 64, 8, 2, AREA as u64).context("sizes")?;
    let blocks = format(alloc, &sizes)?;
    let bytes = vec![in alloc; 0u8; 40_960]?;
    let disk = MemDisk::new(alloc, &bytes, &[], None)?;
    if Disk::len(&disk) != home_len(&sizes) || blocks.len() != 64 || sizes.blocks() != 64 {
        bail!("a home of other sizes");
    }
    match Home::make(alloc, disk, &sizes, &blocks) {
        Ok(home) => Ok(home.into_device().image(alloc, Torn::Lost)?),
        Err(_) => bail!("a new home"),
    }
}

/// A shelf with a new image.
fn new_shelf(alloc: Global) -> anyhow::Result<MemShelf> {
    let home = home_bytes(alloc)?;
    let zeros = vec![in alloc; 0u8; AREA]?;
    let mut shelf = MemShelf::new(alloc)?;
    for (name, bytes) in [("home", &home), ("j0", &zeros), ("j1", &zeros)] {
        let _none = shelf.put(name, MemDisk::new(alloc, bytes, &[], None)?)?;
    }
    Ok(shelf)
}

/// Takes the last journal out of its place and puts it back. Tells its core, and whether there was one place more meanwhile.
fn take_last(areas: &mut Areas<MemDisk>) -> Option<(u32, bool)> {
    let (count, spare) = (areas.len(), areas.spare());
    let last = areas.pop()?;
    let core = last.core();
    let grew = areas.len() < count && areas.spare() > spare;
    areas.push(last);
    Some((core, grew && areas.len() == count && areas.spare() == spare))
}

/// Starts a service over a new image and ends it, and tells what it and its journals tell.
pub fn starts_and_ends(rt: &HostRuntime) -> anyhow::Result<()> {
    let alloc = rt.alloc();
    let mut shelf = new_shelf(alloc)?;
    let Ok(
        Set {
            mut home,
            mut areas,
        },
    ) = open_all(alloc, &mut shelf)
    else {
        bail!("an image");
    };
    let Ok(recovered) = mount(alloc, &mut home, &mut areas) else {
        bail!("a new image");
    };
    let _tail = home.tail(0);
    let Ok(service) = Service::start(alloc, &recovered, areas) else {
        bail!("no memory");
    };
    let left = service.left();
    let mut areas = service.end();
    let last = take_last(&mut areas);
    let (count, blocks) = (areas.len(), recovered.into_blocks().len());
    println!(rt;
        "a service over {blocks} blocks and {count} journals has {left} tickets left, the last journal is {last:?}"
    )?;
    if count <= 2 && close_all(&mut shelf, Set { home, areas }).is_ok() {
        println!(rt; "all is closed")?;
    }
    Ok(())
}
