//! Walking along paths, over blocks that were taken.

ghost use Rattle.std.specs.Prelude.{IfOk, IfErr};
ghost use Rattle.std.specs.FinMap as map;
ghost use Rattle.zj_layout.specs.Graph.{IsLive};
ghost use Rattle.zj_layout.specs.Image.{graph_of};
ghost use Rattle.zj_dirs.specs.Possible.{Always, Stops, StopsWithin};
ghost use Rattle.zj_dirs.specs.Walking.{IsStepBlock, StepSays, WalkSays, WalksWithin};

use crate::answers::{Step, Stop, Walk};
use crate::looking::{find_entry, read_node};
use zj_block::{Sizes, Taken};
use zj_layout::Kind;
use zj_tree::{Name, Path};

/// Where a path leads, by the blocks that were taken.
pub fn walk(sizes: &Sizes, path: &Path, taken: &Taken) -> Walk
    ensures says { WalkSays sizes.now taken.now path.now result }
    ensures within { WalksWithin sizes.now result }
{
    walk_names(sizes, path.as_slice(), taken)
}

/// Where names lead from the root, one by one: the names of a path, or its first ones.
pub fn walk_names(sizes: &Sizes, names: &[Name], taken: &Taken) -> Walk
    ensures says { WalkSays sizes.now taken.now names.now result }
    ensures within { WalksWithin sizes.now result }
{
    let mut node = 0;
    for name in names {
        match step(sizes, node, name, taken) {
            Ok(Step::To(next)) => node = next,
            Ok(Step::NotFound) => return Walk::NotFound,
            Ok(Step::NotDir) => return Walk::NotDir,
            Err(Stop::Need(block)) => return Walk::Need(block),
            Err(Stop::Odd) => return Walk::Odd,
        }
    }
    Walk::Found { node }
}

// Where a name leads from a node.
fn step(sizes: &Sizes, number: u32, name: &Name, taken: &Taken) -> Result<Step, Stop>
    requires { Always sizes.now taken.now (λ image. IsLive (graph_of image number)) }
    ensures ok { IfOk result (λ step. Always sizes.now taken.now (λ image. StepSays image number name.now step)) }
    ensures stop { IfErr result (Stops sizes.now taken.now map.empty (λ image block. IsStepBlock sizes.now image number name.now block)) }
    ensures within { IfErr result (StopsWithin sizes.now) }
{
    let node = read_node(sizes, number, taken, None)?;
    match node.kind {
        Kind::Free => Err(Stop::Odd),
        Kind::File => Ok(Step::NotDir),
        Kind::Dir => match find_entry(sizes, number, &node, name, taken, None)? {
            None => Ok(Step::NotFound),
            Some(entry) => Ok(Step::To(entry.node)),
        },
    }
}
