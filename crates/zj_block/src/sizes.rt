//! The sizes of an image: how many blocks, nodes and cores it has, and how long its journals are.

ghost use Rattle.std.specs.Prelude.{◌≡◌, ◌*◌, ◌↔◌, None, IsSome, IfSome};
ghost use Rattle.zj_block.specs.Sizes.{IsInLimits, first_data, is_within, map_blocks, max_record, node_blocks, numbers_of, out_of_range, room};

use std::marker::Model;

/// The one version of the format.
pub const VERSION: u32 = 1;

/// The bytes of a block.
pub const BLOCK_LEN: usize = 512;

/// The blocks that one block of the map tells of.
pub const BLOCKS_PER_MAP_BLOCK: u32 = 512;

/// The fewest blocks of an image.
pub const MIN_BLOCKS: u32 = 16;

/// The most blocks of an image.
pub const MAX_BLOCKS: u32 = 4096;

/// The nodes that one block holds. The number of nodes is a multiple of it.
pub const NODES_PER_BLOCK: u32 = 8;

/// The fewest nodes of an image.
pub const MIN_NODES: u32 = 8;

/// The most nodes of an image.
pub const MAX_NODES: u32 = 1024;

/// The fewest cores.
pub const MIN_CORES: u32 = 1;

/// The most cores.
pub const MAX_CORES: u32 = 8;

/// The most blocks of one record.
pub const MAX_RECORD_BLOCKS: u32 = 48;

/// The bytes of a record before its bounds.
pub const RECORD_HEAD_LEN: u64 = 24;

/// The bytes of a bound in a record, which has one for each core.
pub const RECORD_BOUND_LEN: u64 = 8;

/// The bytes of a block in a record, with those that tell which block it is.
pub const RECORD_BLOCK_LEN: u64 = 528;

/// The most bytes of a journal's area. The fewest are two longest records.
pub const MAX_AREA: u64 = 16_777_216;

/// One of the numbers that sizes are made of.
#[derive(Clone, Copy, Debug, PartialEq, Eq)]
pub enum SizesField {
    Version,
    Cores,
    Blocks,
    Nodes,
    Area,
}

/// The bytes of a longest record, with a bound for each core.
fn max_record(cores: u32) -> u64
    ensures { result ≡ max_record (numbers_of 0 0 0 cores 0) }
{
    RECORD_HEAD_LEN
        + RECORD_BOUND_LEN * u64::from(cores)
        + RECORD_BLOCK_LEN * u64::from(MAX_RECORD_BLOCKS)
}

/// Whether an area has room for two longest records, and is not too long.
fn has_area(cores: u32, area: u64) -> bool
    ensures { result ≡ is_within (2 * max_record (numbers_of 0 0 0 cores 0)) MAX_AREA area }
{
    let least = 2 * max_record(cores);
    (least..=MAX_AREA).contains(&area)
}

/// How many blocks the map has.
fn map_blocks(blocks: u32) -> u32
    ensures { result ≡ map_blocks (numbers_of 0 blocks 0 0 0) }
{
    blocks.div_ceil(BLOCKS_PER_MAP_BLOCK)
}

/// The first block behind the map and the nodes.
fn first_data(blocks: u32, nodes: u32) -> u32
    ensures { result ≡ first_data (numbers_of 0 blocks nodes 0 0) }
{
    map_blocks(blocks) + nodes / NODES_PER_BLOCK
}

/// The sizes of an image, within their limits.
#[derive(Clone, Copy, Debug, PartialEq, Eq)]
pub struct Sizes {
    version: u32,
    blocks: u32,
    nodes: u32,
    cores: u32,
    area: u64,
}

impl Model for Sizes {
    ghost use Rattle.zj_block.specs.Sizes.{IsInLimits, Numbers, numbers_of};

    ghost Value = { Numbers };

    ghost view = { λ s. numbers_of s.version s.blocks s.nodes s.cores s.area };

    ghost invariant = { λ s. IsInLimits (numbers_of s.version s.blocks s.nodes s.cores s.area) };

    ghost inverse = { λ n. record { version = n.version; blocks = n.blocks; nodes = n.nodes; cores = n.cores; area = n.area } };
}

impl Sizes {
    /// The first of the numbers that is outside its limits, from the version to the cores, the blocks, the
    /// nodes and the area (in bytes). The version has to be `VERSION`, and each other number between its
    /// least and its greatest value. Blocks too few for the map, the nodes and one block of data are told as
    /// `Blocks`, nodes that are no multiple of `NODES_PER_BLOCK` as `Nodes`, and an area with no room for two
    /// longest records as `Area`.
    pub fn out_of_range(
        version: u32,
        blocks: u32,
        nodes: u32,
        cores: u32,
        area: u64,
    ) -> Option<SizesField>
        ensures { result ≡ out_of_range (numbers_of version blocks nodes cores area) }
    {
        if version != VERSION {
            return Some(SizesField::Version);
        }
        if !(MIN_CORES..=MAX_CORES).contains(&cores) {
            return Some(SizesField::Cores);
        }
        if !(MIN_BLOCKS..=MAX_BLOCKS).contains(&blocks) || first_data(blocks, nodes) >= blocks {
            return Some(SizesField::Blocks);
        }
        if !(MIN_NODES..=MAX_NODES).contains(&nodes) || nodes % NODES_PER_BLOCK != 0 {
            return Some(SizesField::Nodes);
        }
        if !has_area(cores, area) {
            return Some(SizesField::Area);
        }
        None
    }

    /// The sizes with these numbers: `None` exactly where one is outside its limits, which `out_of_range`
    /// tells.
    pub fn new(version: u32, blocks: u32, nodes: u32, cores: u32, area: u64) -> Option<Sizes>
        ensures limits { IsSome result ↔ IsInLimits (numbers_of version blocks nodes cores area) }
        ensures numbers { IfSome result (λ s. s ≡ numbers_of version blocks nodes cores area) }
        ensures in_range { IsSome result ↔ (out_of_range (numbers_of version blocks nodes cores area) ≡ None) }
    {
        if Sizes::out_of_range(version, blocks, nodes, cores, area).is_some() {
            return None;
        }
        Some(Sizes {
            version,
            blocks,
            nodes,
            cores,
            area,
        })
    }

    /// The version of the format.
    pub fn version(&self) -> u32
        ensures value { result ≡ self.now.version }
        ensures limits { IsInLimits self.now }
    {
        self.version
    }

    /// How many blocks the image has.
    pub fn blocks(&self) -> u32
        ensures value { result ≡ self.now.blocks }
        ensures limits { IsInLimits self.now }
    {
        self.blocks
    }

    /// How many nodes the image has.
    pub fn nodes(&self) -> u32
        ensures value { result ≡ self.now.nodes }
        ensures limits { IsInLimits self.now }
    {
        self.nodes
    }

    /// How many cores there are, each with a journal.
    pub fn cores(&self) -> u32
        ensures value { result ≡ self.now.cores }
        ensures limits { IsInLimits self.now }
    {
        self.cores
    }

    /// The bytes of a journal's area.
    pub fn area(&self) -> u64
        ensures value { result ≡ self.now.area }
        ensures limits { IsInLimits self.now }
    {
        self.area
    }

    /// The bytes of a longest record: its head, a bound for each core, and `MAX_RECORD_BLOCKS` blocks.
    pub fn max_record(&self) -> u64
        ensures value { result ≡ max_record self.now }
        ensures limits { IsInLimits self.now }
    {
        max_record(self.cores)
    }

    /// How many blocks the map has.
    pub fn map_blocks(&self) -> u32
        ensures value { result ≡ map_blocks self.now }
        ensures limits { IsInLimits self.now }
    {
        map_blocks(self.blocks)
    }

    /// How many blocks the nodes have.
    pub fn node_blocks(&self) -> u32
        ensures value { result ≡ node_blocks self.now }
        ensures limits { IsInLimits self.now }
    {
        self.nodes / NODES_PER_BLOCK
    }

    /// The first block for data, which stands behind the map and the nodes.
    pub fn first_data(&self) -> u32
        ensures value { result ≡ first_data self.now }
        ensures limits { IsInLimits self.now }
    {
        first_data(self.blocks, self.nodes)
    }

    /// How many blocks there are for data: at least one.
    pub fn room(&self) -> u32
        ensures value { result ≡ room self.now }
        ensures limits { IsInLimits self.now }
    {
        self.blocks - self.first_data()
    }
}
