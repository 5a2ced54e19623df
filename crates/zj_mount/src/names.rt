//! The names of an image's devices.

ghost use Rattle.std.specs.Prelude.{◌≡◌, ◌<◌};
ghost use Rattle.zj_block.specs.declared.sizes.TheConstants.{MAX_CORES};
ghost use Rattle.zj_mount.specs.Set.{journal_name};

/// The name of the home device on a shelf.
pub const HOME: &str = "home";

/// The name of a core's journal on a shelf: `j0` for core 0, up to `j7`.
pub fn journal_name(core: u32) -> &'static str
    requires { core < MAX_CORES }
    ensures { result.now ≡ journal_name core }
{
    match core {
        0 => "j0",
        1 => "j1",
        2 => "j2",
        3 => "j3",
        4 => "j4",
        5 => "j5",
        6 => "j6",
        _ => "j7",
    }
}
