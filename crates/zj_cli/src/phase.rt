//! The phases of a call: mounts and rounds, with the moments of each device.

ghost use Rattle.std.specs.Prelude.{◌≡◌, ◌<◌, ◌≤◌, ◌^◌, ℕ, Some, length, map, slice_get};
ghost use Rattle.zj_block.specs.declared.sizes.TheConstants.{MAX_CORES};
ghost use Rattle.zj_cli.specs.Phases.{AreDisks, AreMoments, IsBetween};

use zj_dev::{Disk, Span};
use zj_home::Home;
use zj_mount::Areas;

/// How many devices an image can have places for: home, and a journal for each of 64 cores.
const DEVICES: usize = 65;

/// What a phase writes.
#[derive(Clone, Copy, Debug, PartialEq, Eq)]
pub enum PhaseKind {
    /// Nothing yet: once journals are replayed, home.
    Mount,
    /// The journals.
    Round,
    /// Home.
    Checkpoint,
}

/// A phase of a call: the moments of each device from its beginning to its end.
#[derive(Clone, Copy, Debug, PartialEq, Eq)]
pub struct Phase {
    /// What it writes.
    pub kind: PhaseKind,
    /// How many devices there are: one more than cores.
    pub devices: u32,
    /// The span of each device, home first, and then the journals in the order of their cores. Behind those it is 0.
    pub spans: [Span; 65],
}

impl Phase {
    /// The phase of so many devices between moments.
    pub(crate) fn new(kind: PhaseKind, devices: u32, from: &[u64; 65], to: &[u64; 65]) -> Phase
        ensures kind { result.kind ≡ kind }
        ensures devices { result.devices ≡ devices }
        ensures spans { IsBetween from.now to.now result }
    {
        let mut spans = [Span { from: 0, to: 0 }; DEVICES];
        for place in 0..DEVICES {
            spans[place] = Span {
                from: from[place],
                to: to[place],
            };
        }
        Phase {
            kind,
            devices,
            spans,
        }
    }
}

/// The moments of home and of the journals: how many calls were made of each. Behind those they are 0.
pub(crate) fn moments<D: Disk>(home: &Home<D>, areas: &mut Areas<D>) -> [u64; 65]
    requires few { length areas.old.areas ≤ MAX_CORES }
    ensures moments { AreMoments D.view home.now.device (map (λ a. a.device) areas.old.areas) result }
    ensures disks { AreDisks D.view areas.old.areas }
    ensures fits { (place moment : ℕ) → slice_get result place ≡ Some moment → moment < 2 ^ 64 }
    ensures same { areas.new ≡ areas.old }
{
    let mut moments = [0; DEVICES];
    moments[0] = home.calls();
    for (core, area) in areas.slice_mut().iter().enumerate() {
        moments[core + 1] = area.calls();
    }
    moments
}
