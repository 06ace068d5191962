//! `demo SEED NIGHTS ROOMS STAYS`: a hotel made of four numbers, and each of its stays booked once.
ghost use Rattle.bp_inputs.specs.Fetches.{over};
ghost use Rattle.bp_run.specs.Command.{Brings};
ghost use Rattle.bp_run.specs.Demo.{AreDemoNumbers, demo_command};

use bp_demo::DemoText;
use bp_edges::Shelf;
use bp_inputs::Stop;
use std::alloc::Global;

/// Makes the demo. The shelf has no file of it.
pub fn answer<S: Shelf>(
    alloc: Global,
    _shelf: &mut S,
    seed: u64,
    nights: u32,
    rooms: u64,
    stays: u32,
) -> Result<DemoText, Stop>
    requires { AreDemoNumbers seed nights rooms stays }
    ensures { Brings (over S.held S.faults S.fetches S.last S.steady _shelf.old _shelf.new)
        (demo_command seed nights rooms stays) result }
{
    Ok(bp_demo::demo(alloc, seed, nights, rooms, stays)?)
}
