// The run of a script on each kind of bell, exported to hosts in C: include/station.h declares them.
// One for each kind, since C has no generic functions.
#![tactic(auto)]

ghost use Rattle.std.specs.Prelude.{◌≡◌};
ghost use Rattle.script.specs.Runs.{ran};

use bells::{Board, Queue};

#[unsafe(no_mangle)]
pub extern "C" fn station_run_board(script: &[u8], out: &mut [u8]) -> usize
    ensures { (result, out.new) ≡ ran 4096 script.now out.old }
{
    script::run::<Board>(script, out)
}

#[unsafe(no_mangle)]
pub extern "C" fn station_run_queue(script: &[u8], out: &mut [u8]) -> usize
    ensures { (result, out.new) ≡ ran 1024 script.now out.old }
{
    script::run::<Queue>(script, out)
}
