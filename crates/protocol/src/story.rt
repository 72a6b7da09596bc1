ghost use Rattle.std.specs.Prelude.{◌≡◌};
ghost use Rattle.protocol.specs.declared.call.Call.TheVariants.{Ask};
ghost use Rattle.protocol.specs.Story.{slow_job, unplayed, GoesWellEverywhere};

use crate::call::{Call, Name, Play, Request};
use single::mode::Mode;

/// Gives the calls of a story: a slow job outlives its hold, the lane goes to the next holder, and then the slow one cleans up, too late. In
/// every make the late give is refused, and changes nothing of what the next holder is told.
pub fn slow_job() -> [Play; 13]
    ensures calls { result ≡ slow_job }
    ensures told { GoesWellEverywhere }
{
    let slow = Name { lane: 0, serial: 1 };
    let next = Name { lane: 0, serial: 2 };
    [
        unplayed(Call::Take { lane: 0, ticks: 5 }),
        ask(slow, Request::Load { k: 4, q: 4, x: 8 }),
        ask(slow, Request::Step { count: 2 }),
        unplayed(Call::Tick { time: 4 }),
        ask(slow, Request::Look),
        unplayed(Call::Tick { time: 5 }),
        unplayed(Call::Take { lane: 0, ticks: 10 }),
        ask(next, Request::Load { k: 4, q: 4, x: 5 }),
        ask(next, Request::Step { count: 1 }),
        ask(slow, Request::Give),
        ask(next, Request::Look),
        ask(next, Request::Step { count: 9 }),
        ask(
            next,
            Request::Collect {
                mode: Mode::Nearest,
            },
        ),
    ]
}

/// Gives a call that is not played yet.
fn unplayed(call: Call) -> Play
    ensures { result ≡ unplayed call }
{
    Play { call, reply: None }
}

/// Gives a call with a hold, not played yet.
fn ask(name: Name, request: Request) -> Play
    ensures { result ≡ unplayed (Ask name request) }
{
    unplayed(Call::Ask { name, request })
}
