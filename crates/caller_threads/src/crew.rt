//! A crew, of which each member works on a thread of its own.
ghost use Rattle.std.specs.Thread.{IsSync};

use std::sync::Wait;
use std::thread;
use std::thread::Threads;

/// Members that work, each named by its place from 0, and all told of one gate.
pub trait Crew<G> {
    ghost use Rattle.std.specs.Thread.{IsSync};

    /// The work of the member at a place, on a thread of its own.
    fn work<R: Wait + Sync>(&self, rt: &R, gate: &G, place: usize)
        requires { IsSync R.row };

    /// No thread could be started for the member at a place. This is called before the work of this thread begins.
    fn stay<R: Wait>(&self, rt: &R, place: usize);
}

/// Starts a thread for each of so many members of a crew, does the work of this thread, and returns once all threads have
/// ended.
pub fn work_beside<G: Sync, C: Crew<G> + Sync, R: Threads + Wait + Sync, H: FnOnce() -> T, T>(
    rt: &R,
    crew: &C,
    gate: &G,
    members: usize,
    here: H,
) -> T
    requires { H.pre here }
    ensures { H.post here result }
{
    thread::scope(
        thread::scope_env(),
        rt,
        move |scope| -> T
            requires { IsSync R.row × IsSync C.row × IsSync G.row × H.pre here }
            ensures { H.post here result }
        {
            for place in 0..members {
                let started = scope.spawn(
                    move ||
                        requires { IsSync R.row }
                    { crew.work(rt, gate, place) },
                );
                if started.is_err() {
                    crew.stay(rt, place);
                }
            }
            here()
        },
    )
}
