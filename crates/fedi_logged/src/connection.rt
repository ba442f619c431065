//! Where requests come from and replies go.
ghost use Rattle.std.specs.Prelude.{◌≡◌, IsTrue, None, is_some};
ghost use Rattle.fedi_log.specs.Keeping.{state_of};
ghost use Rattle.fedi_log.specs.Log.{given};
ghost use Rattle.fedi_logged.specs.Sessions.{EndsSession};
ghost use Rattle.fedi_queue.specs.Rows.{rows_of};
ghost use Rattle.fedi_logged.specs.Endings.{IsCaused, faults_by, scene_by};
ghost use Rattle.fedi_logged.specs.Turning.{setting_by};
ghost use Rattle.fedi_town.specs.Histories.{town};
ghost use Rattle.fedi_town.specs.Legal.{IsLegal};

use crate::alone::serve_alone;
use crate::channels::Joined;
use crate::sessions::SessionEnd;
use fedi_core::Core;
use fedi_outside::{Clock, Keeper, Sink, Source};
use fedi_routes::Routes;
use fedi_visible::Shelf;
use std::alloc::Global;

/// A connection: where its requests come from, where its replies go, and the clock that dates them.
#[derive(Drop)]
pub struct Connection<S, O, C> {
    pub input: S,
    pub out: O,
    pub clock: C,
}

/// Serves the connection with a machine that is not shared, and returns the machine with how the
/// session ended.
pub fn serve_connection<S: Source, O: Sink, V: Shelf + Drop, P: Keeper, C: Clock>(
    alloc: Global,
    core: Core<V, P>,
    routes: Routes,
    connection: &mut Connection<S, O, C>,
) -> (SessionEnd, Core<V, P>)
    requires unclaimed { core.rows ≡ rows_of (town core.history) }
    requires hosted { IsTrue (is_some (town core.history).host) }
    requires legal { IsLegal core.history }
    // From the history that the machine has, the log grows by what is kept and by what the keeper
    // fails to keep. If the input is known, what was read and written is one conversation over this
    // log. A crash at any moment leaves the records, followed by the first of those that were kept
    // since, and by at most one that was in doubt at that moment of the log.
    ensures ends { let opened = state_of core.history (P.shown core.keeper) in EndsSession
        (setting_by P.growth P.room (C.told connection.old.clock) None opened)
        (given core.history)
        (scene_by S.left O.sent O.write_faults connection.old.input connection.old.out)
        (scene_by S.left O.sent O.write_faults connection.new.input connection.new.out)
        (P.crashes core.keeper) (state_of result.1.history (P.shown result.1.keeper))
        (P.crashes result.1.keeper) result.0 }
    ensures causes { IsCaused
        (faults_by S.read_faults O.write_faults connection.old.input connection.old.out)
        (faults_by S.read_faults O.write_faults connection.new.input connection.new.out)
        result.0 }
    ensures clock { connection.new.clock ≡ connection.old.clock }
{
    let mut joined = Joined {
        input: &mut connection.input,
        out: &mut connection.out,
    };
    serve_alone(alloc, core, routes, &mut joined, &connection.clock)
}
