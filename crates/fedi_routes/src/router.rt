//! The router of the server.

ghost use Rattle.std.specs.Prelude.{◌≡◌, ◌∷◌, [], ℕ, List, None, OnOk, MatchOption};
ghost use Rattle.matchit.specs.Params.{AllText, named, walk};
ghost use Rattle.matchit.specs.Router.{nearest};
ghost use Rattle.fedi_routes.specs.Table as table;
ghost use Rattle.fedi_routes.specs.Table.{IsRouted};
ghost use Rattle.fedi_town.specs.Collections.{text_of};
ghost use Rattle.fedi_routes.specs.declared.kinds.Kind.{Kind};

use crate::kinds::Kind;
use matchit::{InsertError, Params, Router};
use std::alloc::{AllocError, Global};

/// The routes of the server. They are built once, and lent to whatever routes a request.
#[derive(Drop)]
pub struct Routes {
    router: Router<Kind>,
    ghost whole: { router ≡ table.rows },
}

/// The route of a path, with the texts of its parameters. A text is empty if the route has no such
/// parameter.
#[derive(Clone, Copy, Drop)]
pub(crate) struct Routed<'p> {
    pub(crate) kind: Kind,
    pub(crate) name: &'p str,
    pub(crate) item: &'p str,
}

impl Routes {
    /// The routes. The error is out of memory.
    pub fn new(alloc: Global) -> Result<Routes, AllocError> {
        let mut router = Router::new(alloc);
        for kind in Kind::ALL.iter() {
            add(&mut router, *kind)?;
        }
        Ok(Routes { router })
    }

    /// The route of the path.
    pub(crate) fn find<'p>(&self, path: &'p str) -> Option<Routed<'p>>
        ensures { MatchOption result
            ((kind : Kind) (name item : List ℕ) → ¬ (IsRouted kind name item path.now))
            (λ routed. IsRouted routed.kind routed.name.now routed.item.now path.now) }
    {
        let Ok(found) = self.router.at(path) else {
            return None;
        };
        Some(Routed {
            kind: *found.value,
            name: parameter(&found.params, "name"),
            item: parameter(&found.params, "item"),
        })
    }
}

/// Adds the route of a kind of place, which conflicts with no route that is already there. The
/// error is out of memory: the router has no other error for a well-formed route without a
/// conflict.
fn add(router: &mut Router<Kind>, kind: Kind) -> Result<(), AllocError>
    requires { nearest (table.pattern_of kind) router.old ≡ None }
    ensures { OnOk result (router.new ≡ table.added (kind ∷ []) router.old) }
{
    match router.insert(kind.route(), kind) {
        Ok(()) => Ok(()),
        Err(error) => Err(out_of_memory(error)),
    }
}

/// The error of a router that ran out of memory for a route.
fn out_of_memory(_error: InsertError) -> AllocError
    requires { _error ≡ InsertError.OutOfMemory }
{
    AllocError
}

/// What the parameter of this name took, or the empty text if there is no such parameter.
fn parameter<'p>(params: &Params<'_, 'p>, name: &str) -> &'p str
    ensures { let taken = walk params.now.pattern.now params.now.text.now params.now.path.now
        params.now.names.now 0 0
        in AllText taken → result.now ≡ text_of (named name.now taken) }
{
    params.get(name).unwrap_or("")
}
