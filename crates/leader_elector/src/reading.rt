// A reading at which an elector was called.
ghost use Rattle.std.specs.Prelude.{◌≤◌};
ghost use Rattle.kube_base.specs.Bounds.{most_local};

use kube_base::Local;

/// A reading that was handed in.
#[derive(Clone, Copy)]
pub(crate) struct Reading {
    pub(crate) at: Local,
    ghost at_fits: { at.0 ≤ most_local },
}
