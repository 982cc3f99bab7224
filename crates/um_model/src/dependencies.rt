//! The kinds of dependencies, and the demands of a transaction.

/// How one unit depends on another (systemd.unit(5)).
#[derive(Clone, Copy, Debug, PartialEq, Eq)]
pub enum DependencyKind {
    /// The other is started along; its failure is ignored.
    Wants,
    /// The other is started along, and this one is stopped and restarted with it.
    Requires,
    /// The same, and this one is stopped if the other becomes inactive or failed in any way.
    BindsTo,
    /// This one is stopped and restarted with the other.
    PartOf,
    /// Starting either stops the other.
    Conflicts,
}

/// The demand of a transaction on a unit (systemctl(1)).
#[derive(Clone, Copy, Debug, PartialEq, Eq)]
pub enum Demand {
    Start,
    Stop,
    Restart,
}
