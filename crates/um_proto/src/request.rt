//! A request.

use um_model::Moment;
use um_state::{Event, Query};

/// The content of a request.
#[derive(Drop)]
pub enum Asked {
    /// An event for the manager.
    Event(Event),
    /// A question about its state.
    Query(Query),
    /// The actions since the last such request.
    Actions,
}

/// A request, with its moment.
#[derive(Drop)]
pub struct Request {
    /// The moment that it gives, if any.
    pub at: Option<Moment>,
    pub asked: Asked,
}
