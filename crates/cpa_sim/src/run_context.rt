//! What a run goes by.

use crate::successors::Successors;
use cpa_model::System;
use cpa_trace::Trace;
use cpa_units::TaskId;

/// What a run goes by, which never changes on its way.
#[derive(Clone, Copy)]
pub(crate) struct RunContext<'a> {
    pub(crate) system: &'a System,
    pub(crate) trace: &'a Trace,
    pub(crate) successors: &'a Successors,
    /// The tasks of each resource by urgency.
    pub(crate) orders: &'a Vec<Vec<TaskId>>,
    /// Where each task stands in the list of its resource.
    pub(crate) places: &'a Vec<usize>,
}
