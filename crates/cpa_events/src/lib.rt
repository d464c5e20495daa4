//! Event models: how close together events may come, and how many a window may have.
//!
//! A stream gives a period, a jitter and a distance, all in ticks. Its two curves are the standard
//! event model of Richter ("Compositional Scheduling Analysis Using Standard Event Models", 2005),
//! in the form that pyCPA computes with (Diemer, Axer and Ernst, 2012). A model is a list of streams
//! that come side by side.
//! The distance between the events that a task sends on is this project's own.
#![tactic(auto)]

ghost use Rattle.cpa_events.specs.Laws.{EventsFit, LeastTimeHasRoom, OneStreamIsAModel, EventsByQuotients, LongerWindowsHaveMore, DenserModelsHaveMore, LaterResponsesSendDenser};

mod compact_stream;
mod model;
mod stream;

pub use model::Model;
pub use stream::{MAX_MODEL_JITTER, Stream};

/// The most streams of a model.
pub const MAX_STREAMS: usize = 32;

/// What `eta_plus` is: n events fit into a window exactly where it is longer than their least time.
/// The curves of one stream are the stream's, and two quotients rounded up give the most of its
/// events that fit.
pub fn events_fit()
    ensures fit { EventsFit }
    ensures least { LeastTimeHasRoom }
    ensures one { OneStreamIsAModel }
    ensures quotients { EventsByQuotients }
{}

/// A longer window has no fewer events, and a denser model has no fewer and no later ones. A task
/// that is sent a denser model, or may answer sooner or later, sends a denser one on.
pub fn events_are_monotone()
    ensures longer { LongerWindowsHaveMore }
    ensures denser { DenserModelsHaveMore }
    ensures later { LaterResponsesSendDenser }
{}
