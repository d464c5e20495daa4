//! Where the streams of one task are on clocks.

ghost use Rattle.std.specs.Prelude.{◌≡◌, ◌<◌, ◌++◌, ◌∷◌, [], length, All, None};
ghost use Rattle.std.specs.Bool.{OnFalse};
ghost use Rattle.cpa_events.specs.declared.TheConstants.{MAX_STREAMS};

use cpa_clock::Anchor;
use cpa_events::MAX_STREAMS;
use std::marker::Model;

/// Where each of a task's streams is on a clock, if it is on one, in their order. Contracts see that list.
#[derive(Drop)]
pub(crate) struct AnchorList {
    len: u32,
    anchors: [Option<Anchor>; MAX_STREAMS],
}

impl Model for AnchorList {
    ghost use Rattle.std.specs.Prelude.{◌≡◌, ◌≤◌, List, Option, length, take};
    ghost use Rattle.cpa_clock.specs.declared.anchor.Anchor.{Anchor};

    ghost Value = { List (Option Anchor) };

    ghost view = { λ l. take l.len l.anchors };

    ghost invariant = { λ l. (l.len ≤ 32) × (length l.anchors ≡ 32) };
}

impl AnchorList {
    /// The list of no streams.
    pub(crate) fn none() -> AnchorList
        ensures { result ≡ [] }
    {
        AnchorList {
            len: 0,
            anchors: [None; MAX_STREAMS],
        }
    }

    /// Becomes the list of no streams.
    pub(crate) fn clear(&mut self)
        ensures { self.new ≡ [] }
    {
        self.len = 0;
    }

    /// Adds a stream at the end.
    pub(crate) fn push(&mut self, anchor: Option<Anchor>)
        requires { length self.old < MAX_STREAMS }
        ensures { self.new ≡ self.old ++ anchor ∷ [] }
    {
        self.anchors[self.len as usize] = anchor;
        self.len += 1;
    }

    pub(crate) fn as_slice(&self) -> &[Option<Anchor>]
        ensures { result.now ≡ self.now }
    {
        &self.anchors[..self.len as usize]
    }

    /// Whether a stream is on a clock.
    pub(crate) fn is_on_clock(&self) -> bool
        ensures { OnFalse result (All (λ a. a ≡ None) self.now) }
    {
        for anchor in self.as_slice() {
            if anchor.is_some() {
                return true;
            }
        }
        false
    }
}
