//! The formats of system files.

ghost use Rattle.std.specs.Prelude.{◌≡◌};
ghost use Rattle.cpa_file.specs.Formats.{format_with, has_lists, has_more_of_tasks, has_more_of_sources, has_later_kinds, size_of};

use cpa_units::limits::Size;

/// What a system file may say: each format what those before it may, and more.
#[derive(Clone, Copy, Debug, PartialEq, Eq)]
pub enum Format {
    /// Tasks with one activator each.
    One,
    /// Tasks with several activators.
    Two,
    /// Tasks with regions or critical sections, sporadic sources, sources on clocks, queues, priority ceilings, and large
    /// systems.
    Four,
}

impl Format {
    /// The format with a number, and 1 where none has it.
    pub(crate) fn with(number: Option<i64>) -> Format
        ensures { result ≡ format_with number }
    {
        match number {
            None => Format::One,
            Some(number) => {
                if number == 2 {
                    Format::Two
                } else if number == 4 {
                    Format::Four
                } else {
                    Format::One
                }
            }
        }
    }

    /// Whether a task may have a list of activators.
    pub(crate) fn has_lists(self) -> bool
        ensures { result ≡ has_lists self }
    {
        match self {
            Format::One => false,
            Format::Two => true,
            Format::Four => true,
        }
    }

    /// Whether a task may have a region, or critical sections.
    pub(crate) fn has_more_of_tasks(self) -> bool
        ensures { result ≡ has_more_of_tasks self }
    {
        match self {
            Format::One => false,
            Format::Two => false,
            Format::Four => true,
        }
    }

    /// Whether a source may be sporadic, and on a clock.
    pub(crate) fn has_more_of_sources(self) -> bool
        ensures { result ≡ has_more_of_sources self }
    {
        matches!(self, Format::Four)
    }

    /// Whether a resource may be a queue, or one whose locks have ceilings.
    pub(crate) fn has_later_kinds(self) -> bool
        ensures { result ≡ has_later_kinds self }
    {
        matches!(self, Format::Four)
    }

    /// How large a system may be.
    pub(crate) fn size(self) -> Size
        ensures { result ≡ size_of self }
    {
        match self {
            Format::One => Size::Small,
            Format::Two => Size::Small,
            Format::Four => Size::Large,
        }
    }
}
