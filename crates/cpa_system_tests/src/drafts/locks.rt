//! Drafts with critical sections, which are of large systems alone. They stand before the first word of a line, with a comma behind each.

use crate::drafts::cases::Told;
use cpa_draft::Part;

/// A large system with two processors that have ceilings, and tasks with sections that are apart and that nest.
pub(crate) const LOCKS: [&str; 8] = [
    "large",
    "resource|cpu|ceiling|1000",
    "resource|twin|ceiling",
    "resource|old|preemptive",
    "source|s|100",
    "bus 0 2,file 2 3,task|a|cpu|1|9||1||s",
    "bus 1 5,file 1 5,file 2 4,task|b|cpu|1|9||2||s",
    "local 0 1,task|c|twin|1|9||1||s",
];

/// What is told where any one of these lines stands after those.
pub(crate) const LOCKED: [Told; 8] = [
    (
        None,
        &[
            "resource|r|ceiling|100000000",
            "task|d|cpu|1|9||3||s",
            "task 9|d|cpu|1|9||3||s",
            "bus 0 10000000,task|d|cpu|1|9||3||s",
            "bus 10000000 1,task|d|cpu|1|9||3||s",
            "bus 0 9,file 3 6,bus 3 3,task|d|cpu|1|9||3||s",
            "bus 0 3,file 3 6,task 1|d|cpu|1|9||3||s",
            "local 5 1,task|d|twin|1|9||3||s",
            "other 5 1,task|d|twin|1|9||3||s",
        ],
    ),
    (
        Some((2, Part::Resource, 4)),
        &["resource|r|ceiling|0", "resource|r|ceiling|100000001"],
    ),
    (
        Some((2, Part::Task, 4)),
        &[
            "bus -1 1,task|d|cpu|1|9||3||s",
            "bus 0 0,task|d|cpu|1|9||3||s",
            "bus 10000001 1,task|d|cpu|1|9||3||s",
            "bus 0 10000001,task|d|cpu|1|9||3||s",
            "bus 0 1,file 0 0,task|d|cpu|1|9||3||s",
        ],
    ),
    (
        Some((3, Part::Task, 4)),
        &[
            "b/s 0 1,task|d|cpu|1|9||3||s",
            " 0 1,task|d|cpu|1|9||3||s",
            "bus 0 1,file+ 0 1,task|d|cpu|1|9||3||s",
        ],
    ),
    (Some((8, Part::Task, 4)), &["task|d|cpu|1|9||2||s"]),
    (
        Some((9, Part::Task, 4)),
        &[
            "task|d|cpu|1|9|||4|s",
            "task|d|cpu|1|9||3|4|s",
            "task|d|cpu|||8|3||s",
            "bus 0 1,task|d|old|1|9||3||s",
        ],
    ),
    (Some((9, Part::Resource, 4)), &["resource|r|ceiling||1"]),
    // Sections that cross, beside a region, or of a lock of another processor.
    (
        Some((16, Part::Task, 4)),
        &[
            "bus 0 3,file 2 2,task|d|cpu|1|9||3||s",
            "file 2 2,bus 0 3,task|d|cpu|1|9||3||s",
            "bus 4 4,bus 0 5,task|d|cpu|1|9||3||s",
            "bus 0 1,task 2|d|cpu|1|9||3||s",
            "local 0 1,task|d|cpu|1|9||3||s",
            "bus 0 1,task|d|twin|1|9||3||s",
            "other 7 1,file 0 1,task|d|twin|1|9||3||s",
        ],
    ),
];
