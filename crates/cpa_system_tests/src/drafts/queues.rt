//! Drafts with queues, which are of large systems alone.

use crate::drafts::cases::Told;
use cpa_draft::Part;

/// A large system with a queue that serves a port at 100 bits in a tick, and a queue at the rate that stands by default.
pub(crate) const QUEUES: [&str; 8] = [
    "large",
    "resource|cpu|preemptive",
    "resource|bus|can",
    "resource|port|fifo||||100",
    "resource|line|fifo|1000",
    "source|s|10",
    "task|a|port|1|1||||s",
    "task|b|port|||1500|||a",
];

/// What is told where any one of these lines stands after those.
pub(crate) const QUEUED: [Told; 7] = [
    (
        None,
        &[
            "resource|r|fifo",
            "resource|r|fifo||||1",
            "resource|r|fifo|100000000|||672",
            "task|c|port|1|1||||s|b",
            "task|c|line|10000000|10000000||||s",
            "task|c|port|||0|||s",
            "task|c|line|||1500|||s",
            "task|c|bus|||8|3||s",
            "extended|c|bus|||8|3||s",
            "standard|c|bus|||8|3||s",
        ],
    ),
    (
        Some((2, Part::Resource, 5)),
        &[
            "resource|r|fifo|0",
            "resource|r|fifo||||0",
            "resource|r|fifo||||-1",
            "resource|r|fifo||||673",
            "resource|r|fifo||||1000",
            "resource|r|can||||673",
        ],
    ),
    (
        Some((9, Part::Resource, 5)),
        &[
            "resource|r|fifo||0",
            "resource|r|fifo|||1",
            "resource|r|preemptive||||1",
            "resource|r|round-robin||||1",
            "resource|r|tdma||||1",
            "resource|r|can||||100",
        ],
    ),
    (
        Some((2, Part::Task, 3)),
        &[
            "task|c|port|0|1||||s",
            "task|c|port|1|10000001||||s",
            "task|c|port|||-1|||s",
            "task|c|port|||1501|||s",
            "task|c|bus|||1501|3||s",
        ],
    ),
    (Some((5, Part::Task, 3)), &["task|c|queue|1|1||||s"]),
    (
        Some((9, Part::Task, 3)),
        &[
            "task|c|port|1|1||0||s",
            "task|c|port|1|1|||1|s",
            "task|c|port|1|1||3|1|s",
            "task 1|c|port|1|1||||s",
            "task 2|c|port|2|2||||s",
            "extended|c|port|||8|||s",
            "standard|c|port|||8|||s",
            "task|c|bus|||9|3||s",
            "task|c|bus|||1500|3||s",
            "task|c|cpu|||0|3||s",
            "task|c|port|2|1||3||s",
        ],
    ),
    (Some((10, Part::Task, 3)), &["task|c|port|2|1||||s"]),
];
