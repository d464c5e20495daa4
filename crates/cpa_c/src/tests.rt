//! Each function that allocates, once on its good path.

use crate::{
    lokwurmi_analyse, lokwurmi_assign, lokwurmi_audit, lokwurmi_bounds, lokwurmi_buffers,
    lokwurmi_chain, lokwurmi_chains, lokwurmi_close, lokwurmi_edit, lokwurmi_generate,
    lokwurmi_hammer, lokwurmi_latencies, lokwurmi_open, lokwurmi_report, lokwurmi_schedule,
    lokwurmi_session, lokwurmi_simulate, lokwurmi_slack,
};
use cpa_kept::Handle;
use std::alloc::Global;
use std::test::Fail;

/// Two tasks on one processor, and a path of the second.
const SYSTEM: &[u8] =
    b"format = 1\nresource = [{ name = \"cpu\", kind = \"preemptive\" }]\nsource = [{ name = \"sa\", period = 10 }, { name = \"sb\", period = 20 }]\ntask = [{ name = \"a\", on = \"cpu\", after = \"sa\", best = 1, worst = 3, priority = 1 }, { name = \"b\", on = \"cpu\", after = \"sb\", best = 2, worst = 7, priority = 2 }]\npath = [{ name = \"p\", tasks = [\"b\"], deadline = 20 }]\n";

const TRACE: &[u8] = b"event,sa,5\n";

const SCHEDULE: &[u8] = b"a,5,8\n";

const CHAINS: &[u8] = b"format = 1\nchain = [{ name = \"c\", tasks = [\"a\", \"b\"] }]\n";

/// The statuses of calls, and the length of the shortest text.
#[derive(Clone, Copy, Debug, PartialEq, Eq)]
struct Gave {
    statuses: [u8; 6],
    shortest: usize,
}

fn shortest(lengths: &[usize]) -> usize {
    let mut least = usize::MAX;
    for length in lengths {
        least = least.min(*length);
    }
    least
}

/// Calls that want no trace.
fn bound(alloc: Global) -> Gave {
    let mut out = [0u8; 64];
    let mut used = [0usize; 6];
    let statuses = [
        lokwurmi_analyse(alloc, SYSTEM, &mut out, &mut used[0]),
        lokwurmi_session(alloc, SYSTEM, b"report\n", &mut out, &mut used[1]),
        lokwurmi_generate(alloc, 42, 0, &mut out, &mut used[2]),
        lokwurmi_hammer(alloc, SYSTEM, 1, 1, &mut out, &mut used[3]),
        lokwurmi_assign(alloc, SYSTEM, b"cpu", &mut out, &mut used[4]),
        lokwurmi_slack(alloc, SYSTEM, b"b", &mut out, &mut used[5]),
    ];
    Gave {
        statuses,
        shortest: shortest(&used),
    }
}

/// Calls that want a trace or a chain.
fn follow(alloc: Global) -> Gave {
    let mut out = [0u8; 64];
    let mut used = [0usize; 6];
    let statuses = [
        lokwurmi_simulate(alloc, SYSTEM, TRACE, &mut out, &mut used[0]),
        lokwurmi_buffers(alloc, SYSTEM, TRACE, &mut out, &mut used[1]),
        lokwurmi_audit(alloc, SYSTEM, TRACE, SCHEDULE, &mut out, &mut used[2]),
        lokwurmi_schedule(alloc, SYSTEM, TRACE, &mut out, &mut used[3]),
        lokwurmi_chain(alloc, SYSTEM, b"a\nb\n", 0, &mut out, &mut used[4]),
        lokwurmi_chains(alloc, SYSTEM, CHAINS, &mut out, &mut used[5]),
    ];
    Gave {
        statuses,
        shortest: shortest(&used),
    }
}

/// Calls of a session that is kept, from its opening on; its edit gives no text.
fn keep(alloc: Global) -> Gave {
    let mut handle = Handle::closed();
    let mut out = [0u8; 64];
    let mut numbers = [0u64; 2];
    let mut used = [0usize; 6];
    let statuses = [
        lokwurmi_open(alloc, &mut handle, SYSTEM, &mut out, &mut used[0]),
        lokwurmi_edit(alloc, &mut handle, b"exec b 2 5", &mut out, &mut used[0]),
        lokwurmi_bounds(alloc, &mut handle, &mut numbers, &mut used[1]),
        lokwurmi_latencies(alloc, &mut handle, &mut numbers, &mut used[2]),
        lokwurmi_report(alloc, &mut handle, &mut out, &mut used[3]),
        // a name that begins with a hyphen is none
        lokwurmi_chain(
            alloc,
            SYSTEM,
            b"a\n--while-running",
            0,
            &mut out,
            &mut used[4],
        ),
    ];
    lokwurmi_close(alloc, &mut handle);
    Gave {
        statuses,
        shortest: shortest(&used[1..5]),
    }
}

#[test]
fn gives_texts(rt: HostRuntime) -> Result<(), Fail> {
    let alloc = rt.alloc();
    let gave = [bound(alloc), follow(alloc), keep(alloc)];
    let wanted = [
        Gave {
            statuses: [0, 0, 0, 0, 0, 0],
            // `slack b 7 next missed`: with 14 ticks the second task ends after 20, and with 15 the path is late
            shortest: 22,
        },
        Gave {
            statuses: [0, 0, 0, 0, 0, 0],
            // `a,5,8`: the one event starts a job of 3 ticks
            shortest: 6,
        },
        Gave {
            statuses: [0, 0, 0, 0, 0, 10],
            // there is one path
            shortest: 1,
        },
    ];
    assert!(rt; gave == wanted);
    Ok(())
}
