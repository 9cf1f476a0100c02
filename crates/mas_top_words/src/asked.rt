//! What a command line asks for.

use mas_report::options::Options;

/// Where agents wait for a worker.
#[derive(Clone, Copy)]
pub enum Pool {
    /// In one queue for all workers.
    Ready,
    /// In a queue of each worker, from which others steal.
    Steal,
}

/// What the words ask for. Names of files are as they stand.
#[derive(Clone, Copy)]
pub enum Asked<'a> {
    /// A run of the project by so many workers, which take the agents from this pool.
    Run {
        project: &'a [u8],
        options: Options,
        workers: u64,
        pool: Pool,
    },
    /// A run of the project along the schedule.
    Replay {
        project: &'a [u8],
        schedule: &'a [u8],
        options: Options,
    },
    /// Whether the report is that of a run of the project.
    Check {
        project: &'a [u8],
        report: &'a [u8],
    },
    /// A demonstration with so many agents, by so many workers.
    Demo {
        count: u64,
        workers: u64,
    },
    /// The report of a run of the project, as it is written now.
    Renew {
        project: &'a [u8],
        report: &'a [u8],
    },
    /// A run of the project by so many workers, each turn of which is written to the file.
    Record {
        project: &'a [u8],
        file: &'a [u8],
        options: Options,
        workers: u64,
    },
    /// The run of the project of which the file has the first turns, to its end.
    Resume {
        project: &'a [u8],
        file: &'a [u8],
        options: Options,
        workers: u64,
    },
    /// A run of two projects as two sites, by so many workers.
    Sites {
        one: &'a [u8],
        two: &'a [u8],
        options: Options,
        workers: u64,
    },
    /// Whether each goal of the project has a plan that covers it.
    Lint {
        project: &'a [u8],
    },
}
