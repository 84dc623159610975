// Worked instances, as texts of the format `routes`.
use shop_model::Instance;
use shop_text::read_routes;
use std::alloc::Global;
use std::process::Abort;

/// Two jobs that cross two machines.
pub const CROSSING: &str = "2 2\n0 0 3 1 2\n0 1 2 0 4\n";

/// Two jobs on three machines, whose first bound is below the least makespan; a last step takes no time.
pub const GAP: &str = "2 3\n0 0 5 1 3 2 0\n0 1 1 0 1 2 6\n";

/// Two jobs with several steps of time 0.
pub const ZEROS: &str = "2 3\n0 0 4 1 1 2 0\n0 1 0 2 5 0 0\n";

/// Fisher and Thompson's instance of six jobs on six machines. Its least makespan is 55.
pub const FT06: &str = "6 6\n\
    0 2 1 0 3 1 6 3 7 5 3 4 6\n\
    0 1 8 2 5 4 10 5 10 0 10 3 4\n\
    0 2 5 3 4 5 8 0 9 1 1 4 7\n\
    0 1 5 0 5 2 5 3 3 4 8 5 9\n\
    0 2 9 1 3 4 5 5 4 0 3 3 1\n\
    0 1 3 3 3 5 9 0 10 4 4 2 1\n";

/// `FT06` with each time 1,200 times as long, too long for a row of stacks by bound. Its least makespan is 66,000.
pub const FT06_STRETCHED: &str = "6 6\n\
    0 2 1200 0 3600 1 7200 3 8400 5 3600 4 7200\n\
    0 1 9600 2 6000 4 12000 5 12000 0 12000 3 4800\n\
    0 2 6000 3 4800 5 9600 0 10800 1 1200 4 8400\n\
    0 1 6000 0 6000 2 6000 3 3600 4 9600 5 10800\n\
    0 2 10800 1 3600 4 6000 5 4800 0 3600 3 1200\n\
    0 1 3600 3 3600 5 10800 0 12000 4 4800 2 1200\n";

/// Four jobs on three machines, on which the two orders of open nodes find different schedules.
pub const SHORT_JOBS: &str = "4 3\n0 0 5 1 3\n1 0 1 2 6\n0 1 1\n0 1 1\n";

/// Two jobs that cross two machines, of which one has a release, and a job without operations.
pub const RELEASED: &str = "3 2\n0 0 3 1 2\n4 1 2 0 4\n7\n";

/// Reads the instance of a text.
pub fn instance_of(rt: &impl Abort, alloc: Global, text: &str) -> Instance {
    let mut named = read_routes(alloc, text.as_bytes()).expect(rt, "an instance");
    named.pop().expect(rt, "an instance").instance
}
