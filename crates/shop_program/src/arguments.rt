// What a command line asks for.
use shop_engine::{CheckArgs, ListArgs, SolveArgs};
use shop_runs::Workers;

/// A command with its arguments and its paths. Without a path the text is standard input; without a path of a schedule,
/// the text of the instance also has the schedule.
#[derive(Drop)]
pub enum Args {
    List {
        args: ListArgs,
        file: Option<String>,
    },
    Check {
        args: CheckArgs,
        file: Option<String>,
        schedule: Option<String>,
    },
    Solve {
        args: SolveArgs,
        workers: Workers,
        file: Option<String>,
    },
}
