// What help says of the program, its commands and their arguments.

/// What is printed above and below the help of a command.
#[derive(Clone, Copy)]
pub struct Help {
    pub about: &'static str,
    pub end: &'static str,
}

pub const PROGRAM: Help = Help {
    about: "\
An exact solver of the job shop whose answers are proved
The version is the last line of jobshop --help.",
    end: "\
Examples:
  jobshop solve ft06.txt > ft06.schedule
  jobshop check ft06.txt ft06.schedule

Exit status:
  0  done
  1  the schedule is infeasible
  2  the command line is faulty, or asks for help
  3  a text is refused
  4  a read or a write failed
  5  memory ran out

jobshop 1.3.0-dev",
};

pub const LIST: Help = Help {
    about: "Lists the instances of a text: name, jobs, machines",
    end: "\
'man jobshop-formats' explains the formats and each refusal.

Examples:
  jobshop list jobshop1.txt
  jobshop list --format taillard < ta01.txt

Exit status:
  0  listed
  2  the command line is faulty, or asks for help
  3  the text is refused
  4  a read or a write failed
  5  memory ran out",
};

pub const CHECK: Help = Help {
    about: "Judges a schedule of an instance: feasible with its makespan, or its first fault",
    end: "\
A schedule has a line for each job, as 'job 0: 0 3': the starts of its operations. A report of solve is one.

'man jobshop-formats' explains the formats and each refusal.

Examples:
  jobshop check ft06.txt ft06.schedule
  jobshop check --name la01 jobshop1.txt la01.schedule

Exit status:
  0  the schedule is feasible
  1  the schedule is infeasible
  2  the command line is faulty, or asks for help
  3  a text is refused
  4  a read or a write failed
  5  memory ran out",
};

pub const SOLVE: Help = Help {
    about: "Searches a schedule of least makespan, and reports it with a proved lower bound",
    end: "\
A search goes in rounds. A round cuts the open nodes of the search into at most 256 pieces; each piece is searched
until it has taken as many nodes as its budget, and what it leaves stays open. If no node is open, the status is
optimal; else it is open, and more rounds or a larger budget may find a shorter schedule.

The first round takes at most as many nodes as the budget, each other one 256 times as many: by the default plan some
25 billion, which may take hours. An interrupted search prints nothing, so begin with '--order bound --rounds 100
--budget 1000', which takes seconds up to some 50 x 15. Beyond some 1000 steps it may take minutes and print the poor
first schedule: take '--rounds 0' there, which gives the first bound, and a schedule by a rule.

'man jobshop-formats' explains the formats and each refusal.

Examples:
  jobshop solve ft06.txt
  jobshop solve --name la01 --gantt jobshop1.txt
  jobshop solve --order bound --rounds 100 --budget 1000 --workers 4 ft10.txt

Exit status:
  0  reported, also if the status is open
  2  the command line is faulty, or asks for help
  3  the text is refused
  4  a read or a write failed
  5  memory ran out",
};

/// Returns what help says of the argument `id`; nothing if there is no such argument.
pub fn help_of(id: &str) -> &'static str {
    match id {
        "format" => {
            "How the instance text is written: as OR-Library's jobshop1, as Taillard's texts, \
             or as routes with releases"
        }
        "name" => "The instance of this name; without it the first one",
        "FILE" => "The text of the instances; without it standard input",
        "SCHEDULE" => "The schedule; without it the text of the instance has its lines",
        "rounds" =>
            "Maximum number of rounds, 0 to 100000; more may find a shorter schedule and take longer",
        "budget" =>
            "Nodes that the search of a piece takes before it leaves the rest open, 1 to 10000000",
        "piece" => "Open nodes in a piece, 1 to 1000; a round searches at most 256 pieces",
        "order" =>
            "Which open nodes a round takes first: in the order kept, or those of least lower bound",
        "workers" =>
            "Threads that search side by side, 1 to 64; the report is the same for any number",
        "gantt" => "Draws the schedule below the report: a line for each machine",
        _ => "",
    }
}
