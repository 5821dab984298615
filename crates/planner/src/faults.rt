// How a call is refused, and what a refusal reports.

ghost use Rattle.std.specs.Prelude.{◌≡◌, [], ◌∷◌, ◌++◌, None, Some};
ghost use Rattle.planner.specs.Reports.{as_tabled, at_line, fault_of, fault_of_lean, fault_text, field_text, report_graph, report_of, report_run, report_text};
ghost use Rattle.graph.specs.Taking.{refusal_number};
ghost use Rattle.planner.specs.declared.faults.JobFault.TheVariants.{Asked, Graph, Run};
ghost use Rattle.rules.specs.Refusals.{fault_line};

use fit::AskFault;
use graph::faults::{GraphFault, Refusal};
use layout::faults::LayoutFault;
use lean::faults::LeanFault;
use run::faults::RunFault;
use std::fmt;
use text::faults::TextFault;

// Why a call on a plan is refused.
#[derive(Clone, Copy, Debug, PartialEq, Eq)]
pub enum JobFault {
    Graph(GraphFault),
    // no sheet was read
    Empty,
    // the plan is not placed
    Unplaced,
    // an actor's core is none of the fabric's
    LacksCore,
    // a question about places names an object or a bank that there is not
    NoSuchPlace,
    // the object and the bank in which no gap held it
    NoGap(u32, u32),
    // a question to a fit rule is not a proper one
    Asked(AskFault),
    // the caller's memory is too short
    ShortMemory,
    // a run or a lean order of a plan that holds no sheet
    NoSheet,
    // a call of a run was refused
    Run(RunFault),
    // a question names an actor, an object or a bank that there is not
    Unknown,
}

impl From<GraphFault> for JobFault {
    ghost from_gives = { λ f r. r ≡ Graph f };

    fn from(f: GraphFault) -> JobFault {
        JobFault::Graph(f)
    }
}

impl From<LayoutFault> for JobFault {
    ghost from_gives = { λ f r. r ≡ fault_of f };

    fn from(f: LayoutFault) -> JobFault {
        match f {
            LayoutFault::NoGap { object, bank } => JobFault::NoGap(object, bank),
            LayoutFault::ShortMemory => JobFault::ShortMemory,
        }
    }
}

impl From<LeanFault> for JobFault {
    ghost from_gives = { λ f r. r ≡ fault_of_lean f };

    fn from(f: LeanFault) -> JobFault {
        match f {
            LeanFault::Empty => JobFault::NoSheet,
            LeanFault::ShortMemory => JobFault::ShortMemory,
        }
    }
}

impl From<AskFault> for JobFault {
    ghost from_gives = { λ f r. r ≡ Asked f };

    fn from(f: AskFault) -> JobFault {
        JobFault::Asked(f)
    }
}

impl From<RunFault> for JobFault {
    ghost from_gives = { λ f r. r ≡ Run f };

    fn from(f: RunFault) -> JobFault {
        JobFault::Run(f)
    }
}

// A fault as its number, its layer, and the line, object and bank where they stand.
#[derive(Clone, Copy, Debug, PartialEq, Eq)]
pub struct Report {
    pub number: u32,
    pub layer: u32,
    pub line: Option<u32>,
    pub object: Option<u32>,
    pub bank: Option<u32>,
}

impl Report {
    // A report that names no line, object or bank.
    fn of(number: u32, layer: u32) -> Report
        ensures { result ≡ at_line number layer None }
    {
        Report {
            number,
            layer,
            line: None,
            object: None,
            bank: None,
        }
    }
}

// A badly written text.
impl From<TextFault> for Report {
    ghost from_gives = { λ f r. r ≡ report_text f };

    fn from(f: TextFault) -> Report {
        match f {
            TextFault::TooLong => Report::of(1, 1),
            TextFault::NoHeader => Report {
                line: Some(1),
                ..Report::of(2, 1)
            },
            TextFault::Malformed(at) => Report {
                line: Some(at),
                ..Report::of(3, 1)
            },
        }
    }
}

// A refused line, whichever it is.
impl From<Refusal> for Report {
    ghost from_gives = { λ f r. r ≡ at_line (refusal_number f) 2 None };

    fn from(f: Refusal) -> Report {
        let number = match f {
            Refusal::OutOfTurn => 4,
            Refusal::OffRange => 5,
            Refusal::Unknown => 6,
            Refusal::TooMany => 7,
            Refusal::EqualEnds => 8,
            Refusal::AcrossCores => 9,
            Refusal::Backward => 10,
        };
        Report::of(number, 2)
    }
}

// A refused reading.
impl From<GraphFault> for Report {
    ghost from_gives = { λ f r. r ≡ report_graph f };

    fn from(f: GraphFault) -> Report {
        match f {
            GraphFault::Text(f) => f.into(),
            GraphFault::Refused(f, at) => Report {
                line: Some(at),
                ..Report::from(f)
            },
        }
    }
}

// A refused call of a run.
impl From<RunFault> for Report {
    ghost from_gives = { λ f r. r ≡ report_run f };

    fn from(f: RunFault) -> Report {
        match f {
            RunFault::ShortMemory => Report::of(16, 5),
            _ => Report::of(f.number(), 4),
        }
    }
}

impl From<JobFault> for Report {
    ghost from_gives = { λ f r. r ≡ report_of f };

    fn from(f: JobFault) -> Report {
        match f {
            JobFault::Graph(f) => f.into(),
            JobFault::Empty | JobFault::Unplaced => Report::of(4, 3),
            JobFault::LacksCore | JobFault::NoSuchPlace => Report::of(6, 3),
            JobFault::Asked(f) => Report::of(f.number(), 3),
            JobFault::NoSheet => Report::of(4, 4),
            JobFault::Run(f) => f.into(),
            JobFault::Unknown => Report::of(6, 4),
            JobFault::NoGap(object, bank) => Report {
                object: Some(object),
                bank: Some(bank),
                ..Report::of(11, 3)
            },
            JobFault::ShortMemory => Report::of(16, 5),
        }
    }
}

impl JobFault {
    // What the fault reports.
    pub fn report(&self) -> Report
        ensures { result ≡ report_of self.now }
    {
        (*self).into()
    }
}

// A number of a report, or `-` where it does not stand.
#[derive(Clone, Copy)]
struct Field(Option<u32>);

impl fmt::Display for Field {
    ghost output = { λ x. Some (field_text x.0) };

    fn fmt<W: fmt::Write>(&self, f: &mut fmt::Formatter<W>) -> fmt::Result {
        match self.0 {
            Some(n) => write!(f, "{n}"),
            None => write!(f, "-"),
        }
    }
}

// `E number layer line object bank`
impl fmt::Display for Report {
    ghost output = { λ x. Some (fault_text x) };

    fn fmt<W: fmt::Write>(&self, f: &mut fmt::Formatter<W>) -> fmt::Result {
        write!(
            f,
            "E {} {} {} {} {}",
            self.number,
            self.layer,
            Field(self.line),
            Field(self.object),
            Field(self.bank)
        )
    }
}

// What is shown of a report, with a line end behind it, is the fault line of the table.
pub fn reports_are_shown_as_tabled()
    ensures { (r : Report) → fault_line (as_tabled r) ≡ fault_text r ++ 10 ∷ [] }
{}
