//! What the words of a command say.

use jc_paths::FileWord;
use jc_rules::Rule;

/// What the words of `instrument` say.
#[derive(Drop)]
pub struct InstrumentWords<'a> {
    /// The folder to which the class files are written.
    pub dest: &'a str,
    /// The class files.
    pub files: Vec<FileWord<'a>>,
}

/// How the cases of a run plan are run.
#[derive(Clone, Copy, Debug, PartialEq, Eq)]
pub enum RunMode<'a> {
    /// On so many threads.
    Plain {
        workers: u32,
    },
    /// On so many threads. Each time that `every` more cases have ended, what was hit is taken and goes to a file of the folder `dir`.
    Dumping {
        dir: &'a str,
        every: u32,
        workers: u32,
    },
    /// On one thread, with monitors.
    Monitored,
}

/// What the words of `run` say.
#[derive(Drop)]
pub struct RunWords<'a> {
    /// The file of the run plan.
    pub plan: &'a str,
    /// The file to which the execution data goes.
    pub destfile: &'a str,
    /// How the cases are run.
    pub mode: RunMode<'a>,
    /// The class files.
    pub files: Vec<FileWord<'a>>,
}

/// What the words of `merge` say.
#[derive(Drop)]
pub struct MergeWords<'a> {
    /// The file to which the execution data goes.
    pub destfile: &'a str,
    /// The files of execution data.
    pub inputs: Vec<&'a str>,
}

/// What the words of `report` say.
#[derive(Drop)]
pub struct ReportWords<'a> {
    /// The file to which the report goes.
    pub csv: &'a str,
    /// The name of the report.
    pub name: &'a str,
    /// The file of execution data, if there is one.
    pub exec: Option<&'a str>,
    /// The class files.
    pub files: Vec<FileWord<'a>>,
}

/// What the words of `cover` say.
#[derive(Drop)]
pub struct CoverWords<'a> {
    /// The folder to which the class files are written.
    pub dest: &'a str,
    /// The file of the run plan.
    pub plan: &'a str,
    /// The file to which the execution data goes.
    pub destfile: &'a str,
    /// The file to which the report goes.
    pub csv: &'a str,
    /// How many threads run cases.
    pub workers: u32,
    /// The name of the report.
    pub name: &'a str,
    /// The class files.
    pub files: Vec<FileWord<'a>>,
}

/// What the words of `lines` say.
#[derive(Drop)]
pub struct LinesWords<'a> {
    /// The file of execution data, if there is one.
    pub exec: Option<&'a str>,
    /// The class files.
    pub files: Vec<FileWord<'a>>,
}

/// What the words of `check` say.
#[derive(Drop)]
pub struct CheckWords<'a> {
    /// The rules, of which no two are of one counter.
    pub rules: Vec<Rule>,
    /// The file of execution data, if there is one.
    pub exec: Option<&'a str>,
    /// The class files.
    pub files: Vec<FileWord<'a>>,
}
