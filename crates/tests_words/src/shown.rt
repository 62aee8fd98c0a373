//! Commands, as they are printed.
use jc_command_words::{
    CheckWords, Command, CoverWords, FileWord, LinesWords, ReportWords, RunMode, RunWords,
};
use jc_rules::{CounterKind, Rule};
use tests_lines::Answer;

/// Puts the files, each behind a space; a folder stands in brackets.
fn put_files(words: &[FileWord<'_>], out: &mut Answer) {
    out.put(" files");
    for word in words {
        match word {
            FileWord::Plain(path) => out.label(" ", path),
            FileWord::Folder(path) => {
                out.label(" [", path);
                out.put("]");
            }
        }
    }
}

/// Puts the inputs, each behind a space.
fn put_inputs(words: &[&str], out: &mut Answer) {
    out.put(" inputs");
    for word in words {
        out.label(" ", word);
    }
}

/// Puts the execution data that a report reads, if any.
fn put_exec(exec: Option<&str>, out: &mut Answer) {
    if let Some(path) = exec {
        out.label(" exec ", &path);
    }
}

/// Puts what the words of `report` say.
fn put_report(words: &ReportWords<'_>, out: &mut Answer) {
    out.label("report csv ", &words.csv);
    out.label(" name '", &words.name);
    out.put("'");
    put_exec(words.exec, out);
    put_files(&words.files, out);
}

/// Puts how the cases are run.
fn put_mode(mode: RunMode<'_>, out: &mut Answer) {
    match mode {
        RunMode::Plain { workers } => out.label(" workers ", &workers),
        RunMode::Dumping {
            dir,
            every,
            workers,
        } => {
            out.label(" dumps ", &dir);
            out.label(" every ", &every);
            out.label(" workers ", &workers);
        }
        RunMode::Monitored => out.put(" monitors"),
    }
}

/// Puts what the words of `run` say.
fn put_run(words: &RunWords<'_>, out: &mut Answer) {
    out.label("run plan ", &words.plan);
    out.label(" destfile ", &words.destfile);
    put_mode(words.mode, out);
    put_files(&words.files, out);
}

/// Puts what the words of `cover` say.
fn put_cover(words: &CoverWords<'_>, out: &mut Answer) {
    out.label("cover dest ", &words.dest);
    out.label(" plan ", &words.plan);
    out.label(" destfile ", &words.destfile);
    out.label(" csv ", &words.csv);
    out.label(" workers ", &words.workers);
    out.label(" name '", &words.name);
    out.put("'");
    put_files(&words.files, out);
}

/// The name of a counter.
fn name_of(counter: CounterKind) -> &'static str {
    match counter {
        CounterKind::Instruction => "instruction",
        CounterKind::Branch => "branch",
        CounterKind::Line => "line",
        CounterKind::Complexity => "complexity",
        CounterKind::Method => "method",
        CounterKind::Class => "class",
    }
}

/// Puts the rules, each behind a space.
fn put_rules(rules: &[Rule], out: &mut Answer) {
    out.put(" rules");
    for rule in rules {
        out.label(" ", &name_of(rule.counter));
        out.label(" ", &rule.least);
        out.label("/", &rule.of);
    }
}

/// Puts what the words of `lines` say.
fn put_lines(words: &LinesWords<'_>, out: &mut Answer) {
    out.put("lines");
    put_exec(words.exec, out);
    put_files(&words.files, out);
}

/// Puts what the words of `check` say.
fn put_check(words: &CheckWords<'_>, out: &mut Answer) {
    out.put("check");
    put_rules(&words.rules, out);
    put_exec(words.exec, out);
    put_files(&words.files, out);
}

/// Puts a command with what it is given.
pub fn put_command(command: &Command<'_>, out: &mut Answer) {
    match command {
        Command::Instrument(words) => {
            out.label("instrument dest ", &words.dest);
            put_files(&words.files, out);
        }
        Command::Run(words) => put_run(words, out),
        Command::Merge(words) => {
            out.label("merge destfile ", &words.destfile);
            put_inputs(&words.inputs, out);
        }
        Command::Report(words) => put_report(words, out),
        Command::ExecInfo { inputs } => {
            out.put("execinfo");
            put_inputs(inputs, out);
        }
        Command::ClassInfo { files } => {
            out.put("classinfo");
            put_files(files, out);
        }
        Command::Cover(words) => put_cover(words, out),
        Command::CoverSample { methods } => out.label("cover sample ", methods),
        Command::Refs { files } => {
            out.put("refs");
            put_files(files, out);
        }
        Command::Lines(words) => put_lines(words, out),
        Command::Check(words) => put_check(words, out),
    }
}
