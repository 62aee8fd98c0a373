//! What the lines before have set up for a run, and what the latest run left.

use jc_base::{Memory, MemoryFiles};
use std::alloc::Global;
use std::collections::BTreeMap;
use tests_lines::Answer;

/// The numbers of the calls that fail in the next run, counted from 1, for each object that is called.
#[derive(Drop)]
pub struct Plan {
    /// Reads and writes of files, counted together.
    pub files: Vec<u32>,
    /// Texts on `out`.
    pub out: Vec<u32>,
    /// Texts on `err`.
    pub err: Vec<u32>,
}

impl Plan {
    /// No call fails.
    pub fn new(alloc: Global) -> Plan {
        Plan {
            files: Vec::new(alloc),
            out: Vec::new(alloc),
            err: Vec::new(alloc),
        }
    }
}

/// What a run begins with, and what the latest run left.
#[derive(Drop)]
pub struct Setup {
    /// The files that are there before each run.
    pub files: BTreeMap<String, Vec<u8>>,
    /// What fails in the next run.
    pub plan: Plan,
    /// The files as the latest run left them.
    pub left: Option<MemoryFiles>,
}

impl Setup {
    /// No file is there, no run has been made, and nothing fails.
    pub fn new(alloc: Global) -> Setup {
        Setup {
            files: BTreeMap::new(alloc),
            plan: Plan::new(alloc),
            left: None,
        }
    }

    /// Files in memory for a run, as they are set up.
    pub fn for_a_run(&self, alloc: Global) -> Result<MemoryFiles, Memory> {
        let mut files = MemoryFiles::new(alloc, &self.plan.files)?;
        for (path, bytes) in &self.files {
            files.with(alloc, path.as_str(), bytes)?;
        }
        Ok(files)
    }

    /// What a path holds since the latest run, if a file is there.
    pub fn left_at(&self, path: &str) -> Option<&[u8]> {
        match &self.left {
            Some(files) => files.get(path),
            None => None,
        }
    }

    /// Makes a path hold these bytes before each run, and tells how many they are.
    pub fn place(
        &mut self,
        alloc: Global,
        path: &str,
        bytes: Vec<u8>,
        out: &mut Answer,
    ) -> Option<()> {
        out.show(&bytes.len());
        out.put(" bytes");
        let path = out.got(String::from_str(alloc, path))?;
        out.got(self.files.insert(path, bytes))?;
        Some(())
    }
}
