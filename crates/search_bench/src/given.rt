//! The patterns and lines that were given for searches.

use crate::fields::{plain, plain_text};
use onig_parse::{PatternReader, read_pattern};
use onig_scan::Scanner;
use pattern_tree::Pattern;
use std::alloc::{AllocError, Global};
use std::rc::Rc;

/// A pattern that was read, with the number by which it is told.
#[derive(Drop)]
pub(crate) struct Named {
    pub(crate) number: u64,
    pub(crate) pattern: Rc<Pattern>,
}

/// The patterns and lines that were given.
#[derive(Drop)]
pub(crate) struct Given {
    pub(crate) texts: Vec<String>,
    pub(crate) patterns: Vec<Named>,
    pub(crate) lines: Vec<Vec<char>>,
}

impl Given {
    pub(crate) fn new(alloc: Global) -> Given {
        Given {
            texts: Vec::new(alloc),
            patterns: Vec::new(alloc),
            lines: Vec::new(alloc),
        }
    }

    pub(crate) fn clear(&mut self) {
        self.texts.clear();
        self.patterns.clear();
        self.lines.clear();
    }

    /// Whether the pattern was read.
    pub(crate) fn add_pattern(
        &mut self,
        alloc: Global,
        number: u64,
        field: &str,
    ) -> Result<bool, AllocError> {
        let text = plain_text(alloc, field)?;
        let Ok(pattern) = read_pattern(alloc, text.as_str()) else {
            return Ok(false);
        };
        let pattern = Rc::new(alloc, pattern)?;
        self.texts.push(text)?;
        self.patterns.push(Named { number, pattern })?;
        Ok(true)
    }

    pub(crate) fn add_line(&mut self, alloc: Global, field: &str) -> Result<(), AllocError> {
        let line = plain(alloc, field)?;
        self.lines.push(line)?;
        Ok(())
    }

    /// All patterns as one scanner.
    pub(crate) fn scanner(&self, alloc: Global) -> Result<Scanner, AllocError> {
        let mut patterns = Vec::new(alloc);
        for named in &self.patterns {
            if patterns.len() < u32::MAX as usize {
                patterns.push(named.pattern.clone()?)?;
            }
        }
        Scanner::new(alloc, patterns.as_slice())
    }

    /// The numbers of the patterns.
    pub(crate) fn numbers(&self, alloc: Global) -> Result<Vec<u64>, AllocError> {
        let mut numbers = Vec::new(alloc);
        for named in &self.patterns {
            numbers.push(named.number)?;
        }
        Ok(numbers)
    }

    /// Reads all patterns anew, so often, by one reader each time. The answer is how many were read.
    pub(crate) fn read_again(&self, alloc: Global, times: u64) -> u64 {
        let mut read = 0u64;
        for _ in 0..times {
            let mut reader = PatternReader::new(alloc);
            for text in &self.texts {
                if reader.read(text.as_str()).is_ok() {
                    read = read.saturating_add(1);
                }
            }
        }
        read
    }
}
