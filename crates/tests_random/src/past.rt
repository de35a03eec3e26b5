//! The pages after each prefix of the acts.

use crate::pages::is_same;
use page_codec::Page;
use std::alloc::{AllocError, Global};

/// The pages that an index was opened with, and each act since.
#[derive(Drop)]
pub struct Past {
    alloc: Global,
    start: Vec<Page>,
    /// The pages that each act changed, as it left them.
    acts: Vec<Vec<Page>>,
    now: Vec<Page>,
}

fn copied(alloc: Global, pages: &[Page]) -> Result<Vec<Page>, AllocError> {
    let mut copies = Vec::new(alloc);
    for page in pages {
        copies.push(page.copy())?;
    }
    Ok(copies)
}

/// Puts these pages at their blocks.
fn place(pages: &mut Vec<Page>, changed: &[Page]) -> Result<(), AllocError> {
    for page in changed {
        match pages.get_mut(page.block as usize) {
            Some(there) => *there = page.copy(),
            None => pages.push(page.copy())?,
        }
    }
    Ok(())
}

/// Whether they are the same pages, in the same order.
fn are_same(a: &[Page], b: &[Page]) -> bool {
    a.len() == b.len() && (0..a.len()).all(|at| is_same(&a[at], &b[at]))
}

impl Past {
    /// No act yet.
    pub fn new(alloc: Global, start: Vec<Page>) -> Result<Past, AllocError> {
        let now = copied(alloc, &start)?;
        Ok(Past {
            alloc,
            start,
            acts: Vec::new(alloc),
            now,
        })
    }

    /// How many acts there were.
    pub fn acts(&self) -> usize {
        self.acts.len()
    }

    /// The pages when they were opened.
    pub fn start(&self) -> &[Page] {
        self.start.as_slice()
    }

    /// The page of a block after all acts.
    pub fn page(&self, block: u32) -> Option<&Page> {
        self.now.get(block as usize)
    }

    /// An act more, which leaves these pages.
    pub fn adds(&mut self, changed: Vec<Page>) -> Result<(), AllocError> {
        place(&mut self.now, &changed)?;
        self.acts.push(changed)?;
        Ok(())
    }

    /// An act more, after which these are all pages.
    pub fn leads_to(&mut self, pages: &[Page]) -> Result<(), AllocError> {
        let mut changed = Vec::new(self.alloc);
        for page in pages {
            let is_changed = match self.page(page.block) {
                Some(before) => !is_same(before, page),
                None => true,
            };
            if is_changed {
                changed.push(page.copy())?;
            }
        }
        self.adds(changed)
    }

    /// How many acts the least prefix has that leaves exactly these pages, of those with at least so many
    /// acts; None where none does.
    pub fn part_of(&self, found: &[Page], least: usize) -> Result<Option<usize>, AllocError> {
        let mut pages = copied(self.alloc, &self.start)?;
        for part in 0..self.acts.len() + 1 {
            if part >= least && are_same(&pages, found) {
                return Ok(Some(part));
            }
            if let Some(changed) = self.acts.get(part) {
                place(&mut pages, changed)?;
            }
        }
        Ok(None)
    }
}
