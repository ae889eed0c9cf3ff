//! Talks and starts, whose arguments are records in the stack.

ghost use Rattle.std.specs.Prelude.{◌≡◌, ℕ, ◌+◌, ◌*◌, ◌<◌, ◌≤◌, ◌^◌, IfOk, IfSome, length};
ghost use Rattle.rv_exec.specs.Calls.{branch_of, branch_at, branches_from, records_at, talk_branches, has_function, start_of, start_at, starts_from, par_act};
ghost use Rattle.rv_exec.specs.Seen.{seen};

use crate::records::stack_place;
use crate::state::State;
use al_base::NoMemory;
use al_event::{Act, Branch, Branches, Start, Starts};
use al_items::Items;
use rv_isa::image::Contents;
use std::alloc::Global;

/// The first stack word of 1 to 64 records.
fn records_at(words_each: u32, address: u32, count: u32) -> Option<u32>
    requires { words_each ≤ 4 }
    ensures place { result ≡ records_at words_each address count }
    ensures near { IfSome result (λ first. (first + words_each * count < 2 ^ 32) × (count ≤ 64)) }
{
    if count >= 1 && count <= 64 {
        stack_place(address, words_each * count)
    } else {
        None
    }
}

/// Whether the image has that function with that number of words.
fn has_function(image: &Contents, function: u32, words: u32) -> bool
    ensures { result ≡ has_function image.now function words }
{
    match image.functions.get(function as usize) {
        Some(row) => row.words == words,
        None => false,
    }
}

impl State {
    /// The branch of a record.
    fn branch_of(
        &self,
        alloc: Global,
        chan: u32,
        direction: u32,
        address: u32,
        count: u32,
    ) -> Result<Option<Branch>, NoMemory>
        ensures { IfOk result (λ branch. branch ≡ branch_of (seen self.now) chan direction address count) }
    {
        if count > 1024 {
            return Ok(None);
        }
        match direction {
            0 => Ok(match stack_place(address, count) {
                Some(_) => Some(Branch {
                    chan,
                    words: count,
                    send: None,
                }),
                None => None,
            }),
            1 => Ok(match self.stack_words(alloc, address, count)? {
                Some(words) => Some(Branch {
                    chan,
                    words: count,
                    send: Some(words),
                }),
                None => None,
            }),
            _ => Ok(None),
        }
    }

    fn branch_at(&self, alloc: Global, first: u32) -> Result<Option<Branch>, NoMemory>
        requires { first + 4 < 2 ^ 32 }
        ensures { IfOk result (λ branch. branch ≡ branch_at (seen self.now) first) }
    {
        self.branch_of(
            alloc,
            self.word(first),
            self.word(first + 1),
            self.word(first + 2),
            self.word(first + 3),
        )
    }

    /// The branches of so many records.
    fn branches_from(
        &self,
        alloc: Global,
        first: u32,
        count: u32,
    ) -> Result<Option<Branches>, NoMemory>
        requires few { count ≤ 64 }
        requires near { first + 4 * count < 2 ^ 32 }
        ensures all { IfOk result (λ branches. branches ≡ branches_from (seen self.now) first count) }
        ensures few { IfOk result (λ branches. IfSome branches (λ them. length them ≤ 64)) }
    {
        let mut branches = Items::with_capacity(alloc, count as usize)?;
        for k in 0..count {
            match self.branch_at(alloc, first + 4 * k)? {
                Some(branch) => branches.push(branch)?,
                None => return Ok(None),
            }
        }
        Ok(Some(branches))
    }

    /// The branches of the records that registers 10 and 11 name.
    pub fn talk_branches(&self, alloc: Global) -> Result<Option<Branches>, NoMemory>
        ensures all { IfOk result (λ branches. branches ≡ talk_branches (seen self.now)) }
        ensures few { IfOk result (λ branches. IfSome branches (λ them. length them ≤ 64)) }
    {
        let count = self.register(11);
        match records_at(4, self.register(10), count) {
            Some(first) => self.branches_from(alloc, first, count),
            None => Ok(None),
        }
    }

    /// The start of a function with words at an address of the stack.
    pub fn start_of(
        &self,
        alloc: Global,
        image: &Contents,
        function: u32,
        address: u32,
        count: u32,
    ) -> Result<Option<Start>, NoMemory>
        ensures { IfOk result (λ start. start ≡ start_of image.now (seen self.now) function address count) }
    {
        if !has_function(image, function, count) {
            return Ok(None);
        }
        Ok(match self.stack_words(alloc, address, count)? {
            Some(words) => Some(Start {
                code: function,
                words,
            }),
            None => None,
        })
    }

    fn start_at(
        &self,
        alloc: Global,
        image: &Contents,
        first: u32,
    ) -> Result<Option<Start>, NoMemory>
        requires { first + 3 < 2 ^ 32 }
        ensures { IfOk result (λ start. start ≡ start_at image.now (seen self.now) first) }
    {
        self.start_of(
            alloc,
            image,
            self.word(first),
            self.word(first + 1),
            self.word(first + 2),
        )
    }

    /// The starts of so many records.
    fn starts_from(
        &self,
        alloc: Global,
        image: &Contents,
        first: u32,
        count: u32,
    ) -> Result<Option<Starts>, NoMemory>
        requires few { count ≤ 64 }
        requires near { first + 3 * count < 2 ^ 32 }
        ensures { IfOk result (λ starts. starts ≡ starts_from image.now (seen self.now) first count) }
    {
        let mut starts = Items::with_capacity(alloc, count as usize)?;
        for k in 0..count {
            match self.start_at(alloc, image, first + 3 * k)? {
                Some(start) => starts.push(start)?,
                None => return Ok(None),
            }
        }
        Ok(Some(starts))
    }

    /// The starts of the records that registers 10 and 11 name.
    pub fn par_act(&self, alloc: Global, image: &Contents) -> Result<Option<Act>, NoMemory>
        ensures { IfOk result (λ act. act ≡ par_act image.now (seen self.now)) }
    {
        let count = self.register(11);
        match records_at(3, self.register(10), count) {
            Some(first) => Ok(match self.starts_from(alloc, image, first, count)? {
                Some(starts) => Some(Act::Par { starts }),
                None => None,
            }),
            None => Ok(None),
        }
    }
}
