//! The ways through a case: which crash is taken at each crash, and which call fails at each run that fails at each call.
use crate::model::Device;
use std::alloc::{AllocError, Global};

// What was chosen at one place of a case.
#[derive(Drop)]
struct Choice {
    number: u64,
    has_next: bool,
    // How it is told.
    told: String,
}

/// One way through a case, and how far it was gone.
#[derive(Drop)]
pub struct Way {
    choices: Vec<Choice>,
    at: usize,
}

impl Way {
    /// The first way through a case.
    pub fn new(alloc: Global) -> Way {
        Way {
            choices: Vec::new(alloc),
            at: 0,
        }
    }

    /// Goes the same way again.
    pub fn restart(&mut self) {
        self.at = 0;
    }

    /// The number chosen at the next place.
    pub fn choose(&mut self, alloc: Global) -> Result<u64, AllocError> {
        if self.at >= self.choices.len() {
            self.choices.push(Choice {
                number: 0,
                has_next: false,
                told: String::new(alloc),
            })?;
        }
        let number = match self.choices.get(self.at) {
            Some(choice) => choice.number,
            None => 0,
        };
        self.at = self.at.saturating_add(1);
        Ok(number)
    }

    /// Says of the last place how its choice is told, and whether the next number can be chosen there too.
    pub fn tell(&mut self, told: String, has_next: bool) {
        if let Some(choice) = self.choices.get_mut(self.at.saturating_sub(1)) {
            choice.told = told;
            choice.has_next = has_next;
        }
    }

    /// Turns to the next way; answers false where there is none.
    pub fn turn(&mut self) -> bool {
        for _ in 0..self.choices.len() {
            if let Some(choice) = self.choices.last_mut() {
                if choice.has_next {
                    choice.number = choice.number.saturating_add(1);
                    choice.has_next = false;
                    return true;
                }
            }
            let _ = self.choices.pop();
        }
        false
    }

    /// What was chosen so far.
    pub fn told(&self, alloc: Global) -> Result<String, AllocError> {
        let mut text = String::new(alloc);
        for choice in self.choices.as_slice() {
            text.push_str(&choice.told)?;
        }
        Ok(text)
    }
}
