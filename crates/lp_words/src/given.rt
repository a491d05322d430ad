//! The options of `solve` that were given.
ghost use Rattle.std.specs.Prelude.{◌≡◌, map};
ghost use Rattle.std.specs.String.{string_bytes};
ghost use Rattle.lp_words.specs.Words.{given_of, nothing_given, solve, with};

use crate::setting::{Setting, first};
use crate::wishes::Wish;
use std::mem::replace;

// The options of `solve` that were given so far.
#[derive(Clone, Copy)]
pub struct Given {
    pub workers: Option<u32>,
    pub reinverters: Option<u32>,
    pub budget: Option<u32>,
    pub report: Option<u32>,
    pub log: bool,
    pub free: bool,
}

impl Given {
    fn nothing() -> Given
        ensures { result ≡ nothing_given }
    {
        Given {
            workers: None,
            reinverters: None,
            budget: None,
            report: None,
            log: false,
            free: false,
        }
    }

    // With one more setting, unless its option was given before.
    fn with(self, setting: Setting) -> Option<Given>
        ensures { result ≡ with self setting }
    {
        let mut more = self;
        let is_again = match setting {
            Setting::Workers(count) => more.workers.replace(count).is_some(),
            Setting::Reinverters(count) => more.reinverters.replace(count).is_some(),
            Setting::Budget(count) => more.budget.replace(count).is_some(),
            Setting::Report(version) => more.report.replace(version).is_some(),
            Setting::Log => replace(&mut more.log, true),
            Setting::Free => replace(&mut more.free, true),
        };
        if is_again { None } else { Some(more) }
    }

    // The options that the words give.
    pub fn of(words: &[String]) -> Option<Given>
        ensures { result ≡ given_of (map string_bytes words.now) }
    {
        let mut given = Given::nothing();
        let mut rest = words;
        while let [word, after @ ..] = rest {
            let (setting, left) = first(word, after)?;
            given = given.with(setting)?;
            rest = left;
        }
        Some(given)
    }

    // The solve that they wish for.
    pub fn solve(self) -> Wish
        ensures { result ≡ solve self }
    {
        Wish::Solve {
            workers: self.workers.unwrap_or(4),
            reinverters: self.reinverters.unwrap_or(1),
            budget: u64::from(self.budget.unwrap_or(1_000_000)),
            log: self.log,
            free: self.free,
            report: self.report.unwrap_or(2),
        }
    }
}
