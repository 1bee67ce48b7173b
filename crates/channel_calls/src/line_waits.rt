//! The lines that actors wait for, and the end of a channel.
ghost use Rattle.std.specs.Prelude.{◌≡◌, IfOk, IfSome, None, Some};
ghost use Rattle.channel_calls.specs.ChannelFaults.{IsFirst};

use crate::channel_faults::First;
use std::alloc::Global;
use std::marker::Model;
use std::mem;
use xc_base::Memory;

/// Who of those who wait has something to learn. A caller is named by its place, of which the first is 0.
#[derive(Clone, Copy)]
pub(crate) enum News {
    /// All have: the channel has ended.
    Channel,
    /// These have: lines have ended.
    Lines {
        /// Whether the driver has: the line that it waits for has ended.
        driver: bool,
        /// The caller that is the first to learn that a line has ended.
        first: Option<usize>,
        /// The caller that learns of it from one that has learned of it.
        next: Option<usize>,
    },
}

impl News {
    /// Nobody has.
    const NONE: News = News::Lines {
        driver: false,
        first: None,
        next: None,
    };
}

/// The line that the driver and each caller waits for; the first fault, once there is one; and who has something to learn.
/// Contracts see the first fault.
///
/// Of the callers that wait for a line the last learns of its end at once, and each of them, behind its next step, tells the one
/// before it. So they don't all ask for the lock at once, and who waits for the first of them, as the driver often does, sleeps
/// but once.
#[derive(Drop)]
pub(crate) struct Waits {
    first: Option<First>,
    driver: Option<u32>,
    callers: Vec<Option<u32>>,
    news: News,
}

impl Model for Waits {
    ghost use Rattle.std.specs.Prelude.{IfSome, Option};
    ghost use Rattle.channel_calls.specs.declared.channel_faults.First.{First};
    ghost use Rattle.channel_calls.specs.ChannelFaults.{IsFirst};

    ghost Value = { Option First };

    ghost view = { λ w. w.first };

    ghost invariant = { λ w. IfSome w.first IsFirst };
}

impl Waits {
    /// Nobody of so many actors waits, and no fault has come.
    pub(crate) fn new(alloc: Global, actors: usize) -> Result<Waits, Memory>
        ensures { IfOk result (λ waits. waits ≡ None) }
    {
        let callers = vec![in alloc; None; actors.saturating_sub(1)]?;
        Ok(Waits {
            first: None,
            driver: None,
            callers,
            news: News::NONE,
        })
    }

    /// The first fault.
    pub(crate) fn first(&self) -> Option<First>
        ensures kept { result ≡ self.now }
        ensures cause { IfSome result IsFirst }
    {
        self.first
    }

    /// Keeps the first fault, of which all who wait learn.
    pub(crate) fn end(&mut self, first: First)
        requires { IsFirst first }
        ensures { self.new ≡ Some first }
    {
        self.first = Some(first);
        self.news = News::Channel;
    }

    /// Notes the line that an actor waits for.
    pub(crate) fn note(&mut self, actor: u16, line: Option<u32>)
        ensures { self.new ≡ self.old }
    {
        let Some(caller) = usize::from(actor).checked_sub(1) else {
            self.driver = line;
            return;
        };
        if caller < self.callers.len() {
            self.callers[caller] = line;
        }
    }

    /// Has an actor wait no more. Where it has waited for this line, the last of the other callers that do is told next.
    pub(crate) fn pass_on(&mut self, actor: u16, line: Option<u32>)
        ensures { self.new ≡ self.old }
    {
        let Some(caller) = usize::from(actor).checked_sub(1) else {
            self.driver = None;
            return;
        };
        if caller < self.callers.len() {
            let awaited = mem::replace(&mut self.callers[caller], None);
            if let Some(line) = line
                && awaited == Some(line)
            {
                let last = self.last_caller(line);
                self.tell_next(last);
            }
        }
    }

    /// The place of the last caller that waits for the line.
    fn last_caller(&self, line: u32) -> Option<usize> {
        let mut last = None;
        for (place, awaited) in self.callers.iter().enumerate() {
            if *awaited == Some(line) {
                last = Some(place);
            }
        }
        last
    }

    /// Whether anybody waits for the line.
    pub(crate) fn is_awaited(&self, line: u32) -> bool {
        self.driver == Some(line) || self.last_caller(line).is_some()
    }

    /// The line has ended, of which who waits for it learns.
    pub(crate) fn end_line(&mut self, line: u32)
        ensures { self.new ≡ self.old }
    {
        let last = self.last_caller(line);
        let waits = self.driver == Some(line);
        if let News::Lines { driver, first, .. } = &mut self.news {
            *driver = waits;
            *first = last;
        }
    }

    /// A caller is told by the one that steps now.
    fn tell_next(&mut self, caller: Option<usize>)
        ensures { self.new ≡ self.old }
    {
        if let News::Lines { next, .. } = &mut self.news {
            *next = caller;
        }
    }

    /// Who has something to learn, and is told now.
    pub(crate) fn take_news(&mut self) -> News
        ensures { self.new ≡ self.old }
    {
        mem::replace(&mut self.news, News::NONE)
    }
}
