//! Where the actors of a channel sleep.
use crate::line_waits::News;
use std::alloc::Global;
use std::sync::Condvar;
use xc_base::Memory;

/// A condition variable for each actor, on which it sleeps until the line that it waits for has ended.
#[derive(Drop)]
pub(crate) struct Sleepers {
    driver: Condvar,
    callers: Vec<Condvar>,
}

impl Sleepers {
    /// One for the driver, and one for each of so many callers.
    pub(crate) fn new(alloc: Global, callers: u16) -> Result<Sleepers, Memory> {
        let mut told = Vec::new(alloc);
        for _ in 0..callers {
            told.push(Condvar::new())?;
        }
        Ok(Sleepers {
            driver: Condvar::new(),
            callers: told,
        })
    }

    /// That of an actor: of the driver, which is 0, or of a caller, from 1.
    pub(crate) fn told(&self, actor: u16) -> &Condvar {
        let Some(caller) = usize::from(actor).checked_sub(1) else {
            return &self.driver;
        };
        self.callers.get(caller).unwrap_or(&self.driver)
    }

    /// Wakes those who have something to learn.
    pub(crate) fn wake(&self, news: News) {
        match news {
            News::Channel => self.wake_all(),
            News::Lines {
                driver,
                first,
                next,
            } => {
                if driver {
                    self.driver.notify_all();
                }
                self.wake_caller(first);
                self.wake_caller(next);
            }
        }
    }

    /// Wakes the driver and each caller.
    fn wake_all(&self) {
        self.driver.notify_all();
        for told in &self.callers {
            told.notify_all();
        }
    }

    /// Wakes a caller, of which the first has the place 0.
    fn wake_caller(&self, caller: Option<usize>) {
        if let Some(told) = caller.and_then(|place| self.callers.get(place)) {
            told.notify_all();
        }
    }
}
