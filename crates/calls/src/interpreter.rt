//! Makes the calls of a text, with a hook round each.
use crate::answer::{Answer, Reply};
use crate::call::Call;
use crate::hook::{Hook, Request};
use crate::subject::Subject;
use event_queue::IntoNotification;
use std::alloc::{AllocError, Global};
use std::str::FromStr;

/// Makes the calls of a text on a subject.
#[derive(Drop)]
pub struct Interpreter<'h, S, H> {
    subject: S,
    hook: &'h mut H,
    answer: Answer,
}

impl<'h, S: Subject + Drop, H: Hook> Interpreter<'h, S, H> {
    /// One that makes them on this subject, with this hook.
    pub fn new(alloc: Global, subject: S, hook: &'h mut H) -> Self {
        Interpreter {
            subject,
            hook,
            answer: Answer::new(alloc),
        }
    }

    /// Makes later calls on this subject.
    pub fn restart(&mut self, subject: S) {
        self.subject = subject;
    }

    /// What the call of this line answers. The error is that there was no memory for what the call is handed, or for its
    /// answer.
    pub fn answer(&mut self, line: &str) -> Result<&Answer, AllocError> {
        self.answer.clear();
        let starved = line.strip_prefix("starved ");
        match Call::read(starved.unwrap_or(line)) {
            None => self.answer.replies.push(Reply::Invalid)?,
            Some(Call::Fits(name, integer)) => {
                let reply = self.fits(name, integer);
                self.answer.replies.push(reply)?;
            }
            Some(call) => {
                self.subject.prepare(call)?;
                let reply = match starved {
                    Some(_) => self.make_starved(call),
                    None => self.make(call)?,
                };
                self.answer.replies.push(reply)?;
                self.subject.note(&mut self.answer)?;
            }
        }
        Ok(&self.answer)
    }

    // Makes the call, and again where it was refused memory and the hook says so.
    fn make(&mut self, call: Call<'_>) -> Result<Reply, AllocError> {
        let Some(request) = self.subject.request(call) else {
            return Ok(self.make_once(call, None));
        };
        let before = self.subject.shape();
        let reply = self.make_once(call, Some(request));
        let refused = match reply {
            Reply::NoMemory => Some((request, self.subject.stands(call, before))),
            _ => self.subject.refused_within(),
        };
        match refused {
            Some((request, stands)) if self.hook.refused(request, stands) => {
                self.subject.prepare_again(call)?;
                Ok(self.make_once(call, Some(request)))
            }
            _ => Ok(reply),
        }
    }

    fn make_once(&mut self, call: Call<'_>, request: Option<Request>) -> Reply {
        self.hook.before(request);
        let reply = self.subject.make(call);
        self.hook.after();
        reply
    }

    // Makes the call without memory, where the hook can take it.
    fn make_starved(&mut self, call: Call<'_>) -> Reply {
        let mut reply = Reply::Invalid;
        if self.hook.starve() {
            reply = self.subject.make(call);
        }
        self.hook.feed();
        reply
    }

    fn fits(&mut self, name: &str, integer: &str) -> Reply {
        match name {
            "u8" => self.fits_as::<u8>(integer),
            "i32" => self.fits_as::<i32>(integer),
            "usize" => self.fits_as::<usize>(integer),
            "i128" => self.fits_as::<i128>(integer),
            "u128" => self.fits_as::<u128>(integer),
            _ => Reply::Invalid,
        }
    }

    fn fits_as<N: IntoNotification + FromStr + Drop>(&mut self, integer: &str) -> Reply
    where
        N::Err: Drop,
    {
        let Ok(n) = integer.parse::<N>() else {
            return Reply::Invalid;
        };
        self.hook.before(None);
        let fits = n.fits();
        self.hook.after();
        Reply::Is(fits)
    }
}
