//! What calls answer, as texts.
use std::alloc::Global;
use std::fmt::{self, Display, Formatter, Write};

/// What one call replied.
#[derive(Clone, Copy)]
pub enum Reply {
    /// `listener N`
    Listener(usize),
    /// `pending`
    Pending,
    /// `ready TAG`, or `ready` without tags
    Ready(Option<u64>),
    /// `finished`: the listener is no longer in the queue.
    Finished,
    /// `told M`, or `told M asked K` where a function made the tags
    Told(usize, Option<usize>),
    /// `refused after M`: a tag was refused, after so many were notified.
    TagRefused(usize),
    /// `dropped`
    Dropped,
    /// `discarded true` or `discarded false`: whether the listener was notified
    Discarded(bool),
    /// `removed` and what the listener was
    Removed(Left),
    /// `timeout`
    TimedOut,
    /// `total M`
    Total(usize),
    /// `isnotified true` or `isnotified false`
    IsNotified(bool),
    /// `true` or `false`
    Is(bool),
    /// `ok`
    Done,
    /// `number N`: a serial number or an identity
    Number(u64),
    /// `used up`
    UsedUp,
    /// `no memory`
    NoMemory,
    /// `invalid`: no call, none of this subject, or of a listener that never came
    Invalid,
}

/// What a removed listener was.
#[derive(Clone, Copy)]
pub enum Left {
    /// `none`
    Nobody,
    /// `created`
    Created,
    /// `task T`
    Task(usize),
    /// `task`, in a record
    AnyTask,
    /// `notified KIND TAG`, of kind `a` where it is additional, else `d`
    Notified(bool, Option<u64>),
    /// `passed N`: its notification went on to that listener.
    Passed(usize),
    /// `lost KIND TAG`
    Lost(bool, Option<u64>),
}

/// What a line answered: its replies, parted by `; `, and then what became of tasks.
#[derive(Drop)]
pub struct Answer {
    pub replies: Vec<Reply>,
    /// ` wakes T T ..`: the tasks that it woke, in order.
    pub woken: Vec<usize>,
    /// ` awake T ..`: those tasks that live on and were woken since their last poll began.
    pub awake: Vec<usize>,
    /// ` missed M`: how many woken tasks the sink had no room for.
    pub missed: usize,
}

impl Answer {
    /// An answer without a reply.
    pub(crate) fn new(alloc: Global) -> Self {
        Answer {
            replies: Vec::new(alloc),
            woken: Vec::new(alloc),
            awake: Vec::new(alloc),
            missed: 0,
        }
    }

    /// Makes it one without a reply.
    pub(crate) fn clear(&mut self) {
        self.replies.clear();
        self.woken.clear();
        self.awake.clear();
        self.missed = 0;
    }
}

/// Whether the value has that text. It allocates nothing.
pub fn reads<D: Display>(value: &D, text: &str) -> bool {
    let mut wanted = Wanted(Some(text));
    let written = write!(wanted, "{value}");
    written.is_ok() && wanted.0 == Some("")
}

// What is still to be written of a text, or nothing where something else was.
#[derive(Drop)]
struct Wanted<'t>(Option<&'t str>);

impl<'t> fmt::Write for Wanted<'t> {
    fn write_str(&mut self, part: &str) -> fmt::Result {
        self.0 = match self.0 {
            Some(wanted) => wanted.strip_prefix(part),
            None => None,
        };
        Ok(())
    }
}

impl Display for Answer {
    fn fmt<W: Write>(&self, f: &mut Formatter<W>) -> fmt::Result {
        let mut between = "";
        for reply in self.replies.iter() {
            write!(f, "{between}{reply}")?;
            between = "; ";
        }
        write_tasks(f, " wakes", self.woken.as_slice())?;
        write_tasks(f, " awake", self.awake.as_slice())?;
        if self.missed > 0 {
            write!(f, " missed {}", self.missed)?;
        }
        Ok(())
    }
}

fn write_tasks<W: Write>(f: &mut Formatter<W>, text: &str, tasks: &[usize]) -> fmt::Result {
    if !tasks.is_empty() {
        f.write_str(text)?;
    }
    for task in tasks {
        write!(f, " {task}")?;
    }
    Ok(())
}

impl Display for Reply {
    fn fmt<W: Write>(&self, f: &mut Formatter<W>) -> fmt::Result {
        match *self {
            Reply::Listener(number) => write!(f, "listener {number}"),
            Reply::Pending => f.write_str("pending"),
            Reply::Ready(tag) => write_tagged(f, "ready", tag),
            Reply::Finished => f.write_str("finished"),
            Reply::Told(told, None) => write!(f, "told {told}"),
            Reply::Told(told, Some(asked)) => write!(f, "told {told} asked {asked}"),
            Reply::TagRefused(told) => write!(f, "refused after {told}"),
            Reply::Dropped => f.write_str("dropped"),
            Reply::Discarded(was_told) => write!(f, "discarded {was_told}"),
            Reply::Removed(left) => write!(f, "removed {left}"),
            Reply::TimedOut => f.write_str("timeout"),
            Reply::Total(total) => write!(f, "total {total}"),
            Reply::IsNotified(is) => write!(f, "isnotified {is}"),
            Reply::Is(is) => write!(f, "{is}"),
            Reply::Done => f.write_str("ok"),
            Reply::Number(number) => write!(f, "number {number}"),
            Reply::UsedUp => f.write_str("used up"),
            Reply::NoMemory => f.write_str("no memory"),
            Reply::Invalid => f.write_str("invalid"),
        }
    }
}

impl Display for Left {
    fn fmt<W: Write>(&self, f: &mut Formatter<W>) -> fmt::Result {
        match *self {
            Left::Nobody => f.write_str("none"),
            Left::Created => f.write_str("created"),
            Left::Task(task) => write!(f, "task {task}"),
            Left::AnyTask => f.write_str("task"),
            Left::Notified(true, tag) => write_tagged(f, "notified a", tag),
            Left::Notified(false, tag) => write_tagged(f, "notified d", tag),
            Left::Passed(to) => write!(f, "passed {to}"),
            Left::Lost(true, tag) => write_tagged(f, "lost a", tag),
            Left::Lost(false, tag) => write_tagged(f, "lost d", tag),
        }
    }
}

fn write_tagged<W: Write>(f: &mut Formatter<W>, text: &str, tag: Option<u64>) -> fmt::Result {
    match tag {
        Some(tag) => write!(f, "{text} {tag}"),
        None => f.write_str(text),
    }
}
