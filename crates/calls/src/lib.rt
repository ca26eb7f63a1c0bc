//! Calls on queues and events and their answers, as text: one language for the worked rows, for tables of tests, and for
//! the programs `vectors` and `soak`. [`worlds`] has schedules of models as text.
//!
//! A row is a title, a head and lines, up to an empty line:
//!
//! ```text
//! A key says nothing of the listener that came after its own, whatever slot that one has.
//! row 14 list
//! listen -> listener 0
//! remove 0 0 -> removed created
//! listen -> listener 1
//! poll 0 1 -> finished
//! ```
//!
//! The head has a number, and the subject of the calls. Here it is `list`, `two lists` or `list tags`: queues of the crate
//! `event_queue`, [`Queues`]. Crates above have events ([`Subject`]). Listeners are numbered from 0 as they come, over all
//! queues or events of a row, and tasks are numbers. Single spaces part words. COUNT is a number or `max`.
//!
//! A queue gives its listeners serial numbers without a gap, from the first one on that it began with. To each `listen` it
//! answers `number S` where a listener gets another serial than the next one, whatever calls were refused before.
//!
//! Call|Answers
//! ---|---
//! `listen`, `slisten`|`listener N`, `used up`, `no memory`
//! `poll N TASK`, `await N TASK`, `hand N TASK`|`pending`, `ready [TAG]`, `finished`
//! `notify COUNT KIND [TAG]`, `notify COUNT KIND by name`|`told M`, `refused after M`; KIND is `d`, `a`, `dr` or `ar`
//! `notifyf COUNT KIND TAG`|`told M asked K`: a function makes TAG and those after it
//! `drop N`; `discard N`|`dropped`; `discarded true` or `false`
//! `remove N 0`, `remove N 1`|`removed` and `none`, `created`, `task T`, `notified KIND [TAG]`, `passed N` or `lost KIND [TAG]`
//! `wait N`, `timeout N MILLISECONDS`, `timeout N max`, `expire N`|`ready [TAG]`, `timeout`, `finished`, `no memory`
//! `total`; `isnotified`|`total M`; `isnotified true` or `false`
//! `told N`, `has_room M`, `same N M`, `listens N E`|`true`, `false`
//! `serial N`, `id`|`number S`, `used up`
//! `at N`, `start SERIAL`, `reserve M`, `room M`, `ids FIRST`|`ok`, `no memory`
//! `run CALL; CALL; ..`|the replies, parted by `; `. There a notification is `tagged COUNT KIND TAG TAG ..`
//! `replays ENTRY; ENTRY; ..`|`true`, `false`
//! `fits TYPE INTEGER`|`true`, `false`, of `u8`, `i32`, `usize`, `i128` or `u128`
//! `starved CALL`|what it answers with no memory
//!
//! [`Call`] and [`Act`] say what each means. Behind the replies stand ` wakes T T ..`, the tasks that the call woke, in
//! order; ` awake T ..`, those tasks of `await` and `hand` that were woken since their last poll began; and ` missed M`,
//! how many woken tasks had no room. What is no call of the subject, or names a listener that is not there, answers
//! `invalid`.
//!
//! An answer is never parsed: what it displays is compared with the text ([`reads`]), which allocates nothing. A line that
//! answers otherwise is a [`Difference`]: `row 14, line 4: poll 0 1 -> pending: but it answers finished`. So is one that
//! there is no memory to try, and a head, line 0, that names no subject.
//!
//! An [`Interpreter`] makes the calls, with a [`Hook`] round each. What a call is handed is made before, outside the hook:
//! wakers, the calls of a run, room to keep what it gives. A hook learns what the call may ask memory for, and where it was
//! refused, whether what has to stand does; then the same call may be made again. So *the N-th request is refused* and
//! *this call takes no memory* are hooks over the same text. What has to stand is the [`shape`](Subject::shape) of the
//! subject. After a refusal within a run, the other insertions, and they alone, are in the queue, under serials with no
//! gap; then the whole run is made again, on a new queue. So a run with insertions comes first on its queue.
//!
//! No clause speaks of texts: rows show it when they run.
#![tactic(auto)]

mod answer;
mod call;
mod hook;
mod interpreter;
mod queues;
mod row;
mod subject;
mod tag;
pub mod worlds;

pub use answer::{Answer, Left, Reply, reads};
pub use call::{Act, Call, Kind, Notice, Tags};
pub use hook::{Hook, Request, Undisturbed};
pub use interpreter::Interpreter;
pub use queues::Queues;
pub use row::{Difference, Row};
pub use subject::Subject;
pub use tag::{Notifiable, Tag, notify};
