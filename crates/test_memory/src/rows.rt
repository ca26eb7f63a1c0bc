//! The rows, with memory refused. Want of memory is an answer, so a row in which a call meets it goes on: what has to stand
//! after the refusal stands, the same call is made again with memory, and every other answer is the one that the row says.
//! `calls` has what has to stand after which refusal.
//!
//! | Module | What it has |
//! |---|---|
//! | `families` | each text, by the hooks of `hooks`: each request for memory of its rows is refused in its turn, and each call that is to take no memory has none. All calls of a text are counted, so that none is left out |
//! | `starved` | rows, as text, in which a call meets a refusal, and answers it |
//! | `printed` | what `print_rows` prints, and so the program `vectors`: of rows that differ; and of rows that meet a refusal, where that row differs and the others do not, and the answer is the one for which `vectors` promises the status 1; without any memory each row has its line |
//! | `faults` | subjects that are wrong, which the hooks have to find: a refused call that leaves something, one that gives another answer in place of the refusal, and one that is to allocate nothing and does |
//!
//! Not refused are a share of an `Arc` and a clone of the runtime value, which allocate nothing; one request of a call with a
//! later and larger one of it granted, since memory that is used up stays so until the call ends; and what calls are handed,
//! as wakers. Row 21 starts threads, and stands in `test_examples`.
mod families;
mod faults;
mod printed;
mod starved;
