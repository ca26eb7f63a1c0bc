//! Recipes over locks, channels and events, a module each, as [RECIPES.md](../../../docs/RECIPES.md) shows them. The
//! program runs each once, and prints one line of what came of its calls. An error is printed to standard error, with
//! status 1. No clause says what is printed, or that a wait returns.
#![tactic(auto)]

mod awaits;
mod balance;
mod cache;
mod cell;
mod first_wait;
mod gate;
mod hands;
mod jobs;
mod limiter;
mod office;
mod pool;
mod queue;
mod readings;
mod tasks;
mod two_channels;

use awaits::{deposit, first_of, meet, read_after_write, take_two};
use balance::{Balance, deposit_later, withdraw, withdraw_as_task, withdraw_within};
use cache::{Squares, square};
use cell::{make_name, port, set_port};
use event_channel::{bounded, unbounded};
use event_locks::{Barrier, Mutex, OnceCell, RwLock, Semaphore};
use first_wait::first_wait;
use gate::{go_in, go_in_within, go_out, new_gate};
use hands::send_then_receive;
use jobs::square_each;
use limiter::{Load, run_all};
use office::Office;
use pool::Pool;
use queue::{close_gracefully, sum_of_squares};
use readings::{
    add_batches, drain, newest, next_as_task, next_within, report, report_as_task, report_if_open,
};
use std::alloc::AllocGlobal;
use std::io::Print;
use std::process::ExitCode;
use std::random::RandomSource;
use std::sync::{Arc, Wait};
use std::thread::{self, Threads};
use std::time::{Clock, Duration};
use tasks::deposit_all;
use two_channels::urgent_first;

// The square of 2^32 is too large, so a worker gives that job up.
fn run_pool<R>(rt: R) -> anyhow::Result<()>
where
    R: Threads + Wait + Clock + AllocGlobal + Print + Copy + Send + Sync + 'static,
{
    let alloc = rt.alloc();
    let pool = Pool::new(rt, alloc, 2)?;
    let nine = pool.submit(rt, alloc, 9)?;
    let large = pool.submit(rt, alloc, 1 << 32)?;
    println!(rt; "pool: {:?} {:?}", nine.wait(), large.wait())?;
    pool.finish(rt)?;
    Ok(())
}

fn run_queue<R>(rt: R) -> anyhow::Result<()>
where
    R: Threads + Wait + Clock + AllocGlobal + Print + Copy + Send + Sync + 'static,
{
    let all = sum_of_squares(rt, rt.alloc())?;
    let (sum, late) = close_gracefully(rt, rt.alloc())?;
    let late = late.map_err(|refused| (refused.reason, refused.message));
    println!(rt; "queue: {all}; {sum} {late:?}")?;
    Ok(())
}

fn run_limiter<R>(rt: R) -> anyhow::Result<()>
where
    R: Threads + Wait + Clock + AllocGlobal + Print + Copy + Send + Sync + 'static,
{
    let alloc = rt.alloc();
    let permits = Arc::new(alloc, Semaphore::new(alloc, 2))?;
    let load = Arc::new(alloc, Load::new())?;
    run_all(rt, alloc, &permits, &load, 6)?;
    println!(rt;
        "limiter: two at most {}, {} free",
        load.most() <= 2,
        permits.available()
    )?;
    Ok(())
}

fn run_cell<R>(rt: &R) -> anyhow::Result<()>
where
    R: Wait + Clock + RandomSource + AllocGlobal + Print,
{
    let alloc = rt.alloc();
    let cell = OnceCell::new(alloc);
    let failed = port(rt, alloc, &cell, "http").is_err();
    let made = port(rt, alloc, &cell, "8080")?;
    let kept = port(rt, alloc, &cell, "9090")?;
    let set = set_port(rt, alloc, &OnceCell::new(alloc), 443).unwrap_or(0);
    let name = make_name(rt, alloc, &OnceCell::new(alloc))?;
    println!(rt; "cell: {failed} {made} {kept}; {set} {name}")?;
    Ok(())
}

fn run_cache<R>(rt: &R) -> anyhow::Result<()>
where
    R: Wait + Clock + RandomSource + AllocGlobal + Print,
{
    let alloc = rt.alloc();
    let cache = RwLock::new(alloc, Squares::new(alloc));
    let first = square(rt, alloc, &cache, 7)?;
    let again = square(rt, alloc, &cache, 7)?;
    let other = square(rt, alloc, &cache, 9)?;
    println!(rt;
        "cache: {first} {again} {other}, {} kept",
        cache.into_inner().len()
    )?;
    Ok(())
}

// A withdrawal that waits for the balance. Another thread adds what the balance lacks.
fn run_balance<R>(rt: R) -> anyhow::Result<()>
where
    R: Threads + Wait + Clock + RandomSource + AllocGlobal + Print + Copy + Send + Sync + 'static,
{
    let alloc = rt.alloc();
    let balance = Arc::new(alloc, Balance::new(alloc, 10))?;
    let left = withdraw(&rt, alloc, &balance, 4)?.left;
    let late = withdraw_within(&rt, alloc, &balance, 7, Duration::from_millis(20))?;
    print!(rt; "balance: {left} {}", late.is_some())?;

    let other = deposit_later(rt, &balance, 10)?;
    let left = withdraw(&rt, alloc, &balance, 15)?.left;
    print!(rt; "; {left} of {}", other.join(&rt))?;
    let other = deposit_later(rt, &balance, 10)?;
    let left = withdraw_as_task(&rt, alloc, &balance, 8)?.left;
    println!(rt; "; {left} of {}", other.join(&rt))?;
    Ok(())
}

// A gate for two. A second thread goes in, so both places are taken.
fn run_gate<R>(rt: R) -> anyhow::Result<()>
where
    R: Threads + Wait + Clock + AllocGlobal + Print + Copy + Send + Sync + 'static,
{
    let alloc = rt.alloc();
    let gate = Arc::new(alloc, new_gate::<2>(alloc))?;
    let other = Arc::try_clone(&gate)?;
    let visitor = thread::spawn(&rt, move || go_in(&rt, alloc, &other))?;
    let first = go_in(&rt, alloc, &gate)?;
    let second = visitor.join(&rt)?;
    let third = go_in_within(&rt, alloc, &gate, Duration::from_millis(20))?;
    go_out(&rt, &gate);
    let again = go_in(&rt, alloc, &gate)?;
    println!(rt; "gate: {} {third:?}; {again}", first.max(second))?;
    Ok(())
}

// A balance, in turn with messages.
fn run_selects<R>(rt: &R) -> anyhow::Result<()>
where
    R: Wait + Clock + Clone + RandomSource + AllocGlobal + Print,
{
    let alloc = rt.alloc();
    let balance = Mutex::new(alloc, 10u64);
    print!(rt; "selects: {}", deposit(rt, alloc, &balance, 5)?)?;
    let (sender, receiver) = unbounded(rt, alloc)?;
    print!(rt; " {:?}", first_of(rt, alloc, &receiver, &balance)?)?;
    let taken = balance.try_lock(rt);
    sender.send_blocking(7)?;
    print!(rt; " {:?}", first_of(rt, alloc, &receiver, &balance)?)?;
    let limit = Duration::from_millis(20);
    let in_time = balance.lock(rt, alloc).wait_timeout(limit)?.is_some();
    drop(taken);
    let [first, second, third] = urgent_first(rt)?;
    println!(rt; " {in_time}; {first} {second} {third}")?;
    Ok(())
}

// Another thread adds the second permit.
fn run_joins<R>(rt: R) -> anyhow::Result<()>
where
    R: Threads + Wait + Clock + RandomSource + AllocGlobal + Print + Copy + Send + Sync + 'static,
{
    let alloc = rt.alloc();
    let permits = Arc::new(alloc, Semaphore::new(alloc, 1))?;
    let shared = Arc::try_clone(&permits)?;
    let other = thread::spawn(&rt, move || {
        thread::sleep(&rt, Duration::from_millis(20));
        shared.add_permits(&rt, 1);
    })?;
    let free = take_two(&rt, alloc, &permits)?;
    other.join(&rt);
    let one_leads = meet(&rt, alloc, &Barrier::new(alloc, 2))?;
    let doubled = read_after_write(&rt, alloc, &RwLock::new(alloc, 1))?;
    println!(rt; "joins: {free} free, {one_leads}; {doubled}")?;
    Ok(())
}

// Jobs of which two at most run at once.
fn run_jobs<R>(rt: &R) -> anyhow::Result<()>
where
    R: Threads + Wait + Clock + AllocGlobal + Print + Sync,
{
    let permits = Semaphore::new(rt.alloc(), 2);
    let squares = square_each(rt, rt.alloc(), &permits, &[1, 2, 3])?;
    println!(rt; "jobs: {squares:?}, {} free", permits.available())?;
    Ok(())
}

// A number that another thread sends, by a hand that knows of it.
fn run_hands<R>(rt: &R) -> anyhow::Result<()>
where
    R: Threads + Wait + Clock + Clone + AllocGlobal + Print + Sync,
{
    let (sender, receiver) = unbounded(rt, rt.alloc())?;
    let mut hand = sender.hand();
    let exchanged = send_then_receive(rt, &sender, &receiver, &mut hand, 7);
    hand.end();
    println!(rt; "hands: {:?} {:?}", exchanged.sent, exchanged.received)?;
    Ok(())
}

// An office that sells seats to a group, changes the price, and closes while a visitor waits for a seat.
fn run_office<R>(rt: R) -> anyhow::Result<()>
where
    R: Threads + Wait + Clock + AllocGlobal + Print + Copy + Send + Sync + 'static,
{
    let alloc = rt.alloc();
    let mut office = Office::new(alloc, 10, 5)?;
    let is_put_in = office.put_in_change(100);
    let sale = office.sell_later(rt, alloc, 4)?;
    let paid = sale.map(|sale| sale.join(&rt));
    let is_refused = office.sell_later(rt, alloc, 7)?.is_none();
    print!(rt; "office: {is_put_in} {paid:?} {is_refused}")?;

    office.set_price_later(rt, alloc, 6)?.join(&rt);
    let price = office.price_now(&rt);
    let (raised, left) = office.raise_price(&rt, alloc, 8)?;
    print!(rt; "; {price:?} {raised} for each of {left}")?;

    let off_sale = office.take_off_sale(usize::MAX);
    let visitor = office.visit_later(rt, alloc)?;
    let none_left = office.ask(&rt);
    office.close(&rt);
    let closed = office.ask(&rt);
    let refused = visitor.join(&rt);
    print!(rt; "; {off_sale} off sale, {none_left:?} {closed:?} {refused:?}")?;
    println!(rt; "; {:?} at the end", office.end())?;
    Ok(())
}

// Readings of which the oldest are lost, in batches, and readings one by one.
fn run_readings<R>(rt: &R) -> anyhow::Result<()>
where
    R: Wait + Clock + Clone + RandomSource + AllocGlobal + Print,
{
    let alloc = rt.alloc();
    let (sender, receiver) = bounded(rt, alloc, 6)?;
    let lost = report(&sender, 10)?;
    drop(sender);
    let (batches, sum) = add_batches(rt, alloc, &receiver)?;
    print!(rt; "readings: {lost} lost, {batches} batches of {sum}")?;

    let (sender, mut receiver) = bounded(rt, alloc, 6)?;
    report(&sender, 3)?;
    print!(rt; "; {:?}", newest(&receiver))?;
    report_as_task(rt, &sender, 4)?;
    print!(rt; " {:?}", next_as_task(rt, &mut receiver)?)?;
    let late = next_within(&receiver, Duration::from_millis(20))?;
    let weak = sender.downgrade()?;
    let is_open = report_if_open(&weak, 5)?;
    drop(sender);
    let is_still = report_if_open(&weak, 6)?;
    println!(rt;
        " {late:?}; {is_open} {is_still} {:?}",
        drain(rt, &receiver)
    )?;
    Ok(())
}

fn run<R>(rt: R) -> anyhow::Result<()>
where
    R: Threads + Wait + Clock + RandomSource + AllocGlobal + Print + Copy + Send + Sync + 'static,
{
    run_pool(rt)?;
    run_queue(rt)?;
    run_limiter(rt)?;
    run_cell(&rt)?;
    run_cache(&rt)?;
    run_balance(rt)?;
    run_gate(rt)?;
    run_selects(&rt)?;
    run_joins(rt)?;
    run_jobs(&rt)?;
    run_hands(&rt)?;
    run_office(rt)?;
    run_readings(&rt)?;
    println!(rt;
        "tasks: the balance is {}",
        deposit_all(&rt, rt.alloc(), 4)?
    )?;
    println!(rt; "event: the tag is {}", first_wait(rt, rt.alloc())?)?;
    Ok(())
}

fn main(rt: HostRuntime) -> ExitCode {
    match run(rt) {
        Ok(()) => ExitCode::SUCCESS,
        Err(error) => {
            let _ = rt.eprintln(error);
            ExitCode::FAILURE
        }
    }
}
