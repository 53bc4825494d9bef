//! What a person at a server is told of its run, on standard error.
use conn_worker::Gate;
use resp_value::Words;
use std::sync::{Mutex, Wait};
use std::thread::{self, Threads};

/// Says what a person should know of a run. It has no part in what is served, and what can't be
/// written is left out.
#[derive(Drop)]
pub struct Notices<'a, R> {
    rt: &'a R,
}

impl<'a, R: Eprint> Notices<'a, R> {
    pub fn new(rt: &'a R) -> Self {
        Notices { rt }
    }

    /// The net listens at the port, and workers are about to start.
    pub fn begin(&self, port: u16, workers: u64)
    where
        R: Threads + Wait + Sync,
    {
        let _ = eprintln!(self.rt;
            "zeovalki: serves at 127.0.0.1:{port} (workers: {workers}); \
             Ctrl-C or TERM ends it at once, without its reports"
        );
        let makeable = count_makeable(self.rt, workers.saturating_sub(1)).saturating_add(1);
        if makeable < workers {
            let _ = eprintln!(self.rt;
                "zeovalki: only {makeable} of {workers} workers can be started: \
                 no more connections are served at once"
            );
        }
    }
}

impl<'a, R: Eprint> Gate for Notices<'a, R> {
    fn before(&self, _id: u64, _words: &Words) {}

    fn after(&self, _id: u64, _requests: u64) {}
}

/// How many threads, of so many, can be made beside this one at once.
fn count_makeable<R: Threads + Wait + Sync>(rt: &R, most: u64) -> u64 {
    let held = Mutex::new(());
    thread::scope(thread::scope_env(), rt, |scope| {
        let until_counted = held.lock(rt);
        let made = (0..most)
            .take_while(|_| scope.spawn(|| drop(held.lock(rt))).is_ok())
            .count();
        drop(until_counted);
        made as u64
    })
}
