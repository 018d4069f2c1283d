// A fixed list of calls on the topic cache. Each answer is printed, a line a call; what must come out stands in the file stdout.
#![tactic(auto)]

ghost use Rattle.std.specs.Prelude.{◌≤◌};

use changes::CacheChange;
use dds_cache::{Added, History, KeepLimits, TopicCache};
use std::io::Stdout;

// Where answers go, the lent words and the cache over them.
#[derive(Drop)]
struct Replay {
    output: Stdout,
    words: [u64; CacheChange::TABLE],
    cache: TopicCache,
}

// ---- changes

// Writers that differ in their first or last byte alone.
fn writer(first: u8, last: u8) -> [u8; 16] {
    [first, 2, 3, 4, 5, 6, 7, 8, 9, 10, 11, 12, 13, 14, 15, last]
}

fn change(sequence_number: u64, payload_size: u32) -> CacheChange {
    CacheChange {
        writer_guid: writer(1, 16),
        sequence_number,
        handle: 0,
        payload_size,
    }
}

// ---- printing

// The keys of the first n results.
fn print_keys(output: Stdout, out: &[u64], n: usize) {
    for i in 0..n {
        let key = changes::kept_at(out, i).key;
        let _ = print!(output; " {key}");
    }
}

// The place past the answer.
fn print_past(output: Stdout, out: &[u64], n: usize) {
    if let Some(past) = out.get(n.saturating_mul(CacheChange::WORDS)) {
        let _ = print!(output; " then {past}");
    }
    let _ = println!(output; "");
}

// Key, sequence number, handle, payload size, and the writer's first and last byte.
fn print_kept(output: Stdout, out: &[u64], i: usize) {
    let kept = changes::kept_at(out, i);
    let change = kept.change;
    let [first, .., last] = change.writer_guid;
    let _ = print!(output; "{} {} ", kept.key, change.sequence_number);
    let _ = println!(output; "{} {} {first} {last}", change.handle, change.payload_size);
}

fn print_added(output: Stdout, answer: Added) {
    let _ = match answer {
        Added::Key(key) => print!(output; "key {key}"),
        Added::HeldAlready => print!(output; "held already"),
    };
}

fn fresh() -> TopicCache {
    TopicCache {
        limits: KeepLimits::default(),
        last_added_instant: keys::topic(),
        held: 0,
    }
}

impl Replay {
    fn print_held(&self) {
        let _ = println!(self.output; " held {}", self.cache.held);
    }

    fn print_limits(&self) {
        let most = self.cache.limits.max_keep_samples;
        let _ = match self.cache.limits.min_keep_samples {
            History::KeepAll => print!(self.output; "depth all most {most}"),
            History::KeepLast(depth) => print!(self.output; "depth {depth} most {most}"),
        };
        self.print_held();
    }

    // ---- calls

    fn create(&mut self, history: History, max_samples: u32) {
        match TopicCache::new(history, max_samples, &mut self.words) {
            Ok(cache) => {
                self.cache = cache;
                self.print_limits();
            }
            Err(why) => {
                let _ = println!(self.output; "refused {why}");
            }
        }
    }

    // Not printed.
    fn start(&mut self, history: History, max_samples: u32) {
        self.cache = TopicCache::new(history, max_samples, &mut self.words).unwrap_or(fresh());
    }

    fn update(&mut self, history: History, max_samples: u32) {
        match self.cache.update_keep_limits(history, max_samples) {
            Ok(cache) => self.cache = cache,
            Err(why) => {
                let _ = print!(self.output; "refused {why} ");
            }
        }
        self.print_limits();
    }

    fn remove(&mut self, before: u64) {
        self.cache = self.cache.remove_changes_before(&mut self.words, before);
        let _ = print!(self.output; "ok");
        self.print_held();
    }

    fn add(&mut self, instant: u64, change: CacheChange) {
        match self.cache.add_change(&mut self.words, instant, change) {
            Ok(outcome) => {
                self.cache = outcome.cache;
                print_added(self.output, outcome.answer);
            }
            Err(why) => {
                let _ = print!(self.output; "refused {why}");
            }
        }
        self.print_held();
    }

    fn add_all(&mut self, calls: &[(u64, CacheChange)]) {
        for (instant, change) in calls {
            self.add(*instant, *change);
        }
    }

    // Not printed.
    fn quiet(&mut self, instant: u64, change: CacheChange) {
        if let Ok(outcome) = self.cache.add_change(&mut self.words, instant, change) {
            self.cache = outcome.cache;
        }
    }

    // Changes at the times step * first to step * last, under odd sequence numbers: no collection but for a full table.
    fn fill(&mut self, step: u64, first: u64, last: u64)
        requires { (step ≤ 10) × (1 ≤ first) × (last ≤ 1000) }
    {
        for t in first..last + 1 {
            self.quiet(step * t, change(2 * t - 1, 0));
        }
    }

    // ---- the range

    fn look_into(&self, start: u64, end: u64, out: &mut [u64]) {
        match self
            .cache
            .get_changes_in_range_best_effort(&self.words, start, end, out)
        {
            Ok(n) => {
                let _ = print!(self.output; "found {n} keys");
                print_keys(self.output, out, n);
                print_past(self.output, out, n);
            }
            Err(why) => {
                let _ = print!(self.output; "refused {why}");
                print_past(self.output, out, 0);
            }
        }
    }

    fn look(&self, start: u64, end: u64) {
        self.look_into(start, end, &mut [7; 60]);
    }

    // ---- the list of calls

    fn limits(&mut self) {
        let _ = println!(self.output; "limits");
        let default = KeepLimits::default();
        for (history, max_samples) in [
            (History::KeepLast(0), 64),
            (History::KeepLast(257), 64),
            (History::KeepLast(1), 0),
            (History::KeepAll, 257),
            (History::KeepLast(256), 1),
            (History::KeepAll, 1),
            (default.min_keep_samples, default.max_keep_samples),
        ] {
            self.create(history, max_samples);
        }
    }

    fn keys(&mut self) {
        let _ = println!(self.output; "keys");
        self.start(History::KeepLast(1), 64);
        self.add_all(&[
            (0, change(1, 0)),
            (1, change(2, 0)),
            (
                100,
                CacheChange {
                    handle: 30,
                    ..change(3, 1024)
                },
            ),
            (
                50,
                CacheChange {
                    writer_guid: writer(1, 99),
                    handle: 40,
                    ..change(3, 0)
                },
            ),
            (
                60,
                CacheChange {
                    writer_guid: writer(98, 16),
                    handle: 50,
                    ..change(3, 65537)
                },
            ),
            (500, change(3, 0)),
            (500, change(0, 0)),
            (500, change(9_223_372_036_854_775_808, 0)),
            (200, change(9_223_372_036_854_775_807, 0)),
        ]);
    }

    fn range(&self) {
        self.look(1, 101);
        self.look(101, 101);
        self.look(101, 100);
        self.look_into(0, u64::MAX, &mut [7; 35]);
        let mut exact = [7; 36];
        self.look_into(0, u64::MAX, &mut exact);
        for i in 2..5 {
            print_kept(self.output, &exact, i);
        }
    }

    fn removal(&mut self) {
        let _ = println!(self.output; "removal");
        self.start(History::KeepLast(3), 5);
        self.fill(10, 1, 7);
        for before in [0, 1000, 1000] {
            self.remove(before);
        }
        self.look(0, u64::MAX);
        self.add(80, change(15, 0));
        for before in [50, 51] {
            self.remove(before);
        }
        self.look(0, u64::MAX);
        self.start(History::KeepAll, 2);
        self.fill(10, 1, 3);
        for before in [1000, 1000] {
            self.remove(before);
        }
    }

    fn collection(&mut self) {
        let _ = println!(self.output; "collection");
        self.start(History::KeepLast(1), 2);
        self.fill(1, 1, 2);
        self.add_all(&[
            (3, change(5, 0)),
            (4, change(64, 1024)),
            (5, change(65, 1024)),
            (6, change(8, 1024)),
            (7, change(16, 1025)),
            (8, change(17, 1025)),
            (9, change(24, 65536)),
            (10, change(25, 65536)),
            (11, change(27, 65537)),
            (12, change(24, 65537)),
            (13, change(27, 65537)),
        ]);
    }

    fn last_key(&mut self) {
        let _ = println!(self.output; "last key");
        self.add_all(&[(u64::MAX, change(101, 0)), (14, change(102, 65537))]);
        self.look(0, u64::MAX);
        self.add_all(&[(14, change(101, 65537)), (14, change(103, 0))]);
    }

    fn updates(&mut self) {
        let _ = println!(self.output; "update");
        for (history, max_samples) in [
            (History::KeepLast(3), 1),
            (History::KeepLast(2), 2),
            (History::KeepLast(257), 10),
            (History::KeepAll, 1),
            (History::KeepLast(256), 100),
            (History::KeepAll, 0),
        ] {
            self.update(history, max_samples);
        }
    }

    fn full(&mut self) {
        let _ = println!(self.output; "full");
        self.start(History::KeepAll, 256);
        self.fill(1, 1, 383);
        self.add_all(&[(384, change(767, 0)), (385, change(767, 0))]);
        self.fill(1, 385, 511);
        self.add_all(&[(512, change(1023, 0)), (513, change(1, 0))]);
        self.look(511, 513);
        self.remove(u64::MAX);
    }
}

fn main(rt: HostRuntime) {
    let mut replay = Replay {
        output: rt.stdout(),
        words: [0; CacheChange::TABLE],
        cache: fresh(),
    };
    replay.limits();
    replay.keys();
    replay.range();
    replay.removal();
    replay.collection();
    replay.last_key();
    replay.updates();
    replay.full();
}
