// The load of bench/SPEED-load.md over the proved cache. The set-up comes from standard input, so that no compiler can fold it in; the sums of what
// the cache answered go to standard output.
#![tactic(auto)]

ghost use Rattle.std.specs.Prelude.{◌<◌, ◌≤◌};

use datasample_cache::Added;
use index::{Cache, Index};
use infos::InfoWords;
use refusals::Refusal;
use sampleinfo::Sample;
use std::io::{Read, Stdin, Stdout};

// How many instances and samples there can be, and how many pairs a read has.
const ROWS: usize = Cache::ROWS;

const SLOTS: usize = Cache::SLOTS;

const PAIRS: usize = 4;

// ---- the start

#[derive(Clone, Copy)]
struct Load {
    mode: u8,
    keep: i32,
    instances: u16,
    operations: u32,
    seed: u32,
}

fn load_of(input: &[u8]) -> Load {
    Load {
        mode: records::byte(input, 4, 0),
        keep: records::i32_at(input, 5),
        instances: records::u16_at(input, 9),
        operations: records::u32_at(input, 11),
        seed: records::u32_at(input, 15),
    }
}

fn read_load(mut input: Stdin) -> Load {
    let mut load = [0u8; 19];
    let _ = input.read_exact(&mut load);
    load_of(&load)
}

// The place of an instance.
#[derive(Clone, Copy)]
struct Row {
    at: usize,
    ghost in_range: { at < 32 },
}

impl Row {
    fn name(self) -> u64 {
        1000 * (11 * self.at as u64 % 32) + 7
    }
}

// How many instances there are, and how many keys of each the driver keeps: every accepted set-up lies within these bounds.
#[derive(Clone, Copy)]
struct Sizes {
    instances: usize,
    depth: usize,
    ghost rows: { (0 < instances) × (instances ≤ 32) },
    ghost ring: { (0 < depth) × (depth ≤ 256) },
}

impl Sizes {
    fn of(load: Load) -> Option<Sizes> {
        let instances = usize::from(load.instances);
        let depth = usize::try_from(load.keep).ok()?.max(1);
        if instances == 0 || ROWS < instances || SLOTS < depth {
            return None;
        }
        Some(Sizes { instances, depth })
    }

    // The adds that fill the rings.
    fn warm_up(self) -> u64
        ensures { result ≤ 8192 }
    {
        self.instances as u64 * self.depth as u64
    }

    fn row(self, r: u64) -> Row {
        Row {
            at: r as usize % self.instances,
        }
    }

    fn place(self, r: u64) -> usize
        ensures { result < 256 }
    {
        r as usize % self.depth
    }
}

// ---- numbers

// An order-sensitive sum that costs two additions a number.
#[derive(Clone, Copy)]
struct Sum {
    a: u64,
    b: u64,
}

impl Sum {
    fn put(self, v: u64) -> Sum {
        let a = self.a.wrapping_add(v);
        Sum {
            a,
            b: self.b.wrapping_add(a),
        }
    }

    fn put_rank(self, rank: u64) -> Sum {
        self.put(rank.wrapping_add(2147483648))
    }

    // An info, by its words: all that stand in front of the ranks of generations, these, the sequence number and the writer's first byte.
    fn put_info(self, info: &[u64]) -> Sum {
        match info {
            [
                handle,
                kind,
                sample,
                view,
                instance,
                disposed,
                no_writers,
                rank,
                generation,
                absolute,
                sequence,
                writer,
                ..
            ] => {
                self.put(*handle)
                    .put(*kind)
                    .put(*sample)
                    .put(*view)
                    .put(*instance)
                    .put(*disposed)
                    .put(*no_writers)
                    .put(*rank)
                    .put_rank(*generation)
                    .put_rank(*absolute)
                    .put(*sequence)
                    .put(*writer)
            }
            _ => self,
        }
    }
}

// ---- the driver

#[derive(Drop)]
struct Driver {
    sizes: Sizes,
    // the number drawn last
    x: u32,
    time: u64,
    // also how many adds there were
    sequence: u64,
    // what the cache answered: keys and infos, and slots and handles
    sum: Sum,
    own: Sum,
    // how many adds each instance had, and the last keys that these were answered
    counts: [u64; ROWS],
    recent: [[u64; SLOTS]; ROWS],
    // the pairs of a read, and the words of its infos
    list: [u64; 2 * PAIRS],
    infos: [u64; PAIRS * InfoWords::WORDS],
}

impl Driver {
    fn new(sizes: Sizes, seed: u32) -> Driver {
        let none = Sum { a: 0, b: 0 };
        Driver {
            sizes,
            x: seed,
            time: 0,
            sequence: 0,
            sum: none,
            own: none,
            counts: [0; ROWS],
            recent: [[0; SLOTS]; ROWS],
            list: [0; 2 * PAIRS],
            infos: [0; PAIRS * InfoWords::WORDS],
        }
    }

    fn draw(&mut self) -> u64 {
        let x = u64::from(self.x) * 48271 % 2147483647;
        self.x = x as u32;
        x
    }

    // The instance that is added to: in the warm-up, where every step is an add, each in turn; then a drawn one.
    fn target(&mut self, warm_up: bool) -> Row {
        let r = if warm_up { self.sequence } else { self.draw() };
        let sizes = self.sizes;
        sizes.row(r)
    }

    // The key that an add to this instance was answered.
    fn keep_key(&mut self, row: Row, key: u64) {
        let sizes = self.sizes;
        let count = self.counts[row.at];
        self.recent[row.at][sizes.place(count)] = key;
        self.counts[row.at] = count.wrapping_add(1);
    }

    fn put_added(&mut self, row: Row, added: Added) {
        self.keep_key(row, added.key);
        self.sum = self.sum.put(added.key);
        let handle = added.evicted.map_or(0, |handle| u64::from(handle) + 1);
        self.own = self.own.put(added.slot as u64).put(handle);
    }

    // An add to this instance.
    fn add(&mut self, index: &mut Index, t: &mut [Sample], row: Row) -> Result<(), Refusal> {
        let r = self.draw();
        self.time = self.time.wrapping_add(r % 4);
        self.sequence = self.sequence.wrapping_add(1);
        let sequence = self.sequence;
        let kind = if r / 4 % 16 == 0 { 2 } else { 1 };
        let handle = (sequence % 4294967296) as u32;
        let added = datasample_cache::add(
            index,
            t,
            row.name(),
            [row.at as u8; 16],
            sequence,
            self.time,
            kind,
            handle,
        )?;
        self.put_added(row, added);
        Ok(())
    }

    // The list of a read; the answer is how many words it has.
    fn draw_list(&mut self) -> usize
        ensures { result ≤ 8 }
    {
        let r = self.draw();
        let sizes = self.sizes;
        let pairs = 1 + r as usize % PAIRS;
        let first = sizes.row(r / 4);
        let place = sizes.place(r / 1024);
        for p in 0..pairs {
            let row = sizes.row((first.at + 5 * p) as u64);
            let at = sizes.place((place + 3 * p) as u64);
            self.list[2 * p] = self.recent[row.at][at];
            self.list[2 * p + 1] = row.name();
        }
        2 * pairs
    }

    // A read of drawn pairs.
    fn read(&mut self, index: &mut Index, t: &mut [Sample]) -> Result<(), Refusal> {
        let words = self.draw_list();
        let list = &self.list[..words];
        let n = datasample_access::read_by_keys(index, t, list, &mut self.infos)?;
        self.put_infos(n);
        Ok(())
    }

    fn put_infos(&mut self, n: usize) {
        self.sum = self
            .infos
            .chunks_exact(InfoWords::WORDS)
            .take(n)
            .fold(self.sum, |sum, info| sum.put_info(info));
    }
}

// ---- the run

// The sums of what the cache answered: keys and infos, and slots and handles.
fn run(load: Load, t: &mut [Sample]) -> Result<(Sum, Sum), Refusal> {
    let mut index = datasample_cache::set_up(t, load.mode, load.keep, load.instances)?;
    let sizes = Sizes::of(load).ok_or(Refusal::OutOfBounds)?;
    let mut driver = Driver::new(sizes, load.seed);
    let warm_up = driver.sizes.warm_up();
    for k in 0..warm_up + u64::from(load.operations) {
        if warm_up <= k && (k - warm_up) % 5 == 4 {
            driver.read(&mut index, t)?;
        } else {
            let row = driver.target(k < warm_up);
            driver.add(&mut index, t, row)?;
        }
    }
    Ok((driver.sum, driver.own))
}

fn print_sum(output: Stdout, title: &str, sum: Sum) {
    let Sum { a, b } = sum;
    let _ = println!(output; "{title} {a} {b}");
}

// "A program that meets a refusal prints `refused` and stops."
fn main(rt: HostRuntime) {
    let output = rt.stdout();
    let load = read_load(rt.stdin());
    let empty = Sample::empty();
    let mut t = [empty; SLOTS];
    match run(load, &mut t) {
        Ok((sum, own)) => {
            print_sum(output, "sum", sum);
            print_sum(output, "own", own);
        }
        Err(_) => {
            let _ = output.write_all(b"refused\n");
        }
    }
}
