//! The queue whose time is taken.

ghost use Rattle.std.specs.Prelude.{◌≡◌, ◌<◌, ◌≤◌, ◌+◌, ◌*◌, ◌/◌, IfOk, OnOk, length};
ghost use Rattle.cases_data.specs.Sizes.{most};
ghost use Rattle.cases_data.specs.Work.{Work, mixed, popped, pushed, start, worked};

use crate::sizes::Sizes;
use cases_lines::Fault;
use rs_queue::Queue;
use rs_value::Memory;
use std::alloc::Global;
use std::marker::Model;

const MULTIPLIER: u64 = 16_807;

const MODULUS: u64 = 2_147_483_647;
// Half of the range of a scattered key, and what a number of the generator is divided by to be in that range.
const HALF: u64 = 524_288;

const SCALE: u64 = 2_048;
// More than there are ever pairs.
const PAIRS: u64 = 2_097_152;

/// A queue at work. Its keys are scattered, and no two are equal.
#[derive(Drop)]
pub struct Load {
    // How far the keys move on with each pair.
    step: u64,
    // The generator's next number.
    number: u64,
    // How many pairs were put in.
    count: u32,
    held: Queue<u64, u32>,
    checksum: u64,
}

impl Model for Load {
    ghost use Rattle.std.specs.Prelude.{◌≡◌, ◌<◌, ◌≤◌, ◌%◌};
    ghost use Rattle.std.specs.List.{AllByRecursion};
    ghost use Rattle.cases_data.specs.Work.{Work, number_at};

    ghost Value = { Work };

    ghost view = { λ load. record {
      step = load.step;
      count = load.count;
      held = load.held;
      checksum = load.checksum;
    } };

    ghost invariant = { λ load. (load.number ≡ number_at load.count) × (load.number < 2147483647)
        × (load.checksum < 2147483647) × AllByRecursion (λ pair. pair.0 % 2097152 < load.count) load.held
        × (load.step ≤ 524288) };
}

impl Load {
    /// Fills a queue, and takes out and puts in as often as the sizes say.
    pub fn work(alloc: Global, sizes: &Sizes) -> Result<Load, Memory>
        ensures { IfOk result (λ load. load ≡ worked sizes.now.held sizes.now.operations) }
    {
        let mut load = Load::new(alloc, sizes.held);
        for _pair in 0..sizes.held {
            load.push()?;
        }
        for _operation in 0..sizes.operations {
            load.pop();
            load.push()?;
        }
        Ok(load)
    }

    fn new(alloc: Global, held: u64) -> Load
        requires { held ≤ most }
        ensures { result ≡ start held }
    {
        Load {
            step: HALF / (held + 1),
            number: 1,
            count: 0,
            held: Queue::new(alloc),
            checksum: 0,
        }
    }

    /// How many pairs the queue holds.
    pub fn len(&self) -> usize
        ensures { result ≡ length self.now.held }
    {
        self.held.len()
    }

    /// The checksum of the keys that were taken out.
    pub fn checksum(&self) -> u64
        ensures { result ≡ self.now.checksum }
    {
        self.checksum
    }

    /// Puts the next pair in.
    fn push(&mut self) -> Result<(), Memory>
        requires { self.old.count < 2097151 }
        ensures { OnOk result (self.new ≡ pushed self.old) }
    {
        let key = key_of(self.number, u64::from(self.count), self.step);
        match self.held.push(key, self.count) {
            Ok(()) => {
                self.number = MULTIPLIER * self.number % MODULUS;
                self.count += 1;
                Ok(())
            }
            Err(_) => Err(Memory),
        }
    }

    /// Takes the first pair out.
    fn pop(&mut self)
        ensures { self.new ≡ popped self.old }
    {
        if let Some((key, _)) = self.held.pop() {
            self.checksum = mixed(self.checksum, key);
        }
    }
}

/// The key of a pair, from the generator's number and the number of the pair.
fn key_of(number: u64, count: u64, step: u64) -> u64
    requires number { number < 2147483647 }
    requires count { count < 2097152 }
    requires step { step ≤ 524288 }
    ensures { result ≡ (number / 2048 + count * step) * 2097152 + count }
{
    (number / SCALE + count * step) * PAIRS + count
}

/// A checksum with one more key.
fn mixed(checksum: u64, key: u64) -> u64
    requires { checksum < 2147483647 }
    ensures value { result ≡ mixed checksum key }
    ensures limit { result < 2147483647 }
{
    (MULTIPLIER * checksum + key % MODULUS) % MODULUS
}

/// Works a queue, and tells what came of it: `HELD OPERATIONS`.
pub fn tell_work(alloc: Global, words: &[u8], told: &mut String) -> Result<(), Fault> {
    let Some(sizes) = Sizes::of(words) else {
        return Err(Fault::Form);
    };
    let load = Load::work(alloc, &sizes)?;
    let held = load.len();
    let checksum = load.checksum();
    drop(load);
    Ok(write!(told, "held {held}, checksum {checksum}")?)
}
