ghost use Rattle.std.specs.Prelude.{◌≡◌, ◌+◌, ◌<◌, ◌≤◌, ◌*◌, ◌%◌, IfOk};
ghost use Rattle.ug_gen.specs.Draws.{draw, each};
ghost use Rattle.ug_gen.specs.Stated.{profit, weight};

use std::alloc::{AllocError, Global};
use std::marker::Model;

const FACTOR: u64 = 16_807;

const MODULUS: u64 = 2_147_483_647;

const MOST_PROFIT: u32 = 100;

const MOST_WEIGHT: u32 = 50;

/// Some first draws of a seed.
#[derive(Drop)]
pub struct Draws {
    seed: u32,
    numbers: Vec<u32>,
}

impl Model for Draws {
    ghost use Rattle.std.specs.Prelude.{◌≡◌, length};
    ghost use Rattle.ug_gen.specs.Draws.{Drawn, draw, each};

    ghost Value = { Drawn };

    ghost view = { λ d. record { seed = d.seed; count = length d.numbers.items } };

    ghost invariant = { λ d. d.numbers.items ≡ each (draw d.seed) (length d.numbers.items) };
}

// The number after this one.
fn next(number: u32) -> u32
    requires { number < 2147483647 }
    ensures value { result ≡ 16807 * number % 2147483647 }
    ensures small { result < 2147483647 }
{
    (FACTOR * u64::from(number) % MODULUS) as u32
}

// The first draws of a seed.
#[tactic(auto, using(crate::proofs::Rules::number_first, crate::proofs::Rules::number_next, crate::proofs::Rules::each_more))]
fn numbers(alloc: Global, seed: u32, count: u32) -> Result<Vec<u32>, AllocError>
    requires { seed < 2147483647 }
    ensures { IfOk result (λ numbers. numbers.items ≡ each (draw seed) count) }
{
    let mut number = seed;
    let mut numbers = Vec::new(alloc);
    for i in 0..count {
        number = next(number);
        numbers.push(number)?;
    }
    Ok(numbers)
}

impl Draws {
    /// The first `count` draws of a seed.
    #[tactic(auto, using(crate::proofs::Rules::length_each))]
    pub fn new(alloc: Global, seed: u32, count: u32) -> Result<Draws, AllocError>
        requires { seed < 2147483647 }
        ensures { IfOk result (λ draws. draws ≡ record { seed = seed; count = count }) }
    {
        let numbers = numbers(alloc, seed, count)?;
        Ok(Draws { seed, numbers })
    }

    /// The profit of a column, counted from 0.
    #[tactic(auto, using(crate::proofs::Rules::at_each))]
    pub fn profit(&self, column: u32) -> u32
        requires column { column < 40 }
        requires drawn { 4 * column < self.now.count }
        ensures value { result ≡ profit self.now.seed column }
        ensures small { result ≤ 100 }
    {
        1 + self.numbers[(4 * column) as usize] % MOST_PROFIT
    }

    /// The weight of a column, counted from 0, in a row, counted from 1.
    #[tactic(auto, using(crate::proofs::Rules::at_each))]
    pub fn weight(&self, row: u32, column: u32) -> u32
        requires row { row ≤ 3 }
        requires column { column < 40 }
        requires drawn { 4 * column + row < self.now.count }
        ensures value { result ≡ weight self.now.seed row column }
        ensures small { result ≤ 50 }
    {
        1 + self.numbers[(4 * column + row) as usize] % MOST_WEIGHT
    }
}
